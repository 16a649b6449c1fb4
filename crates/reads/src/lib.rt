// What the program makes of its reads of a table file.
#![tactic(auto)]

ghost use Rattle.std.specs.Prelude.{◌≡◌, ◌+◌, ◌≤◌, length, replicate};
ghost use Rattle.table_file.specs.File.{most_file_bytes};
ghost use Rattle.reads.specs.Files.{given, size_of, check_of};

use line::Failure;
use std::io;
use table_file::{MOST_WORDS, file_fault};

// One byte more than the longest table file has, so that a longer one is seen.
pub const MOST_FILE: usize = 4 * MOST_WORDS + 1;

// The room that a table file is read into.
pub fn file_room() -> [u8; MOST_FILE]
    ensures { result ≡ replicate (most_file_bytes + 1) 0 }
{
    [0u8; MOST_FILE]
}

// How many bytes a read of a file gave, none at the file's end: an error is no end.
pub fn given(got: io::Result<usize>) -> io::Result<Option<usize>>
    ensures { result ≡ given got }
{
    match got {
        Ok(0) => Ok(None),
        Ok(n) => Ok(Some(n)),
        Err(e) => Err(e),
    }
}

// How many bytes a table file has, by what was read of it and the room after that. The whole table is checked here.
pub fn table_check(got: io::Result<usize>, room: &[u8]) -> Result<usize, Failure>
    requires { size_of got ≤ length room.now }
    ensures { result ≡ check_of got room.now }
{
    let n = got.map_err(|_| Failure::Unread)?;
    file_fault(&room[..n])?;
    Ok(n)
}
