// What a case gives: a table and a message, which stand in files, and a mask for each block.
ghost use Rattle.std.specs.Prelude.{◌≡◌, ◌<◌};
ghost use Rattle.first_run.specs.Given.{masks_of};

use cases::{field, file_filling, number_at, word_field};
use std::alloc::AllocGlobal;
use std::io::Write;
use std::rt::Files;
use std::{array, io};
use table_file::{MOST_WORDS, file_words};

// Bytes of the longest message.
const MOST_MESSAGE: usize = 448;

// The first bytes of the file that field i names, as many as the field behind it says; none where those are more than `most`.
fn bytes_of<R: Files + AllocGlobal, W: Write>(
    rt: &R,
    out: &mut W,
    line: &[u8],
    i: usize,
    most: usize,
) -> io::Result<Vec<u8>>
    requires { i < 32 }
{
    let n = number_at(line, i + 1);
    if n > most {
        return Ok(Vec::new(rt.alloc()));
    }
    file_filling(rt, out, field(line, i), n)
}

// The words of the table file that field 1 names, of as many bytes as field 2 says.
pub(crate) fn table_of<R: Files + AllocGlobal, W: Write>(
    rt: &R,
    out: &mut W,
    line: &[u8],
) -> io::Result<[u32; MOST_WORDS]> {
    Ok(file_words(&bytes_of(rt, out, line, 1, 4 * MOST_WORDS)?))
}

// The first bytes of the file that field 12 names, as many as field 13 says, and zeros behind them, up to the size of field 14.
pub(crate) fn message_of<R: Files + AllocGlobal, W: Write>(
    rt: &R,
    out: &mut W,
    line: &[u8],
) -> io::Result<Vec<u8>> {
    let mut message = bytes_of(rt, out, line, 12, MOST_MESSAGE)?;
    message.resize(number_at(line, 14).min(MOST_MESSAGE), 0)?;
    Ok(message)
}

// The masks of fields 4 to 11, one for each block.
pub(crate) fn masks_of(line: &[u8]) -> [u32; 8]
    ensures { result ≡ masks_of line.now }
{
    array::from_fn(|k| word_field(line, 4 + k))
}
