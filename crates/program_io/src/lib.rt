// The program's calls of the system and the loops around them; what is made of their answers is in the crates `plan`, `reads`
// and `program`. The program `purserumble` is `run` alone, and so are the small programs that run it with other arguments
// and messages.
#![tactic(auto)]

ghost use Rattle.std.specs.Prelude.{◌≡◌, ◌<◌, true, IsOk, IsUtf8, IfOk, IfSome, is_ok, length, take};
ghost use Rattle.std.specs.Io.KnownBytes.{Consumes, IsAtEnd};
ghost use Rattle.table_file.specs.File.{table_of, file_fault};
ghost use Rattle.line.specs.Line.{reply_of};
ghost use Rattle.program.specs.Intakes.{TookIn};
ghost use Rattle.reads.specs.Files.{Fills, Loads};
ghost use Rattle.plan.specs.Given.{Given, Asks};
ghost use Rattle.program.specs.Reply.{reply_to_message, Replies, RepliesWithFile, ProgramReplies};

use arguments::{ArgumentKind, file_name};
use flags::Flags;
use hasher::Hasher;
use line::{Failure, Said, line_of};
use plan::{Plan, kind_given};
use program::{said_of, take};
use reads::{file_room, given, table_check};
use std::io::Read;
use std::rt::{Env, Files};
use std::{fs, io};
use table_file::file_words;

// Bytes in the longest path, with the 0 that ends it.
const PATH_MAX: usize = 4096;

// Bytes of the message that are read at once, at most.
const LARGE: usize = 65536;

// Bytes in `table=`.
const SIGN: usize = 6;

// Bytes in the longest argument that can name a file: `table=` and a path without the 0 that ends it.
const MOST_ARGUMENT: usize = SIGN + PATH_MAX - 1;

// The kind of argument i, where there is one.
fn argument<R: Env>(rt: &R, i: usize) -> Option<ArgumentKind>
    ensures { IfSome result Given }
{
    let mut buf = [0u8; MOST_ARGUMENT];
    match rt.arg(i, &mut buf) {
        Ok(n) => kind_given(Ok(&buf[..n])),
        Err(e) => kind_given(Err(e)),
    }
}

// What the arguments ask, one after the other; the first, at place 0, is the program's own name.
fn arguments<R: Env>(rt: &R) -> Result<Plan, Failure>
    ensures { Asks result }
{
    let mut plan = Plan::new();
    for i in 1..usize::MAX {
        let Some(kind) = argument(rt, i) else {
            return Ok(plan);
        };
        plan = plan.with(kind, i)?;
    }
    Ok(plan)
}

// Reads until the file ends or the buffer is full, and answers how many bytes there are. The loop is written out, as what
// std's `read_to_end` promises after an error is too little. Where it is known what a file still has, these are its next bytes,
// and fewer than fill the buffer only where none are left: a read that fails is no end.
fn read_file<F: Read>(file: &mut F, bytes: &mut [u8]) -> io::Result<usize>
    ensures fills { Fills bytes.new result }
    ensures consumed { IfOk result (λ n. Consumes (F.remaining file.old) (F.remaining file.new) (take n bytes.new)) }
    ensures ended { IfOk result (λ n. n < length bytes.new → IsAtEnd (F.remaining file.new)) }
{
    let mut done = 0;
    while done < bytes.len() {
        match given(file.read(&mut bytes[done..]))? {
            Some(n) => done += n,
            None => return Ok(done),
        }
    }
    Ok(done)
}

// Opens the file of a name. No path can be asked of the system but UTF-8 text, so a name that is none can't be opened.
fn open_named<R: Files>(rt: &R, name: &[u8]) -> io::Result<R::File>
    ensures { IsOk result → IsUtf8 name.now }
{
    match str::from_utf8(name) {
        Ok(path) => fs::open(rt, path),
        Err(_) => Err(io::Error::from(io::ErrorKind::InvalidFilename)),
    }
}

// The bytes of the file that argument i names. It is closed before the message is read: with standard input closed, the file
// has its descriptor, 0, and would be read as the message.
fn load<R: Env + Files>(rt: &R, i: usize, bytes: &mut [u8]) -> io::Result<usize>
    ensures { Loads bytes.new result }
{
    let mut buf = [0u8; MOST_ARGUMENT];
    let n = rt.arg(i, &mut buf).unwrap_or(0);
    let mut file = open_named(rt, file_name(&buf[..n]))?;
    read_file(&mut file, bytes)
}

// Takes the message in piece by piece, to its end, to a refusal or to a read that fails.
fn take_in<R: Input>(rt: &R, start: Hasher, table: &[u32]) -> Result<Hasher, Failure>
    ensures { TookIn start table.now result }
{
    let mut input = rt.reader();
    let mut buf = [0u8; LARGE];
    let mut hasher = start;
    loop {
        let got = input.read(&mut buf);
        match take(hasher, table, got, &buf)? {
            Some(next) => hasher = next,
            None => return Ok(hasher),
        }
    }
}

// The reply to the message, with a table that was checked or with none.
fn reply_to_message<R: Input>(rt: &R, flags: Flags, table: &[u32]) -> Result<Said, Failure>
    ensures { Replies (reply_to_message flags table.now) (reply_of result) }
{
    let hasher = take_in(rt, Hasher::new(flags), table)?;
    said_of(hasher, table)
}

// The reply with the bytes of a table file that has nothing wrong.
fn reply_with_table<R: Input>(rt: &R, flags: Flags, bytes: &[u8]) -> Result<Said, Failure>
    requires { is_ok (file_fault bytes.now) ≡ true }
    ensures { Replies (reply_to_message flags (table_of bytes.now)) (reply_of result) }
{
    let words = file_words(bytes);
    reply_to_message(rt, flags, &words[..bytes.len() / 4])
}

// The reply with the table file that argument i names. It is checked whole before the message is read.
fn reply_with_file<R: Env + Files + Input>(rt: &R, flags: Flags, i: usize) -> Result<Said, Failure>
    ensures { RepliesWithFile flags i (reply_of result) }
{
    let mut room = file_room();
    let got = load(rt, i, &mut room);
    let n = table_check(got, &room)?;
    reply_with_table(rt, flags, &room[..n])
}

// The reply to what the arguments ask.
pub fn program_reply<R: Env + Files + Input>(rt: &R) -> Result<Said, Failure>
    ensures { ProgramReplies (reply_of result) }
{
    let plan = arguments(rt)?;
    let flags = plan.flags();
    match plan.table {
        Some(i) => reply_with_file(rt, flags, i),
        None => reply_to_message(rt, flags, &[]),
    }
}

// Reads a message on standard input and writes one line: the verdict and the digest, or the number of what is refused. Where
// output is closed or full nothing is said of that; a pipe that nobody reads any more is an error.
pub fn run<R: Env + Files + Input + Print>(rt: &R) -> io::Result<()> {
    let line = line_of(program_reply(rt));
    match rt.write_all(line.as_slice()) {
        Err(e) if e.kind() == io::ErrorKind::BrokenPipe => Err(e),
        _ => Ok(()),
    }
}
