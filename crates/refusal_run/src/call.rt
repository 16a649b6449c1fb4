// One call of an entry point, and a line of what came of it: the answer, and whether what was given came back as it was.
use crate::given::{given_hasher, given_message};
use cases::{from_field, number_at};
use finish::{Finished, finish, finish_and_reset};
use hasher::{Hasher, reset};
use in_place::update_in_place;
use loan::Lent;
use one_shot::{Digested, one_shot};
use printing::{Hex, Said};
use refusal::Refusal;
use std::io;
use std::io::Write;
use update::update;

// The name of a case, which stands before what came of its call.
fn say_name<W: Write>(out: &mut W, line: &[u8]) -> io::Result<()> {
    out.write_all(from_field(line, 21))?;
    out.write_all(b": ")
}

// The hasher that came back, or that it is the one given.
fn say_back<W: Write>(out: &mut W, given: Hasher, back: Hasher) -> io::Result<()> {
    if back == given {
        writeln!(out, ", hasher unchanged")
    } else {
        writeln!(out, ", hasher {}", Said(back))
    }
}

// What came of an update or a reset, which hands on a hasher where it refuses nothing.
fn say_moved<W: Write>(
    out: &mut W,
    given: Hasher,
    answer: Result<Hasher, Refusal>,
) -> io::Result<()> {
    write!(out, "{}", Said(answer.map(|_| ())))?;
    say_back(out, given, answer.unwrap_or(given))
}

// An update of a hasher where it lies. What stands there afterwards is written, refused or not.
fn in_place<W: Write>(
    out: &mut W,
    given: Hasher,
    message: &[u8],
    lent: Lent<'_>,
) -> io::Result<()> {
    let mut own = given;
    let answer = update_in_place(&mut own, message, lent);
    write!(out, "{}", Said(answer))?;
    say_back(out, given, own)
}

fn say_finished<W: Write>(
    out: &mut W,
    given: Hasher,
    ended: Result<Finished, Refusal>,
) -> io::Result<()> {
    let first = ended.ok().and_then(|f| f.first);
    write!(out, "{}, {}", Said(ended), Said(first))?;
    say_back(out, given, ended.map_or(given, |f| f.hasher))
}

fn say_digested<W: Write>(out: &mut W, ended: Result<Digested, Refusal>) -> io::Result<()> {
    let first = ended.ok().and_then(|d| d.first);
    writeln!(out, "{}, {}", Said(ended), Said(first))
}

// The output is lent as the front of 24 bytes; field 15 has its size. Of a size that is larger nothing is written.
fn by_finish_reset<W: Write>(
    out: &mut W,
    given: Hasher,
    line: &[u8],
    lent: Lent<'_>,
) -> io::Result<()> {
    let mut output = [0xA5u8; 24];
    let Some(front) = output.get_mut(..number_at(line, 15)) else {
        return Ok(());
    };
    let ended = finish_and_reset(given, front, lent);
    let outcome = ended.map(|f| f.verdict);
    let first = ended.ok().and_then(|f| f.first);
    say_name(out, line)?;
    write!(out, "{} {}, {}", Said(outcome), Hex(&output), Said(first))?;
    say_back(out, given, ended.map_or(given, |f| f.hasher))
}

// A call by its letter, any but these to write the hasher that calls are given.
pub(crate) fn call<W: Write>(
    out: &mut W,
    letter: u8,
    line: &[u8],
    lent: Lent<'_>,
) -> io::Result<()> {
    let given = given_hasher(line);
    let message = given_message(line);
    if letter == b'c' {
        return by_finish_reset(out, given, line, lent);
    }
    say_name(out, line)?;
    match letter {
        b'u' => say_moved(out, given, update(given, message, lent)),
        b'p' => in_place(out, given, message, lent),
        b'r' => say_moved(out, given, reset(given)),
        b'f' => say_finished(out, given, finish(given, lent)),
        b'o' => say_digested(out, one_shot(message, lent.table, lent.masks)),
        _ => writeln!(out, "hasher {}", Said(given)),
    }
}
