// Messages hashed with conditions, by update and finish, and by update in place and finish-and-reset.
ghost use Rattle.std.specs.Prelude.{◌≡◌, ◌+◌};
ghost use Rattle.word.specs.Lists.{list_of};
ghost use Rattle.conditions_run.specs.Given.{condition_of};

use cases::{flags_of_bits, from_field, front, number_at, word_field};
use finish::{finish, finish_and_reset};
use flags::Flags;
use hasher::Hasher;
use in_place::through;
use loan::Lent;
use printing::{Hex, Said};
use std::io::Write;
use std::{array, io};
use update::update;
use verdict::DIGEST_SIZE;

// An update, and a finish.
fn by_finish<W: Write>(out: &mut W, flags: Flags, m: &[u8], lent: Lent<'_>) -> io::Result<()> {
    let start = Hasher::new(flags);
    let updated = update(start, m, lent);
    let finished = finish(updated.unwrap_or(start), lent);
    write!(out, "{}, {}", Said(updated.map(|_| ())), Said(finished))
}

// An update in place, and a finish-and-reset.
fn by_finish_reset<W: Write>(
    out: &mut W,
    flags: Flags,
    m: &[u8],
    lent: Lent<'_>,
) -> io::Result<()> {
    let start = Hasher::new(flags);
    let updated = through(start, m, lent);
    let mut digest = [0u8; DIGEST_SIZE];
    let ended = finish_and_reset(updated.unwrap_or(start), &mut digest, lent);
    let verdict = Said(ended.map(|f| f.verdict));
    write!(
        out,
        "{}, {verdict} {}",
        Said(updated.map(|_| ())),
        Hex(&digest)
    )
}

// A message both ways, with the flags of field 1. No mask is lent.
fn both_ways<W: Write>(out: &mut W, line: &[u8], m: &[u8], lent: Lent<'_>) -> io::Result<()> {
    let flags = flags_of_bits(number_at(line, 1));
    by_finish(out, flags, m, lent)?;
    write!(out, "; ")?;
    by_finish_reset(out, flags, m, lent)?;
    writeln!(out)
}

// The condition of fields 3 to 8.
fn condition_of(line: &[u8]) -> [u32; 6]
    ensures { result ≡ condition_of line.now }
{
    array::from_fn(|k| word_field(line, 3 + k))
}

// `hello world` with the control record, and the first words of one condition.
pub(crate) fn say_control<W: Write>(out: &mut W, line: &[u8]) -> io::Result<()> {
    let condition = condition_of(line);
    let mut table = [0u32; 82];
    table[1] = 58;
    let lent = Lent {
        table: &table,
        conditions: front(&condition, number_at(line, 2)),
        masks: &[],
    };
    out.write_all(from_field(line, 9))?;
    write!(out, ": ")?;
    both_ways(out, line, b"hello world", lent)
}

// The first bytes of the published file, with the vectors and the first words of the conditions.
pub(crate) fn say_published<W: Write>(
    out: &mut W,
    line: &[u8],
    m: &[u8],
    lent: Lent<'_>,
) -> io::Result<()> {
    let fewer = Lent {
        conditions: front(lent.conditions, number_at(line, 3)),
        ..lent
    };
    out.write_all(from_field(line, 4))?;
    write!(out, ": ")?;
    both_ways(out, line, front(m, number_at(line, 2)), fewer)
}
