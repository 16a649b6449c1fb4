// One line played on the row, and what it answers written.
ghost use Rattle.std.specs.Prelude.{◌≡◌};
ghost use Rattle.cases.specs.Numbers.{number_at};
ghost use Rattle.loan.specs.Loan.{loan_in};
ghost use Rattle.bench_run.specs.Given.{seated_new, seated_given};
ghost use Rattle.bench_run.specs.Row.{row_of, row_updated, row_finished, row_reset};

use crate::given::{Given, line_hasher};
use crate::row::Row;
use bench::LaneAnswer;
use cases::{field, flags_of_bits, number_at};
use hasher::Hasher;
use loan::Lent;
use printing::{Hex, Said};
use refusal::Refusal;
use replay_line::run_at;
use std::io;
use std::io::Write;

// The call, and the lane that it names.
fn say_call<W: Write>(out: &mut W, name: &str, line: &[u8]) -> io::Result<()> {
    write!(out, "{name} ")?;
    out.write_all(field(line, 1))?;
    out.write_all(b": ")
}

// An update of the lane that field 1 has.
fn update_row<W: Write>(
    row: &mut Row,
    out: &mut W,
    line: &[u8],
    bytes: &[u8],
    lent: Lent<'_>,
) -> io::Result<bool>
    ensures { row.new ≡ row_updated row.old (number_at line.now 1) bytes.now (loan_in lent.entry) }
{
    let answer = row.update(number_at(line, 1), bytes, lent);
    say_call(out, "update", line)?;
    writeln!(out, "{}", Said(answer))?;
    Ok(true)
}

// A piece of a lane's message, which field 8 has.
fn play_update<W: Write>(row: &mut Row, out: &mut W, line: &[u8]) -> io::Result<bool> {
    let Some(given) = Given::of(line) else {
        return Ok(false);
    };
    let Some(run) = run_at(line, 8) else {
        return Ok(false);
    };
    update_row(row, out, line, run.as_slice(), given.lent())
}

// A finish of the lane that field 1 has.
fn finish_row(
    row: &mut Row,
    line: &[u8],
    front: &mut [u8],
    lent: Lent<'_>,
) -> Result<LaneAnswer, Refusal>
    ensures { row.new ≡ row_finished row.old (number_at line.now 1) front.old (loan_in lent.entry) }
{
    row.finish(number_at(line, 1), front, lent)
}

// A finish into the front of 24 bytes, of the size that field 8 has, with the first mark that it hands out.
fn play_finish<W: Write>(row: &mut Row, out: &mut W, line: &[u8]) -> io::Result<bool> {
    let Some(given) = Given::of(line) else {
        return Ok(false);
    };
    let mut output = [0xAAu8; 24];
    let Some(front) = output.get_mut(..number_at(line, 8)) else {
        return Ok(false);
    };
    let answer = finish_row(row, line, front, given.lent());
    let verdict = answer.map(|a| a.verdict);
    let first = answer.ok().and_then(|a| a.first);
    say_call(out, "finish", line)?;
    writeln!(out, "{} {}, {}", Said(verdict), Hex(&output), Said(first))?;
    Ok(true)
}

// Everything but its flags as at the start on the lane that field 1 has.
fn play_reset<W: Write>(row: &mut Row, out: &mut W, line: &[u8]) -> io::Result<bool>
    ensures { row.new ≡ row_reset row.old (number_at line.now 1) }
{
    let answer = row.reset(number_at(line, 1));
    say_call(out, "reset", line)?;
    writeln!(out, "{}", Said(answer))?;
    Ok(true)
}

// All hashers, lent or not.
fn show<W: Write>(row: &Row, out: &mut W) -> io::Result<bool> {
    for (i, h) in row.hashers.iter().enumerate() {
        writeln!(out, "hasher {i}: {}", Said(*h))?;
    }
    Ok(true)
}

// Another number of hashers lent.
fn lend(row: &mut Row, count: usize) -> bool
    ensures { row.new ≡ row_of count row.old.hashers }
{
    row.count = count;
    true
}

// A new hasher at a seat, with the flags of field 2.
fn seat_new(row: &mut Row, line: &[u8]) -> bool
    ensures { row.new ≡ seated_new row.old line.now }
{
    row.seat(
        number_at(line, 1),
        Hasher::new(flags_of_bits(number_at(line, 2))),
    )
}

// A hasher with the fields of the line at a seat.
fn seat_given(row: &mut Row, line: &[u8]) -> bool
    ensures { row.new ≡ seated_given row.old line.now }
{
    match line_hasher(line) {
        Some(h) => row.seat(number_at(line, 1), h),
        None => false,
    }
}

// A line; one that can't be played leaves the row as it was.
pub(crate) fn play<W: Write>(
    row: &mut Row,
    out: &mut W,
    letter: u8,
    line: &[u8],
) -> io::Result<()> {
    let played = match letter {
        b'b' => lend(row, number_at(line, 1)),
        b'n' => seat_new(row, line),
        b'i' => seat_given(row, line),
        b'u' => play_update(row, out, line)?,
        b'f' => play_finish(row, out, line)?,
        b'r' => play_reset(row, out, line)?,
        b's' => show(row, out)?,
        _ => false,
    };
    if !played {
        out.write_all(b"not played: ")?;
        out.write_all(line)?;
        out.write_all(b"\n")?;
    }
    Ok(())
}
