// Updates that fill no block, with tables and conditions that would be refused for one: what is not looked at is not refused. Each
// call is made three ways. The file data/cases.txt has the calls, the file stdout what the lines must be.
#![tactic(auto)]

ghost use Rattle.std.specs.Prelude.{IfOk, ◌≡◌};
ghost use Rattle.cases.specs.Numbers.{number_at, flags_of_bits};
ghost use Rattle.short_run.specs.Ways.{ways_new};

mod calls;
mod ways;

use calls::make;
use cases::{
    conditions_of, each_line, file_filling, file_text, flags_of_bits, from_field, front, number_at,
    records_of,
};
use loan::Lent;
use std::io;
use std::io::{BufWriter, Write};
use ways::{Ways, ways_new};

// Bytes of the message.
const MESSAGE: usize = 320;

// New hashers with the flags of field 1. What follows is a title.
fn begun<W: Write>(out: &mut W, line: &[u8]) -> io::Result<Ways>
    ensures { IfOk result (λ r. r ≡ ways_new (flags_of_bits (number_at line.now 1))) }
{
    out.write_all(from_field(line, 2))?;
    out.write_all(b"\n")?;
    Ok(ways_new(flags_of_bits(number_at(line, 1))))
}

// What a line lends: the first words of a table, of conditions and of masks that select no record with mask number 0; and the
// bytes of the message from field 12 to field 13.
fn played<W: Write>(out: &mut W, letter: u8, w: Ways, line: &[u8], m: &[u8]) -> io::Result<Ways> {
    let table = records_of(line);
    let conditions = conditions_of(line, 8);
    let masks = [0xFFFFFFFEu32; 3];
    let lent = Lent {
        table: front(&table, number_at(line, 1)),
        conditions: front(&conditions, number_at(line, 7)),
        masks: front(&masks, number_at(line, 6)),
    };
    out.write_all(b"  ")?;
    out.write_all(from_field(line, 14))?;
    out.write_all(b": ")?;
    match m.get(number_at(line, 12)..number_at(line, 13)) {
        Some(part) => make(out, letter, w, part, lent),
        None => {
            writeln!(out, "no such bytes")?;
            Ok(w)
        }
    }
}

// The hashers after a line: `#` begins a comment.
fn after_line<W: Write>(
    out: &mut W,
    letter: u8,
    w: Ways,
    line: &[u8],
    m: &[u8],
) -> io::Result<Ways> {
    match letter {
        b'#' => Ok(w),
        b'n' => begun(out, line),
        _ => played(out, letter, w, line, m),
    }
}

fn main(rt: HostRuntime) -> io::Result<()> {
    let mut out = BufWriter::new(rt.alloc(), io::writer(&rt))?;
    let text = file_text(&rt, &mut out, b"cases.txt")?;
    let message = file_filling(&rt, &mut out, b"shattered-1.first320.bin", MESSAGE)?;
    let mut ways = ways_new(flags_of_bits(0));
    each_line(&text, &mut out, |out, letter, line| {
        ways = after_line(out, letter, ways, line, &message)?;
        Ok(())
    })?;
    out.flush()
}
