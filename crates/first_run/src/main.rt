// Runs what tells where a message was first marked: messages cut in two, by every way to end them, and writes a line for each.
// The file data/cases.txt has the calls, the file stdout what the lines must be.
#![tactic(auto)]

mod ended;
mod given;
mod piece;

use cases::{each_case, file_filling, file_text, from_field, front, number_at};
use ended::{at_once, both_ways};
use given::{masks_of, message_of, table_of};
use loan::Lent;
use std::alloc::AllocGlobal;
use std::io;
use std::io::{BufWriter, Write};
use std::rt::Files;
use table_file::file_words;

// Words of the crate's own conditions.
const CONDITIONS: usize = 936;

// A case: the message and the table are in files.
fn play<R: Files + AllocGlobal, W: Write>(
    rt: &R,
    out: &mut W,
    letter: u8,
    line: &[u8],
    conditions: &[u32],
) -> io::Result<()> {
    let message = message_of(rt, out, line)?;
    let table = table_of(rt, out, line)?;
    let masks = masks_of(line);
    let lent = Lent {
        table: front(&table, number_at(line, 2) / 4),
        conditions,
        masks: &masks,
    };
    out.write_all(from_field(line, 16))?;
    write!(out, ": ")?;
    match letter {
        b'o' => at_once(out, line, &message, lent),
        _ => both_ways(out, line, &message, lent),
    }
}

fn main(rt: HostRuntime) -> io::Result<()> {
    let mut out = BufWriter::new(rt.alloc(), io::writer(&rt))?;
    let text = file_text(&rt, &mut out, b"cases.txt")?;
    let file = file_filling(&rt, &mut out, b"conditions.bin", 4 * CONDITIONS)?;
    let records = file_words(&file);
    let conditions = front(&records, CONDITIONS);
    each_case(&text, &mut out, |out, letter, line| {
        play(&rt, out, letter, line, conditions)
    })?;
    out.flush()
}
