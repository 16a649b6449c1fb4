// Runs what conditions bring: the check of their table, the vectors that survive them for the blocks of a published colliding
// file, and messages hashed with them; and writes a line for each. The file data/cases.txt has the calls, the file stdout what
// the lines must be.
#![tactic(auto)]

mod message;
mod tried;

use cases::{conditions_of, each_case, file_filling, file_text, from_field, front, number_at};
use conditions::condition_fault;
use loan::Lent;
use message::{say_control, say_published};
use printing::Said;
use std::io;
use std::io::{BufWriter, Write};
use table_file::{MOST_WORDS, file_words};
use tried::say_block;

// Bytes of the published file, and words of its conditions.
const MESSAGE: usize = 320;

const CONDITIONS: usize = 936;

// What is wrong with the first words of 513 conditions, of which a case changes two.
fn say_fault<W: Write>(out: &mut W, line: &[u8]) -> io::Result<()> {
    let conditions = conditions_of(line, 2);
    let fault = condition_fault(front(&conditions, number_at(line, 1)));
    out.write_all(from_field(line, 6))?;
    writeln!(out, ": {}", Said(fault))
}

// A case by its letter, with the published file and what is lent for it: its vectors and its conditions, and no masks.
fn play<W: Write>(
    out: &mut W,
    letter: u8,
    line: &[u8],
    m: &[u8],
    lent: Lent<'_>,
) -> io::Result<()> {
    match letter {
        b'f' => say_fault(out, line),
        b'b' => say_block(out, line, m, lent),
        b'c' => say_control(out, line),
        b'p' => say_published(out, line, m, lent),
        _ => Ok(()),
    }
}

fn main(rt: HostRuntime) -> io::Result<()> {
    let mut out = BufWriter::new(rt.alloc(), io::writer(&rt))?;
    let text = file_text(&rt, &mut out, b"cases.txt")?;
    let message = file_filling(&rt, &mut out, b"shattered-1.first320.bin", MESSAGE)?;
    let vectors = file_filling(&rt, &mut out, b"real-table.bin", 4 * MOST_WORDS)?;
    let file = file_filling(&rt, &mut out, b"conditions.bin", 4 * CONDITIONS)?;
    let table = file_words(&vectors);
    let records = file_words(&file);
    let lent = Lent {
        table: &table,
        conditions: front(&records, CONDITIONS),
        masks: &[],
    };
    each_case(&text, &mut out, |out, letter, line| {
        play(out, letter, line, &message, lent)
    })?;
    out.flush()
}
