// Runs the hasher on published messages and files, whole and in pieces, and writes what came of each. The file
// data/cases.txt has the calls, the file stdout what the lines must be.
#![tactic(auto)]

mod ended;
mod line;
mod marked;
mod nist;

use cases::{each_case, file_filling, file_text, front, number_at, word_field};
use loan::Lent;
use std::alloc::AllocGlobal;
use std::io;
use std::io::{BufWriter, Write};
use std::rt::Files;
use table_file::{MOST_WORDS, file_words};

// Masks for each block of the longest message.
const MASKS: usize = 15626;

// Words in the control record, and bytes of the file with NIST's short messages.
const CONTROL: usize = 82;

const SHORT: usize = 3445;

// A case's masks: field 2 for every block, but for the block of field 3, which has field 4.
fn masks_of(line: &[u8]) -> [u32; MASKS] {
    let mut masks = [word_field(line, 2); MASKS];
    if let Some(mask) = masks.get_mut(number_at(line, 3)) {
        *mask = word_field(line, 4);
    }
    masks
}

// A case by its letter, with what is lent for its message.
fn call<R: Files + AllocGlobal, W: Write>(
    rt: &R,
    out: &mut W,
    letter: u8,
    line: &[u8],
    short: &[u8],
    lent: Lent<'_>,
) -> io::Result<()> {
    match letter {
        b'm' => line::text(out, line, lent),
        b'x' => line::file(rt, out, line, lent),
        b'l' => line::long(rt, out, line, lent),
        b'n' => nist::count(out, line, short, lent),
        b's' => marked::stays(rt, out, line, lent),
        _ => Ok(()),
    }
}

// Field 1 has the words of the table: 82 for the control record, else it is the real one.
fn play<R: Files + AllocGlobal, W: Write>(
    rt: &R,
    out: &mut W,
    letter: u8,
    line: &[u8],
    short: &[u8],
    real: &[u32; MOST_WORDS],
    control: &[u32],
) -> io::Result<()> {
    let masks = masks_of(line);
    let lent = Lent {
        table: if number_at(line, 1) == CONTROL {
            control
        } else {
            real
        },
        conditions: &[],
        masks: &masks,
    };
    call(rt, out, letter, line, short, lent)
}

fn main(rt: HostRuntime) -> io::Result<()> {
    let mut out = BufWriter::new(rt.alloc(), io::writer(&rt))?;
    let text = file_text(&rt, &mut out, b"cases.txt")?;
    let short = file_filling(&rt, &mut out, b"short-messages.bin", SHORT)?;
    let bytes = file_filling(&rt, &mut out, b"real-table.bin", 4 * MOST_WORDS)?;
    let record = file_filling(&rt, &mut out, b"control-table.bin", 4 * CONTROL)?;
    let real = file_words(&bytes);
    let words = file_words(&record);
    let control = front(&words, CONTROL);
    each_case(&text, &mut out, |out, letter, line| {
        play(&rt, out, letter, line, &short, &real, control)
    })?;
    out.flush()
}
