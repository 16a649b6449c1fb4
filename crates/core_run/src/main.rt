// Runs the one-block entry on the bench's checks, on FIPS 180-4's one-block example and on published colliding files, and
// writes a line for each call. The file data/cases.txt has the calls, the file stdout what the lines must be.
#![tactic(auto)]

use cases::{
    each_case, field, file_filling, file_text, from_field, front, mode_of_bits, number_at,
    records_of, word_field,
};
use detect::{Mode, OneBlock, one_block};
use printing::Said;
use refusal::{Refusal, number_of, place_of};
use search::Found;
use std::io;
use std::io::{BufWriter, Write};
use std::rt::Files;
use table_file::{MOST_WORDS, file_fault, file_words};

// Bytes of the longest message, and of the table file that has a record more than a table can have.
const MOST_MESSAGE: usize = 320;

const LONGER_TABLE: usize = 10824;

const START: [u32; 5] = [0x67452301, 0xEFCDAB89, 0x98BADCFE, 0x10325476, 0xC3D2E1F0];

// The case, the words, and what was found; behind a refusal zeros.
fn say_block<W: Write>(
    out: &mut W,
    case: &[u8],
    answer: Result<OneBlock, Refusal>,
) -> io::Result<()> {
    out.write_all(case)?;
    match answer {
        Ok(b) => writeln!(out, ": {}{}", Said(b.words), Said(b.found)),
        Err(refusal) => {
            let nothing = Found { by: None, tried: 0 };
            write!(out, ": {}, ", Said(refusal))?;
            writeln!(out, "{}{}", Said([0u32; 5]), Said(nothing))
        }
    }
}

// The one padded block of the message `abc`, and as many zeros behind it, so that a longer block can be lent.
fn abc() -> [u8; 128] {
    let mut b = [0u8; 128];
    b[..4].copy_from_slice(b"abc\x80");
    b[63] = 24;
    b
}

// The block of `abc`, or fewer or more bytes, with control records.
fn control<W: Write>(out: &mut W, line: &[u8]) -> io::Result<()> {
    let t = records_of(line);
    let block = abc();
    let answer = one_block(
        START,
        front(&block, number_at(line, 8)),
        front(&t, number_at(line, 1)),
        word_field(line, 6),
        mode_of_bits(number_at(line, 7)),
    );
    say_block(out, from_field(line, 9), answer)
}

// Block i of a message; where it has no such block, all of it.
fn block_at(m: &[u8], i: usize) -> &[u8] {
    m.chunks_exact(64).nth(i).unwrap_or(m)
}

// Block i of a message, from the words after the blocks before it, which are tried with nothing: their mask is 0. Where one of
// those is refused the last call is too, whatever the words are.
fn nth_block(
    m: &[u8],
    i: usize,
    table: &[u32],
    mask: u32,
    mode: Mode,
) -> Result<OneBlock, Refusal> {
    let mut words = START;
    for k in 0..i {
        match one_block(words, block_at(m, k), table, 0, mode) {
            Ok(b) => words = b.words,
            Err(_) => break,
        }
    }
    one_block(words, block_at(m, i), table, mask, mode)
}

// A block of a published file, of which field 2 says how many bytes are looked at.
fn published<R: Files + AllocGlobal, W: Write>(
    rt: &R,
    out: &mut W,
    line: &[u8],
    table: &[u32],
) -> io::Result<()> {
    let n = number_at(line, 2);
    if n > MOST_MESSAGE {
        return Ok(());
    }
    let bytes = file_filling(rt, out, field(line, 1), n)?;
    let answer = nth_block(
        &bytes,
        number_at(line, 3),
        table,
        word_field(line, 4),
        mode_of_bits(number_at(line, 5)),
    );
    say_block(out, from_field(line, 6), answer)
}

// What is wrong with the first bytes of a table file, one byte of which a case may change.
fn table_file<R: Files + AllocGlobal, W: Write>(
    rt: &R,
    out: &mut W,
    line: &[u8],
) -> io::Result<()> {
    let mut bytes = file_filling(rt, out, b"longer-table.bin", LONGER_TABLE)?;
    if let Some(byte) = bytes.get_mut(number_at(line, 2)) {
        *byte = (number_at(line, 3) % 256) as u8;
    }
    let fault = file_fault(front(&bytes, number_at(line, 1)));
    out.write_all(from_field(line, 4))?;
    writeln!(out, ": {} at {}", number_of(fault), place_of(fault))
}

fn one<R: Files + AllocGlobal, W: Write>(
    rt: &R,
    out: &mut W,
    letter: u8,
    line: &[u8],
    table: &[u32],
) -> io::Result<()> {
    match letter {
        b'c' => control(out, line),
        b'f' => table_file(rt, out, line),
        b'p' => published(rt, out, line, table),
        _ => Ok(()),
    }
}

// The cases, with the table of a file.
fn main(rt: HostRuntime) -> io::Result<()> {
    let mut out = BufWriter::new(rt.alloc(), io::writer(&rt))?;
    let text = file_text(&rt, &mut out, b"cases.txt")?;
    let bytes = file_filling(&rt, &mut out, b"real-table.bin", 4 * MOST_WORDS)?;
    let table = file_words(&bytes);
    each_case(&text, &mut out, |out, letter, line| {
        one(&rt, out, letter, line, &table)
    })?;
    out.flush()
}
