// Runs the barcode sheet on three records, of which the first and the last have the same barcode, and on a sheet that has the
// digest of the first 320 bytes of both shattered files and that of a clean file, which are hashed here; and writes a line for each
// call. The file data/cases.txt has the calls, the file stdout what the lines must be.
#![tactic(auto)]

use cases::{
    each_line, field, file_filling, file_text, flags_of_bits, from_field, front, number_at,
};
use comparison::{Comparison, compare};
use loan::Lent;
use one_shot::whole;
use printing::Said;
use refusal::{Refusal, number_of};
use sheet::{lookup, lookup_refusal};
use std::io;
use std::io::{BufWriter, Write};
use std::rt::Files;
use table_file::{MOST_WORDS, file_words};
use verdict::{DIGEST_SIZE, Verdict};

// Bytes of the longest message, and of the sheet's file.
const MOST_MESSAGE: usize = 320;

const SHEET: usize = 64;

// The sheet is the front of field 3.
fn sheet_of(line: &[u8]) -> &[u8] {
    front(field(line, 3), number_at(line, 2))
}

// The number of a lookup, and the part that it hands back.
fn look<W: Write>(out: &mut W, line: &[u8]) -> io::Result<()> {
    let records = sheet_of(line);
    let code = field(line, 1);
    let refused = number_of(lookup_refusal(records, code));
    out.write_all(from_field(line, 4))?;
    write!(out, ": {refused} [")?;
    out.write_all(lookup(records, code))?;
    writeln!(out, "]")
}

fn verdict_of(n: usize) -> Verdict {
    match n {
        0 => Verdict::Ok,
        1 => Verdict::Mitigated,
        _ => Verdict::Collision,
    }
}

// 20 bytes as a digest; zeros for any other number of them.
fn digest_of(bytes: &[u8]) -> [u8; DIGEST_SIZE] {
    <[u8; DIGEST_SIZE]>::try_from(bytes).unwrap_or([0; DIGEST_SIZE])
}

fn say_compared<W: Write>(out: &mut W, answer: Result<Comparison, Refusal>) -> io::Result<()> {
    match answer {
        Ok(said) => writeln!(out, "{said}"),
        Err(refusal) => writeln!(out, "refused {}", refusal.number()),
    }
}

// The answer of a comparison.
fn hold<W: Write>(out: &mut W, line: &[u8]) -> io::Result<()> {
    let answer = compare(
        sheet_of(line),
        field(line, 1),
        verdict_of(number_at(line, 4)),
        digest_of(field(line, 5)),
    );
    out.write_all(from_field(line, 6))?;
    write!(out, ": ")?;
    say_compared(out, answer)
}

// A file hashed with the flags of field 2 and masks off, so that neither masks nor conditions are looked at; and what the sheet's
// file says of the verdict and the digest.
fn audit<R: Files + AllocGlobal, W: Write>(
    rt: &R,
    out: &mut W,
    line: &[u8],
    table: &[u32],
) -> io::Result<()> {
    let n = number_at(line, 4);
    if n > MOST_MESSAGE {
        return Ok(());
    }
    let message = file_filling(rt, out, field(line, 3), n)?;
    let lent = Lent {
        table,
        conditions: &[0],
        masks: &[0],
    };
    let flags = flags_of_bits(number_at(line, 2));
    let ended = whole(flags, &message, lent);
    out.write_all(from_field(line, 5))?;
    write!(out, ": {}", Said(ended))?;
    match ended {
        Ok(d) => {
            let records = file_filling(rt, out, b"audit.sheet", SHEET)?;
            let code = field(line, 1);
            write!(out, ", ")?;
            say_compared(out, compare(&records, code, d.verdict, d.digest))
        }
        Err(_) => writeln!(out),
    }
}

// A case by its letter: any but these begins a comment.
fn one<R: Files + AllocGlobal, W: Write>(
    rt: &R,
    out: &mut W,
    letter: u8,
    line: &[u8],
    table: &[u32],
) -> io::Result<()> {
    match letter {
        b'l' => look(out, line),
        b'c' => hold(out, line),
        b'a' => audit(rt, out, line, table),
        _ => Ok(()),
    }
}

// The cases, with the table of a file.
fn main(rt: HostRuntime) -> io::Result<()> {
    let mut out = BufWriter::new(rt.alloc(), io::writer(&rt))?;
    let text = file_text(&rt, &mut out, b"cases.txt")?;
    let bytes = file_filling(&rt, &mut out, b"real-table.bin", 4 * MOST_WORDS)?;
    let table = file_words(&bytes);
    each_line(&text, &mut out, |out, letter, line| {
        one(&rt, out, letter, line, &table)
    })?;
    out.flush()
}
