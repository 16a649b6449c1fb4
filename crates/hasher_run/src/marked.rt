// A marked block and clean ones behind it: the mark stays until the reset, the flags stay after it.
use crate::ended::{Sizes, after_reset, finish_after, in_pieces};
use crate::line::MOST_FILE;
use cases::{field, file_filling, flags_of_bits, from_field, number_at};
use hasher::Hasher;
use loan::Lent;
use printing::Said;
use std::alloc::AllocGlobal;
use std::io;
use std::io::Write;
use std::rt::Files;

// A hasher after the file that field 8 names.
fn marked<R: Files + AllocGlobal, W: Write>(
    rt: &R,
    out: &mut W,
    line: &[u8],
    lent: Lent<'_>,
) -> io::Result<Hasher> {
    let message = file_filling(rt, out, field(line, 8), MOST_FILE)?;
    let start = Hasher::new(flags_of_bits(number_at(line, 5)));
    Ok(in_pieces(start, &message, Sizes::of(line), lent))
}

// The file is read for each of two hashers, so that what is wrong with it is written twice.
pub(crate) fn stays<R: Files + AllocGlobal, W: Write>(
    rt: &R,
    out: &mut W,
    line: &[u8],
    lent: Lent<'_>,
) -> io::Result<()> {
    let sizes = Sizes::of(line);
    let clean = [0u8; 150];
    let first = marked(rt, out, line, lent)?;
    out.write_all(from_field(line, 10))?;
    writeln!(out, "{}", Said(first))?;
    let second = marked(rt, out, line, lent)?;
    let later = in_pieces(second, &clean, sizes, lent);
    writeln!(out, "  two blocks on: {}", Said(later))?;
    let finished = finish_after(later, clean.len(), lent);
    writeln!(out, "  finish: {}", Said(finished))?;
    let fresh = after_reset(later);
    writeln!(out, "  reset: {}", Said(fresh))?;
    let abc = in_pieces(fresh, b"abc", sizes, lent);
    let finished = finish_after(abc, 3, lent);
    writeln!(out, "  abc after that: {}", Said(finished))
}
