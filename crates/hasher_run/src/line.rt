// The lines of a message: what is tried, the verdict and the digest.
ghost use Rattle.std.specs.Prelude.{◌≡◌};
ghost use Rattle.hasher_run.specs.Cut.{turned_bits};

use crate::ended::{Sizes, Way, end_by};
use cases::{field, file_filling, flags_of_bits, from_field, front, number_at};
use flags::Flags;
use hasher::Hasher;
use loan::Lent;
use printing::Said;
use std::alloc::AllocGlobal;
use std::io;
use std::io::Write;
use std::rt::Files;

// Bytes of the longest file.
pub(crate) const MOST_FILE: usize = 320;

fn answer<W: Write>(
    out: &mut W,
    way: Way,
    flags: Flags,
    m: &[u8],
    sizes: Sizes,
    lent: Lent<'_>,
) -> io::Result<()> {
    let ended = end_by(way, Hasher::new(flags), m, sizes, lent);
    writeln!(out, "{}", Said(ended))
}

// A message: what a finish gives, and what a finish-and-reset gives.
fn both_ways<W: Write>(
    out: &mut W,
    flags: Flags,
    m: &[u8],
    sizes: Sizes,
    lent: Lent<'_>,
) -> io::Result<()> {
    write!(out, "  {}: ", Said(flags))?;
    answer(out, Way::Finish, flags, m, sizes, lent)?;
    write!(out, "    with reset: ")?;
    answer(out, Way::FinishReset, flags, m, sizes, lent)
}

// Four bits in the other order, so that detection is the last to turn.
fn turned_bits(bits: usize) -> usize
    ensures { result ≡ turned_bits bits }
{
    bits / 8 % 2 + bits / 4 % 2 * 2 + bits / 2 % 2 * 4 + bits % 2 * 8
}

// A message under every setting of the flags, and by the one-shot form.
fn modes<W: Write>(out: &mut W, line: &[u8], m: &[u8], lent: Lent<'_>) -> io::Result<()> {
    let sizes = Sizes::of(line);
    out.write_all(from_field(line, 10))?;
    writeln!(out)?;
    for bits in 0..16 {
        both_ways(out, flags_of_bits(turned_bits(bits)), m, sizes, lent)?;
    }
    write!(out, "  one-shot: ")?;
    answer(out, Way::OneShot, Flags::new(), m, sizes, lent)
}

// The first bytes of field 8, as many as field 9 says.
pub(crate) fn text<W: Write>(out: &mut W, line: &[u8], lent: Lent<'_>) -> io::Result<()> {
    let m = front(field(line, 8), number_at(line, 9));
    modes(out, line, m, lent)
}

// The file that field 8 names, of as many bytes as field 9 says.
pub(crate) fn file<R: Files + AllocGlobal, W: Write>(
    rt: &R,
    out: &mut W,
    line: &[u8],
    lent: Lent<'_>,
) -> io::Result<()> {
    let n = number_at(line, 9);
    if n > MOST_FILE {
        return Ok(());
    }
    let m = file_filling(rt, out, field(line, 8), n)?;
    modes(out, line, &m, lent)
}

// A million times a, under the flags of field 5, by the way of field 8.
pub(crate) fn long<R: AllocGlobal, W: Write>(
    rt: &R,
    out: &mut W,
    line: &[u8],
    lent: Lent<'_>,
) -> io::Result<()> {
    let m = vec![in rt.alloc(); b'a'; 1_000_000]?;
    let flags = flags_of_bits(number_at(line, 5));
    let way = Way::of(number_at(line, 8));
    out.write_all(from_field(line, 10))?;
    write!(out, ": ")?;
    answer(out, way, flags, &m, Sizes::of(line), lent)
}
