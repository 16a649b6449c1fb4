// The ways to end a message, and what each says: where the hasher was marked on the way, the verdict and the digest, what is
// handed out, and where the hasher that comes back is marked.
use crate::piece::{last_lent, piece};
use cases::{flags_of_bits, front, number_at};
use finish::{finish, finish_and_reset};
use flags::Flags;
use hasher::Hasher;
use in_place::through;
use loan::Lent;
use one_shot::one_shot;
use printing::{Hex, Said};
use refusal::Refusal;
use std::io;
use std::io::Write;
use stream::FirstMark;
use update::update;
use verdict::{DIGEST_SIZE, Verdict};

// What a finish said and gave, and where the hasher that comes back was first marked.
fn say_end<W: Write>(
    out: &mut W,
    outcome: Result<Verdict, Refusal>,
    digest: &[u8],
    first: Option<FirstMark>,
    back: Hasher,
) -> io::Result<()> {
    write!(out, "{} {}, ", Said(outcome), Hex(digest))?;
    write!(out, "{}, back {}", Said(first), Said(back.first))
}

// Two updates, and a finish.
fn by_finish<W: Write>(
    out: &mut W,
    flags: Flags,
    m: &[u8],
    cut: usize,
    lent: Lent<'_>,
) -> io::Result<()> {
    let n = m.len();
    if cut <= n {
        let g = piece(update, Hasher::new(flags), m, 0, cut, lent);
        let h = piece(update, g, m, cut, n, lent);
        write!(out, "{}; {}; ", Said(g.first), Said(h.first))?;
        let finished = finish(h, last_lent(lent, n));
        let digest = finished.map_or([0; DIGEST_SIZE], |f| f.digest);
        let first = finished.ok().and_then(|f| f.first);
        let back = finished.map_or(h, |f| f.hasher);
        say_end(out, finished.map(|f| f.verdict), &digest, first, back)?;
    }
    Ok(())
}

// Two updates in place, and a finish-and-reset.
fn by_finish_reset<W: Write>(
    out: &mut W,
    flags: Flags,
    m: &[u8],
    cut: usize,
    lent: Lent<'_>,
) -> io::Result<()> {
    let n = m.len();
    if cut <= n {
        let g = piece(through, Hasher::new(flags), m, 0, cut, lent);
        let h = piece(through, g, m, cut, n, lent);
        let mut digest = [0u8; DIGEST_SIZE];
        let finished = finish_and_reset(h, &mut digest, last_lent(lent, n));
        let first = finished.ok().and_then(|f| f.first);
        let back = finished.map_or(h, |f| f.hasher);
        say_end(out, finished.map(|f| f.verdict), &digest, first, back)?;
    }
    Ok(())
}

// Both, with the flags of field 3 and the cut of field 15.
pub(crate) fn both_ways<W: Write>(
    out: &mut W,
    line: &[u8],
    m: &[u8],
    lent: Lent<'_>,
) -> io::Result<()> {
    let flags = flags_of_bits(number_at(line, 3));
    let cut = number_at(line, 15);
    by_finish(out, flags, m, cut, lent)?;
    write!(out, "; with reset ")?;
    by_finish_reset(out, flags, m, cut, lent)?;
    writeln!(out)
}

// The one-shot form, with as many masks as field 3 says.
pub(crate) fn at_once<W: Write>(
    out: &mut W,
    line: &[u8],
    m: &[u8],
    lent: Lent<'_>,
) -> io::Result<()> {
    let answer = one_shot(m, lent.table, front(lent.masks, number_at(line, 3)));
    let first = answer.ok().and_then(|d| d.first);
    writeln!(out, "{}, {}", Said(answer), Said(first))
}
