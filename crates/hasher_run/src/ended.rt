// A message given to a hasher, with the masks of its blocks lent to each call, and the ways to end it.
ghost use Rattle.std.specs.Prelude.{◌≡◌, ◌<◌, ◌≤◌};
ghost use Rattle.loan.specs.Loan.{loan_in};
ghost use Rattle.one_shot.specs.Whole.{blocks_of};
ghost use Rattle.hasher_run.specs.Cut.{loan_between, after_piece, after_reset, piece_end, in_pieces, finish_after, by_finish, by_finish_reset, at_once, sizes_of, way_of, end_by};

use cases::number_at;
use finish::{Finished, finish, finish_and_reset};
use fips::tail_blocks;
use hasher::{Hasher, reset};
use loan::Lent;
use one_shot::one_shot;
use refusal::Refusal;
use update::update;
use verdict::DIGEST_SIZE;

// The sizes of a message's pieces, in turn.
#[derive(Clone, Copy, Debug, PartialEq, Eq)]
pub struct Sizes {
    pub first: usize,
    pub second: usize,
}

impl Sizes {
    // Those of fields 6 and 7.
    pub(crate) fn of(line: &[u8]) -> Sizes
        ensures { result ≡ sizes_of line.now }
    {
        Sizes {
            first: number_at(line, 6),
            second: number_at(line, 7),
        }
    }
}

// The ways to end a message.
#[derive(Clone, Copy, Debug, PartialEq, Eq)]
pub enum Way {
    Finish,
    FinishReset,
    OneShot,
}

impl Way {
    // The way of a case: 0 a finish, 1 a finish-and-reset, else the one-shot form.
    pub(crate) fn of(number: usize) -> Way
        ensures { result ≡ way_of number }
    {
        match number {
            0 => Way::Finish,
            1 => Way::FinishReset,
            _ => Way::OneShot,
        }
    }
}

// Of what is lent for a message, that for the blocks from `from` to `to`: their masks, or all where there are not so many.
fn lent_between(lent: Lent<'_>, from: usize, to: usize) -> Lent<'_>
    ensures { loan_in result ≡ loan_between (loan_in lent.entry) from to }
{
    Lent {
        masks: lent.masks.get(from..to).unwrap_or(lent.masks),
        ..lent
    }
}

// How many blocks a message of n bytes makes, padding included.
fn blocks_of(n: usize) -> usize
    ensures { result ≡ blocks_of n }
{
    n / 64 + tail_blocks(n % 64)
}

// Where a piece of n bytes ends, at least one byte on and never past the end.
fn piece_end(at: usize, end: usize, n: usize) -> usize
    requires { at < end }
    ensures value { result ≡ piece_end at end n }
    ensures lower_bound { at < result }
    ensures upper_bound { result ≤ end }
{
    at + n.max(1).min(end - at)
}

// One piece. Where it is refused the hasher is as it was, and the digest will not be the message's.
fn after_piece(h: Hasher, bytes: &[u8], lent: Lent<'_>) -> Hasher
    ensures { result ≡ after_piece h bytes.now (loan_in lent.entry) }
{
    update(h, bytes, lent).unwrap_or(h)
}

// The hasher after a message in pieces, of the two sizes in turn. A `while`, as no method of std cuts a slice so, and the masks of
// a piece go by its place.
pub(crate) fn in_pieces(h: Hasher, m: &[u8], sizes: Sizes, lent: Lent<'_>) -> Hasher
    ensures { result ≡ in_pieces h m.now sizes.first sizes.second (loan_in lent.entry) }
{
    let mut g = h;
    let mut at = 0;
    let mut size = sizes.first;
    let mut other = sizes.second;
    while at < m.len() {
        let to = piece_end(at, m.len(), size);
        g = after_piece(g, &m[at..to], lent_between(lent, at / 64, to / 64));
        at = to;
        (size, other) = (other, size);
    }
    g
}

// The finish of a message of n bytes.
pub(crate) fn finish_after(h: Hasher, n: usize, lent: Lent<'_>) -> Result<Finished, Refusal>
    ensures { result ≡ finish_after h n (loan_in lent.entry) }
{
    finish(h, lent_between(lent, n / 64, blocks_of(n)))
}

// The reset of a hasher. Where it is refused the hasher is as it was.
pub(crate) fn after_reset(h: Hasher) -> Hasher
    ensures { result ≡ after_reset h }
{
    reset(h).unwrap_or(h)
}

// In pieces, a finish, and a reset.
#[tactic(auto, unfolding(crate::specs::Cut::by_finish))]
fn by_finish(h: Hasher, m: &[u8], sizes: Sizes, lent: Lent<'_>) -> Result<Finished, Refusal>
    ensures { result ≡ by_finish h m.now sizes.first sizes.second (loan_in lent.entry) }
{
    let finished = finish_after(in_pieces(h, m, sizes, lent), m.len(), lent)?;
    let digest = finished.digest;
    Ok(Finished {
        verdict: finished.verdict,
        digest,
        first: finished.first,
        hasher: after_reset(finished.hasher),
    })
}

// In one piece, and a finish-and-reset.
#[tactic(auto, unfolding(crate::specs::Cut::by_finish_reset))]
fn by_finish_reset(h: Hasher, m: &[u8], lent: Lent<'_>) -> Result<Finished, Refusal>
    ensures { result ≡ by_finish_reset h m.now (loan_in lent.entry) }
{
    let n = m.len();
    let g = after_piece(h, m, lent_between(lent, 0, n / 64));
    let mut digest = [0u8; DIGEST_SIZE];
    let finished = finish_and_reset(g, &mut digest, lent_between(lent, n / 64, blocks_of(n)))?;
    Ok(Finished {
        verdict: finished.verdict,
        digest,
        first: finished.first,
        hasher: finished.hasher,
    })
}

// By the one-shot form, which takes no hasher.
#[tactic(auto, unfolding(crate::specs::Cut::at_once))]
fn at_once(h: Hasher, m: &[u8], lent: Lent<'_>) -> Result<Finished, Refusal>
    ensures { result ≡ at_once h m.now (loan_in lent.entry) }
{
    let whole = lent_between(lent, 0, blocks_of(m.len()));
    let digested = one_shot(m, whole.table, whole.masks)?;
    let digest = digested.digest;
    Ok(Finished {
        verdict: digested.verdict,
        digest,
        first: digested.first,
        hasher: h,
    })
}

// A message by a way: what came of it, and the hasher for the next.
pub(crate) fn end_by(
    way: Way,
    h: Hasher,
    m: &[u8],
    sizes: Sizes,
    lent: Lent<'_>,
) -> Result<Finished, Refusal>
    ensures { result ≡ end_by way h m.now sizes.first sizes.second (loan_in lent.entry) }
{
    match way {
        Way::Finish => by_finish(h, m, sizes, lent),
        Way::FinishReset => by_finish_reset(h, m, lent),
        Way::OneShot => at_once(h, m, lent),
    }
}
