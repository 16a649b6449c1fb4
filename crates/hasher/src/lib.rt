// The hasher: what it holds between the pieces of a message, when it is well formed, and its reset.
#![tactic(auto)]

ghost use Rattle.std.specs.Prelude.{◌≡◌};
ghost use Rattle.stream.specs.Fold.{mark_fits};
ghost use Rattle.hasher.specs.Hasher.{all_zero, well_formed, chain_of, hasher_with, fresh_of, hasher_handed, reset_of};

use flags::Flags;
use refusal::Refusal;
use step::{five_of, regs_of};
use stream::{Chain, FirstMark};
use table::MOST_RECORDS;

// The largest block count.
pub const MOST_BLOCKS: u64 = 0x7FFFFFFFFFFFFF;

#[derive(Clone, Copy, Debug, PartialEq, Eq)]
pub struct Hasher {
    pub words: [u32; 5],
    // The bytes of the block that is not full yet, with zeros behind them.
    pub pending: [u8; 64],
    pub fill: usize,
    pub blocks: u64,
    pub flags: Flags,
    pub mark: bool,
    // Where the mark was first made; zeros without one.
    pub first: FirstMark,
}

impl Hasher {
    // A hasher at the start of a message.
    pub fn new(flags: Flags) -> Hasher
        ensures { result ≡ fresh_of flags }
    {
        Hasher {
            words: [0x67452301, 0xEFCDAB89, 0x98BADCFE, 0x10325476, 0xC3D2E1F0],
            pending: [0u8; 64],
            fill: 0,
            blocks: 0,
            flags,
            mark: false,
            first: FirstMark { block: 0, place: 0 },
        }
    }

    // A hasher that has come to a chain, with so many pending bytes. Every hasher that moves on is made here.
    pub fn at(flags: Flags, c: Chain, pending: [u8; 64], fill: usize) -> Hasher
        ensures { result ≡ hasher_with flags c pending fill }
    {
        Hasher {
            words: five_of(c.words),
            pending,
            fill,
            blocks: c.blocks,
            flags,
            mark: c.mark,
            first: c.first,
        }
    }

    // The chain that it has come to.
    pub fn chain(self) -> Chain
        ensures { result ≡ chain_of self }
    {
        Chain {
            words: regs_of(self.words),
            mark: self.mark,
            first: self.first,
            blocks: self.blocks,
        }
    }
}

// Whether every byte is 0. All are looked at: with no way out of the loop the compiler takes many at a time, and behind the pending
// bytes of a hasher that a call made all are 0.
#[tactic(auto, using(crate::proofs::Zeros::zero_turn))]
fn all_zero(bytes: &[u8]) -> bool
    ensures { result ≡ all_zero bytes.now }
{
    let mut seen = 0;
    for byte in bytes {
        seen |= *byte;
    }
    seen == 0
}

// Whether a mark fits where it was first made, as far as a hasher shows it.
#[tactic(auto, unfolding(stream::specs::Fold::mark_fits))]
fn mark_fits(detect: bool, mark: bool, first: FirstMark, blocks: u64) -> bool
    ensures { result ≡ mark_fits detect mark first blocks }
{
    if mark {
        detect && first.block < blocks && first.place < MOST_RECORDS
    } else {
        first.block == 0 && first.place == 0
    }
}

// Whether a hasher is well formed. No call makes one that is not.
#[tactic(auto, unfolding(crate::specs::Hasher::well_formed))]
pub fn well_formed(h: Hasher) -> bool
    ensures { result ≡ well_formed h }
{
    h.fill <= 63
        && h.blocks <= MOST_BLOCKS
        && all_zero(&h.pending[h.fill..])
        && mark_fits(h.flags.detect, h.mark, h.first, h.blocks)
}

// Everything but the flags as at the start.
#[tactic(auto, unfolding(crate::specs::Hasher::reset_of))]
pub fn reset(h: Hasher) -> Result<Hasher, Refusal>
    ensures { result ≡ hasher_handed (reset_of h) }
{
    if !well_formed(h) {
        return Err(Refusal::HasherForm);
    }
    Ok(Hasher::new(h.flags))
}
