// The blocks of a stream, one after the other, with detection as the flags say.
#![tactic(auto)]

ghost use Rattle.std.specs.Prelude.{◌≡◌, ◌+◌, ◌/◌, ◌^◌, ◌<◌, length, get_or};
ghost use Rattle.conditions.specs.Good.{GoodConditions};
ghost use Rattle.loan.specs.Loan.{loan_in, conditions_for};
ghost use Rattle.stream.specs.Fold.{all_bits, first_after, checked_of, chained, folded};

use detect::{Mode, compress};
use fips::hash_blocks;
use flags::Flags;
use loan::Lent;
use search::Found;
use step::Regs;

// Which block was the first to be marked, from 0, and the place of the vector that marked it; zeros where none was.
#[derive(Clone, Copy, Debug, PartialEq, Eq)]
pub struct FirstMark {
    pub block: u64,
    pub place: usize,
}

// What stands between two blocks: the chaining words, whether a block was marked and which one first, and how many blocks there were.
#[derive(Clone, Copy, Debug, PartialEq, Eq)]
pub struct Chain {
    pub words: Regs,
    pub mark: bool,
    pub first: FirstMark,
    pub blocks: u64,
}

// The mask of block i: every bit where none is lent.
fn mask_at(masks: &[u32], i: usize) -> u32
    ensures { result ≡ get_or masks.now i all_bits }
{
    masks.get(i).copied().unwrap_or(0xFFFFFFFF)
}

// The first mark after one block more: it stays, and a marked block gives one only where none was before.
fn first_after(c: Chain, found: Found) -> FirstMark
    ensures { result ≡ first_after c found }
{
    if c.mark {
        return c.first;
    }
    match found.by {
        Some(place) => FirstMark {
            block: c.blocks,
            place,
        },
        None => c.first,
    }
}

// One block with detection: a mark stays.
#[tactic(auto, unfolding(crate::specs::Fold::checked_of))]
fn checked(mode: Mode, c: Chain, block: &[u8; 64], mask: u32, lent: Lent<'_>) -> Chain
    requires good_conditions { GoodConditions lent.conditions.now }
    requires blocks_bound { c.blocks + 1 < 2 ^ 64 }
    ensures { result ≡ checked_of mode lent.entry.table.now lent.entry.conditions.now c block.now mask }
{
    let a = compress(mode, lent.table, lent.conditions, c.words, block, mask);
    let found = a.found;
    Chain {
        words: a.words,
        mark: c.mark || found.by.is_some(),
        first: first_after(c, found),
        blocks: c.blocks + 1,
    }
}

// The whole blocks of m, detection on, block i with mask i. All that is lent is looked at.
fn fold_checked(mode: Mode, start: Chain, m: &[u8], lent: Lent<'_>) -> Chain
    requires m_bound { start.blocks + length m.now / 64 < 2 ^ 64 }
    requires good_conditions { GoodConditions lent.conditions.now }
    ensures { result ≡ chained (checked_of mode lent.entry.table.now lent.entry.conditions.now) (length m.now / 64) start m.now lent.entry.masks.now }
{
    let (blocks, _) = m.as_chunks::<64>();
    let mut c = start;
    for (i, block) in blocks.iter().enumerate() {
        c = checked(mode, c, block, mask_at(lent.masks, i), lent);
    }
    c
}

// The whole blocks of m. Detection off has a loop of its own: one for both settings would cost a third more time.
#[tactic(auto, using(crate::proofs::Plain::chained_plain), unfolding(crate::specs::Fold::folded))]
pub fn fold_blocks(f: Flags, c: Chain, m: &[u8], lent: Lent<'_>) -> Chain
    requires m_bound { c.blocks + length m.now / 64 < 2 ^ 64 }
    requires good_conditions { GoodConditions (conditions_for f lent.conditions.now) }
    ensures { result ≡ folded f (loan_in lent.entry) c m.now }
{
    if f.detect {
        let mode = Mode {
            mitigate: f.mitigate,
            reduced: f.reduced,
        };
        let asked_for = Lent {
            table: lent.table,
            conditions: lent.conditions_for(f),
            masks: lent.looked_at(f),
        };
        return fold_checked(mode, c, m, asked_for);
    }
    Chain {
        words: hash_blocks(c.words, m),
        blocks: c.blocks + (m.len() / 64) as u64,
        ..c
    }
}
