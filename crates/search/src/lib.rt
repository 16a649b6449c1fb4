// The search for a vector that marks a block: those that the mask selects are tried in table order, and the first that marks it
// ends the search.
#![tactic(auto)]

ghost use Rattle.std.specs.Prelude.{◌≡◌};
ghost use Rattle.block.specs.Compress.{states_of};
ghost use Rattle.sibling.specs.Sibling.{recompressed};
ghost use Rattle.table.specs.Bits.{has_bit};
ghost use Rattle.table.specs.Table.{steps_before};
ghost use Rattle.search.specs.Marks.{state_kept, ends_by, marks_by, found_in};

use block::States;
use sibling::{Ends, recompress_fast_58, recompress_fast_65, sibling_schedule};
use step::{Regs, same_regs};
use table::{MASK_BITS, RECORD_WORDS, Testt, test_step};

// What a search found.
#[derive(Clone, Copy, Debug, PartialEq, Eq)]
pub struct Found {
    // The place of the record that marks the block.
    pub by: Option<usize>,
    // The selected records up to the marking one and with it, or all of them.
    pub tried: usize,
}

// A block as the search looks at it: where it started from, its schedule, and what its compression left.
#[derive(Clone, Copy)]
pub struct Compressed<'a> {
    pub start: Regs,
    pub schedule: &'a [u32; 80],
    pub states: States,
    ghost kept: { states ≡ states_of start schedule.now },
}

// Whether the mask has bit k.
#[tactic(auto, using(crate::proofs::Turns::past_the_end))]
fn has_bit(mask: u32, k: u32) -> bool
    ensures { result ≡ has_bit mask k }
{
    k < MASK_BITS && (mask >> k) % 2 == 1
}

// The sibling's compression from the state at the test step.
fn recompression_step(at: Testt, v: &[u32; 80], s: States) -> Ends
    ensures { result ≡ recompressed v.now (steps_before at) (state_kept at s) }
{
    match at {
        Testt::T58 => recompress_fast_58(v, s.s58),
        Testt::T65 => recompress_fast_65(v, s.s65),
    }
}

impl<'a> Compressed<'a> {
    // The block's sibling by a record.
    fn sibling_ends(self, record: &[u32; RECORD_WORDS]) -> Ends
        ensures { result ≡ ends_by self.entry.states self.entry.schedule.now record.now }
    {
        let v = sibling_schedule(self.schedule, &record[2..]);
        recompression_step(test_step(record[1]), &v, self.states)
    }

    // Whether a record marks the block: in reduced-round mode also by a sibling that starts where the block starts.
    fn is_marked_by(self, record: &[u32; RECORD_WORDS], reduced: bool) -> bool
        ensures { result ≡ marks_by reduced self.entry.start self.entry.schedule.now record.now }
    {
        let ends = self.sibling_ends(record);
        same_regs(ends.out, self.states.out) || (reduced && same_regs(ends.start, self.start))
    }

    // The first selected record that marks the block, and how many were tried.
    pub fn search(self, reduced: bool, table: &[u32], mask: u32) -> Found
        ensures { result ≡ found_in reduced table.now self.entry.start self.entry.schedule.now mask }
    {
        let (records, _) = table.as_chunks::<RECORD_WORDS>();
        let mut tried = 0;
        for (i, record) in records.iter().enumerate() {
            if has_bit(mask, record[0]) {
                tried += 1;
                if self.is_marked_by(record, reduced) {
                    return Found { by: Some(i), tried };
                }
            }
        }
        Found { by: None, tried }
    }
}
