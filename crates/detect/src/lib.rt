// One block with collision detection: compressed, searched for a vector that marks it, and mitigated; and the one-block entry.
#![tactic(auto)]

ghost use Rattle.std.specs.Prelude.{◌≡◌, ◌&&◌};
ghost use Rattle.word.specs.Choice.{pick};
ghost use Rattle.block.specs.Compress.{states_of};
ghost use Rattle.conditions.specs.Good.{GoodConditions};
ghost use Rattle.search.specs.Marks.{found_in};
ghost use Rattle.detect.specs.Detect.{twice_more, selection_of, answer_of, one_block_of, block_handed};

use block::{States, compression_states, compression_w};
use conditions::surviving;
use refusal::Refusal;
use search::{Compressed, Found};
use step::Regs;
use table::table_fault;

// How a marked block is dealt with, and what marks one.
#[derive(Clone, Copy, Debug, PartialEq, Eq)]
pub struct Mode {
    // The output of a marked block is compressed twice more.
    pub mitigate: bool,
    // A sibling that starts where the block starts marks it too.
    pub reduced: bool,
}

// What compressing a block with detection gives.
#[derive(Clone, Copy, Debug, PartialEq, Eq)]
pub struct Answer {
    pub words: Regs,
    pub found: Found,
}

// What the one-block entry gives.
#[derive(Clone, Copy, Debug, PartialEq, Eq)]
pub struct OneBlock {
    pub words: [u32; 5],
    pub found: Found,
}

// The chaining words of a block: under mitigation a marked one is compressed twice more with the same schedule.
fn mitigated(mark: bool, mitigate: bool, out: Regs, w: &[u32; 80]) -> Regs
    ensures { result ≡ pick (mark && mitigate) (twice_more out w.now) out }
{
    if mark && mitigate {
        compression_w(compression_w(out, w), w)
    } else {
        out
    }
}

// What the search finds among the selected vectors. Where conditions select, most blocks have none left, and a walk through the
// whole table would cost them more than a fifth of their time. Only a block that is searched is put together for it.
fn found_among(
    start: Regs,
    schedule: &[u32; 80],
    states: States,
    reduced: bool,
    table: &[u32],
    selected: u32,
) -> Found
    requires { states ≡ states_of start schedule.now }
    ensures { result ≡ found_in reduced table.now start schedule.now selected }
{
    if selected == 0 {
        return Found { by: None, tried: 0 };
    }
    let block = Compressed {
        start,
        schedule,
        states,
    };
    block.search(reduced, table, selected)
}

// One block compressed with detection, and tried with those vectors of the mask that survive the conditions.
pub fn compress(
    mode: Mode,
    table: &[u32],
    conditions: &[u32],
    h: Regs,
    block: &[u8; 64],
    mask: u32,
) -> Answer
    requires { GoodConditions conditions.now }
    ensures { result ≡ answer_of mode table.now h block.now (selection_of conditions.now block.now mask) }
{
    let mut w = [0u32; 80];
    let states = compression_states(h, block, &mut w);
    let selected = mask & surviving(&w, conditions);
    let found = found_among(h, &w, states, mode.reduced, table, selected);
    Answer {
        words: mitigated(found.by.is_some(), mode.mitigate, states.out, &w),
        found,
    }
}

// The one-block entry: it knows no conditions.
#[tactic(auto, using(crate::proofs::Selection::one_block_answered), unfolding(crate::specs::Detect::one_block_of))]
pub fn one_block(
    words: [u32; 5],
    block: &[u8],
    table: &[u32],
    mask: u32,
    mode: Mode,
) -> Result<OneBlock, Refusal>
    ensures { result ≡ block_handed (one_block_of words block.now table.now mask mode) }
{
    let block = block.as_array::<64>().ok_or(Refusal::Size)?;
    table_fault(table)?;
    let answer = compress(mode, table, &[], words.into(), block, mask);
    Ok(OneBlock {
        words: answer.words.into(),
        found: answer.found,
    })
}
