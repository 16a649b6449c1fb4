// The calls for programs in C and Rust, as include/purserumble.h declares them. A slice passes as a pointer and a length.
// Where a caller breaks the header's agreement on lengths, marks, flags and verdicts, a call returns 255 and changes
// nothing: the caller is told so instead of being trapped. Only what stands in this crate gets into the static
// library, so each call has its name here and its work in the crates below. C passes no struct of slices and no struct of
// settings: that is why the parameters are many and single here, and the crates below take them together.
#![tactic(auto)]

ghost use Rattle.std.specs.Prelude.{◌≡◌, [], ◌∷◌};
ghost use Rattle.loan.specs.Loan.{loan_of};
ghost use Rattle.answers.specs.Answers.{left};
ghost use Rattle.lent_hasher.specs.LentHasher.{new_call, update_call, reset_call};
ghost use Rattle.lent_finish.specs.LentFinish.{finish_call, finish_reset_call};
ghost use Rattle.lent_table.specs.LentTable.{block_call, one_shot_call, table_call, conditions_call};
ghost use Rattle.lent_sheet.specs.LentSheet.{lookup_call, compare_call};

use detect::Mode;
use layout::HasherSlices;
use lent_finish::{finish_and_reset_lent, finish_lent};
use lent_hasher::{new_lent, reset_lent, update_lent};
use lent_sheet::{compare_lent, lookup_lent};
use lent_table::{condition_fault_lent, one_block_lent, one_shot_lent, table_fault_lent};
use loan::Lent;

#[unsafe(no_mangle)]
pub extern "C" fn purserumble_one_block(
    words: &[u32],
    block: &[u8],
    table: &[u32],
    mask: u32,
    mitigate: bool,
    reduced: bool,
    after: &mut [u32],
    answer: &mut [u64],
) -> u32
    ensures { left result (after.new ∷ answer.new ∷ []) ≡ block_call words.now block.now table.now mask (record { mitigate = mitigate; reduced = reduced }) after.old answer.old }
{
    let mode = Mode { mitigate, reduced };
    one_block_lent(words, block, table, mask, mode, after, answer)
}

// Where a caller begins: a hasher of zeros is well formed too, but is no start of a message.
#[unsafe(no_mangle)]
pub extern "C" fn purserumble_new(
    flags: u64,
    words: &mut [u32],
    pending: &mut [u8],
    state: &mut [u64],
) -> u32
    ensures { left result (words.new ∷ pending.new ∷ state.new ∷ []) ≡ new_call flags words.old pending.old state.old }
{
    let mut slices = HasherSlices {
        words,
        pending,
        state,
    };
    new_lent(flags, &mut slices)
}

#[unsafe(no_mangle)]
pub extern "C" fn purserumble_update(
    words: &mut [u32],
    pending: &mut [u8],
    state: &mut [u64],
    bytes: &[u8],
    table: &[u32],
    conditions: &[u32],
    masks: &[u32],
    answer: &mut [u64],
) -> u32
    ensures { left result (words.new ∷ pending.new ∷ state.new ∷ answer.new ∷ []) ≡ update_call words.old pending.old state.old bytes.now (loan_of table.now conditions.now masks.now) answer.old }
{
    let mut slices = HasherSlices {
        words,
        pending,
        state,
    };
    let lent = Lent {
        table,
        conditions,
        masks,
    };
    update_lent(&mut slices, bytes, lent, answer)
}

#[unsafe(no_mangle)]
pub extern "C" fn purserumble_reset(
    words: &mut [u32],
    pending: &mut [u8],
    state: &mut [u64],
    answer: &mut [u64],
) -> u32
    ensures { left result (words.new ∷ pending.new ∷ state.new ∷ answer.new ∷ []) ≡ reset_call words.old pending.old state.old answer.old }
{
    let mut slices = HasherSlices {
        words,
        pending,
        state,
    };
    reset_lent(&mut slices, answer)
}

// The hasher is lent for reading only: a finish hands it back as given.
#[unsafe(no_mangle)]
pub extern "C" fn purserumble_finish(
    words: &[u32],
    pending: &[u8],
    state: &[u64],
    digest: &mut [u8],
    table: &[u32],
    conditions: &[u32],
    masks: &[u32],
    answer: &mut [u64],
) -> u32
    ensures { left result (digest.new ∷ answer.new ∷ []) ≡ finish_call words.now pending.now state.now digest.old (loan_of table.now conditions.now masks.now) answer.old }
{
    let lent = Lent {
        table,
        conditions,
        masks,
    };
    finish_lent(words, pending, state, digest, lent, answer)
}

#[unsafe(no_mangle)]
pub extern "C" fn purserumble_finish_and_reset(
    words: &mut [u32],
    pending: &mut [u8],
    state: &mut [u64],
    out: &mut [u8],
    table: &[u32],
    conditions: &[u32],
    masks: &[u32],
    answer: &mut [u64],
) -> u32
    ensures { left result (words.new ∷ pending.new ∷ state.new ∷ out.new ∷ answer.new ∷ []) ≡ finish_reset_call words.old pending.old state.old out.old (loan_of table.now conditions.now masks.now) answer.old }
{
    let mut slices = HasherSlices {
        words,
        pending,
        state,
    };
    let lent = Lent {
        table,
        conditions,
        masks,
    };
    finish_and_reset_lent(&mut slices, out, lent, answer)
}

#[unsafe(no_mangle)]
pub extern "C" fn purserumble_one_shot(
    bytes: &[u8],
    digest: &mut [u8],
    table: &[u32],
    masks: &[u32],
    answer: &mut [u64],
) -> u32
    ensures { left result (digest.new ∷ answer.new ∷ []) ≡ one_shot_call bytes.now digest.old (loan_of table.now [] masks.now) answer.old }
{
    one_shot_lent(bytes, digest, table, masks, answer)
}

#[unsafe(no_mangle)]
pub extern "C" fn purserumble_table_fault(table: &[u32], answer: &mut [u64]) -> u32
    ensures { left result (answer.new ∷ []) ≡ table_call table.now answer.old }
{
    table_fault_lent(table, answer)
}

#[unsafe(no_mangle)]
pub extern "C" fn purserumble_condition_fault(conditions: &[u32], answer: &mut [u64]) -> u32
    ensures { left result (answer.new ∷ []) ≡ conditions_call conditions.now answer.old }
{
    condition_fault_lent(conditions, answer)
}

// An exported function can hand back no part of a slice: it says where the part lies.
#[unsafe(no_mangle)]
pub extern "C" fn purserumble_lookup(sheet: &[u8], code: &[u8], part: &mut [u64]) -> u32
    ensures { left result (part.new ∷ []) ≡ lookup_call sheet.now code.now part.old }
{
    lookup_lent(sheet, code, part)
}

#[unsafe(no_mangle)]
pub extern "C" fn purserumble_compare(
    sheet: &[u8],
    code: &[u8],
    verdict: u32,
    digest: &[u8],
    answer: &mut [u64],
) -> u32
    ensures { left result (answer.new ∷ []) ≡ compare_call sheet.now code.now verdict digest.now answer.old }
{
    compare_lent(sheet, code, verdict, digest, answer)
}
