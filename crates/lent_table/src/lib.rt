// The calls on a lent table that have no hasher: one block, a whole message in one call, and the checks of a table of vectors
// and of one of conditions.
#![tactic(auto)]

ghost use Rattle.std.specs.Prelude.{◌≡◌, [], ◌∷◌, length};
ghost use Rattle.verdict.specs.Verdict.{digest_size};
ghost use Rattle.loan.specs.Loan.{loan_of};
ghost use Rattle.answers.specs.Answers.{left};
ghost use Rattle.lent_table.specs.LentTable.{block_call, conditions_call, digest_told, fault_call, one_shot_call, table_call};

use answers::{BROKEN_AGREEMENT, leave_block, say, say_outcome};
use conditions::condition_fault;
use detect::{Mode, one_block};
use one_shot::{Digested, one_shot};
use refusal::Refusal;
use table::table_fault;
use verdict::DIGEST_SIZE;

// One block.
#[tactic(auto, using(crate::proofs::Calls::block_left_lem), unfolding(crate::specs::LentTable::block_call))]
pub fn one_block_lent(
    words: &[u32],
    block: &[u8],
    table: &[u32],
    mask: u32,
    mode: Mode,
    after: &mut [u32],
    answer: &mut [u64],
) -> u32
    ensures { left result (after.new ∷ answer.new ∷ []) ≡ block_call words.now block.now table.now mask mode after.old answer.old }
{
    if after.len() != 5 || answer.len() != 4 {
        return BROKEN_AGREEMENT;
    }
    let Ok(words) = words.try_into() else {
        return BROKEN_AGREEMENT;
    };
    leave_block(after, answer, one_block(words, block, table, mask, mode))
}

// What the one-shot form leaves: the digest, where it is not refused, and an answer.
fn leave_digest(digest: &mut [u8], answer: &mut [u64], digested: Result<Digested, Refusal>) -> u32
    requires digest { length digest.old ≡ digest_size }
    requires answer { length answer.old ≡ 4 }
    ensures { left result (digest.new ∷ answer.new ∷ []) ≡ digest_told digested digest.old }
{
    if let Ok(d) = digested {
        digest.copy_from_slice(&d.digest);
    }
    say_outcome(answer, digested.map(|d| (d.verdict, d.first)))
}

// A whole message with the default flags, a mask for each block of it, padding included. It knows no conditions.
#[tactic(auto, using(crate::proofs::Calls::digest_left_lem), unfolding(crate::specs::LentTable::one_shot_call))]
pub fn one_shot_lent(
    bytes: &[u8],
    digest: &mut [u8],
    table: &[u32],
    masks: &[u32],
    answer: &mut [u64],
) -> u32
    ensures { left result (digest.new ∷ answer.new ∷ []) ≡ one_shot_call bytes.now digest.old (loan_of table.now [] masks.now) answer.old }
{
    if digest.len() != DIGEST_SIZE || answer.len() != 4 {
        return BROKEN_AGREEMENT;
    }
    leave_digest(digest, answer, one_shot(bytes, table, masks))
}

// What is wrong with what is lent, said in an answer.
#[tactic(auto, unfolding(crate::specs::LentTable::fault_call))]
fn say_fault(answer: &mut [u64], checked: Result<(), Refusal>) -> u32
    ensures { left result (answer.new ∷ []) ≡ fault_call checked answer.old }
{
    if answer.len() != 2 {
        return BROKEN_AGREEMENT;
    }
    say(answer, 0, checked)
}

// What is wrong with a table.
pub fn table_fault_lent(table: &[u32], answer: &mut [u64]) -> u32
    ensures { left result (answer.new ∷ []) ≡ table_call table.now answer.old }
{
    say_fault(answer, table_fault(table))
}

// What is wrong with a table of conditions.
pub fn condition_fault_lent(conditions: &[u32], answer: &mut [u64]) -> u32
    ensures { left result (answer.new ∷ []) ≡ conditions_call conditions.now answer.old }
{
    say_fault(answer, condition_fault(conditions))
}
