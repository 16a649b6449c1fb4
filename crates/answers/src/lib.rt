// What a call answers: its number, and what it leaves in the slices that it may write.
#![tactic(auto)]

ghost use Rattle.std.specs.Prelude.{◌≡◌, [], ◌∷◌, ◌++◌, length};
ghost use Rattle.refusal.specs.Refusal.{number_of};
ghost use Rattle.finish.specs.Finish.{outcome_refusal};
ghost use Rattle.layout.specs.Layout.{SameSlices, slices_lent};
ghost use Rattle.answers.specs.Answers.{answer_pair, block_told, hasher_by, hasher_or, left, outcome_answer, told_by, told_first, told_outcome, updated_told};

use detect::OneBlock;
use finish::FinishedReset;
use hasher::Hasher;
use layout::{HasherSlices, verdict_number};
use refusal::{Refusal, number_of, place_of};
use stream::FirstMark;
use verdict::Verdict;

// The number where a caller breaks the header's agreement on lengths, marks, flags and verdicts: no other number is
// above 16. A call then changes nothing.
pub const BROKEN_AGREEMENT: u32 = 255;

// Two numbers into an answer: what the call says, and the place of the refused record. The refusal's number comes back.
pub fn say(answer: &mut [u64], says: u64, checked: Result<(), Refusal>) -> u32
    requires { length answer.old ≡ 2 }
    ensures number { result ≡ number_of checked }
    ensures said { answer.new ≡ answer_pair says checked }
{
    answer.copy_from_slice(&[says, place_of(checked) as u64]);
    number_of(checked)
}

// A verdict and where the first mark is, or a refusal, into an answer: zeros for what there is not. The refusal's number
// comes back.
pub fn say_outcome(answer: &mut [u64], told: Result<(Verdict, Option<FirstMark>), Refusal>) -> u32
    requires { length answer.old ≡ 4 }
    ensures number { result ≡ number_of (outcome_refusal (told_outcome told)) }
    ensures said { answer.new ≡ outcome_answer (told_outcome told) (told_first told) }
{
    match told {
        Ok((verdict, first)) => {
            let first = first.unwrap_or(FirstMark { block: 0, place: 0 });
            answer.copy_from_slice(&[verdict_number(verdict), 0, first.block, first.place as u64]);
            0
        }
        Err(refusal) => {
            answer.copy_from_slice(&[0, refusal.place() as u64, 0, 0]);
            refusal.number()
        }
    }
}

// What an update or a reset leaves: the hasher, where it is not refused, and an answer.
pub fn leave_updated(
    slices: &mut HasherSlices<'_>,
    answer: &mut [u64],
    updated: Result<Hasher, Refusal>,
) -> u32
    requires words { length slices.old.words.now ≡ 5 }
    requires pending { length slices.old.pending.now ≡ 64 }
    requires state { length slices.old.state.now ≡ 6 }
    requires answer { length answer.old ≡ 2 }
    ensures same { SameSlices slices.old slices.new }
    ensures left { left result (slices_lent slices.new ++ answer.new ∷ []) ≡ updated_told updated (slices_lent slices.old) }
{
    if let Ok(h) = updated {
        slices.put(h);
    }
    say(answer, 0, updated.map(|_| ()))
}

// What one block leaves: the new words, where it is not refused; its mark, place, tried and the refused record's place.
pub fn leave_block(after: &mut [u32], answer: &mut [u64], given: Result<OneBlock, Refusal>) -> u32
    requires after { length after.old ≡ 5 }
    requires answer { length answer.old ≡ 4 }
    ensures { left result (after.new ∷ answer.new ∷ []) ≡ block_told given after.old }
{
    match given {
        Ok(block) => {
            let found = block.found;
            after.copy_from_slice(&block.words);
            answer.copy_from_slice(&[
                u64::from(found.by.is_some()),
                found.by.unwrap_or(0) as u64,
                found.tried as u64,
                0,
            ]);
            0
        }
        Err(refusal) => {
            answer.copy_from_slice(&[0, 0, 0, refusal.place() as u64]);
            refusal.number()
        }
    }
}

// What a finish-and-reset leaves beside its output: the hasher, where it is not refused, and an answer.
pub fn leave_finish_reset(
    slices: &mut HasherSlices<'_>,
    answer: &mut [u64],
    finished: Result<FinishedReset, Refusal>,
) -> u32
    requires words { length slices.old.words.now ≡ 5 }
    requires pending { length slices.old.pending.now ≡ 64 }
    requires state { length slices.old.state.now ≡ 6 }
    requires answer { length answer.old ≡ 4 }
    ensures same { SameSlices slices.old slices.new }
    ensures number { result ≡ number_of (outcome_refusal (told_outcome (told_by finished))) }
    ensures laid { slices_lent slices.new ≡ hasher_or (hasher_by finished) (slices_lent slices.old) }
    ensures said { answer.new ≡ outcome_answer (told_outcome (told_by finished)) (told_first (told_by finished)) }
{
    if let Ok(f) = finished {
        slices.put(f.hasher);
    }
    say_outcome(answer, finished.map(|f| (f.verdict, f.first)))
}
