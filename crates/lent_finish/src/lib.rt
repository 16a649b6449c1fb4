// The two ways to end a message on a hasher that lies in lent memory: finish, and finish and reset.
#![tactic(auto)]

ghost use Rattle.std.specs.Prelude.{◌≡◌, [], ◌∷◌, ◌++◌};
ghost use Rattle.loan.specs.Loan.{loan_in};
ghost use Rattle.layout.specs.Layout.{SameSlices, slices_lent};
ghost use Rattle.answers.specs.Answers.{left};
ghost use Rattle.lent_finish.specs.LentFinish.{finish_call, finish_reset_call};

use answers::{BROKEN_AGREEMENT, leave_finish_reset, say_outcome};
use finish::finish_and_reset;
use layout::{HasherSlices, hasher_from};
use loan::Lent;

// The hasher is lent for reading only: a finish hands it back as given. Finish-and-reset is the one that knows the size of
// its output, and the reset hasher is let go.
#[tactic(auto, using(crate::proofs::Calls::finish_left), unfolding(crate::specs::LentFinish::finish_call))]
pub fn finish_lent(
    words: &[u32],
    pending: &[u8],
    state: &[u64],
    digest: &mut [u8],
    lent: Lent<'_>,
    answer: &mut [u64],
) -> u32
    ensures { left result (digest.new ∷ answer.new ∷ []) ≡ finish_call words.now pending.now state.now digest.old (loan_in lent.entry) answer.old }
{
    if answer.len() != 4 { // a digest of another size is refused, by 8
        return BROKEN_AGREEMENT;
    }
    let Some(h) = hasher_from(words, pending, state) else {
        return BROKEN_AGREEMENT;
    };
    let finished = finish_and_reset(h, digest, lent);
    say_outcome(answer, finished.map(|f| (f.verdict, f.first)))
}

// The digest written to the output, and the hasher back at the start of a message with its flags.
#[tactic(auto, using(crate::proofs::Calls::finish_reset_left), unfolding(crate::specs::LentFinish::finish_reset_call))]
pub fn finish_and_reset_lent(
    slices: &mut HasherSlices<'_>,
    out: &mut [u8],
    lent: Lent<'_>,
    answer: &mut [u64],
) -> u32
    ensures same { SameSlices slices.old slices.new }
    ensures left { left result (slices_lent slices.new ++ out.new ∷ answer.new ∷ []) ≡ finish_reset_call slices.old.words.now slices.old.pending.now slices.old.state.now out.old (loan_in lent.entry) answer.old }
{
    if answer.len() != 4 {
        return BROKEN_AGREEMENT;
    }
    let Some(h) = slices.hasher() else {
        return BROKEN_AGREEMENT;
    };
    leave_finish_reset(slices, answer, finish_and_reset(h, out, lent))
}
