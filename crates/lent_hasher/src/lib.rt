// The calls on a hasher that lies in lent memory and goes on: new, update and reset.
#![tactic(auto)]

ghost use Rattle.std.specs.Prelude.{◌≡◌, [], ◌∷◌, ◌++◌};
ghost use Rattle.loan.specs.Loan.{loan_in};
ghost use Rattle.layout.specs.Layout.{SameSlices, slices_lent};
ghost use Rattle.answers.specs.Answers.{left};
ghost use Rattle.lent_hasher.specs.LentHasher.{new_call, update_call, reset_call};

use answers::{BROKEN_AGREEMENT, leave_updated};
use hasher::{Hasher, reset};
use layout::{HasherSlices, flags_from};
use loan::Lent;
use update::update;

// A hasher at the start of a message, with the flags of a number.
#[tactic(auto, unfolding(crate::specs::LentHasher::new_call))]
pub fn new_lent(flags: u64, slices: &mut HasherSlices<'_>) -> u32
    ensures same { SameSlices slices.old slices.new }
    ensures left { left result (slices_lent slices.new) ≡ new_call flags slices.old.words.now slices.old.pending.now slices.old.state.now }
{
    if !slices.has_lengths() {
        return BROKEN_AGREEMENT;
    }
    let Some(flags) = flags_from(flags) else {
        return BROKEN_AGREEMENT;
    };
    slices.put(Hasher::new(flags));
    0
}

// Bytes given to the hasher. It stands in its slices afterwards as the update leaves it, and the answer says what was refused.
#[tactic(auto, using(crate::proofs::Calls::update_left), unfolding(crate::specs::LentHasher::update_call))]
pub fn update_lent(
    slices: &mut HasherSlices<'_>,
    bytes: &[u8],
    lent: Lent<'_>,
    answer: &mut [u64],
) -> u32
    ensures same { SameSlices slices.old slices.new }
    ensures left { left result (slices_lent slices.new ++ answer.new ∷ []) ≡ update_call slices.old.words.now slices.old.pending.now slices.old.state.now bytes.now (loan_in lent.entry) answer.old }
{
    if answer.len() != 2 {
        return BROKEN_AGREEMENT;
    }
    let Some(h) = slices.hasher() else {
        return BROKEN_AGREEMENT;
    };
    leave_updated(slices, answer, update(h, bytes, lent))
}

// The hasher back at the start of a message, with its flags.
#[tactic(auto, using(crate::proofs::Calls::reset_left), unfolding(crate::specs::LentHasher::reset_call))]
pub fn reset_lent(slices: &mut HasherSlices<'_>, answer: &mut [u64]) -> u32
    ensures same { SameSlices slices.old slices.new }
    ensures left { left result (slices_lent slices.new ++ answer.new ∷ []) ≡ reset_call slices.old.words.now slices.old.pending.now slices.old.state.now answer.old }
{
    if answer.len() != 2 {
        return BROKEN_AGREEMENT;
    }
    let Some(h) = slices.hasher() else {
        return BROKEN_AGREEMENT;
    };
    leave_updated(slices, answer, reset(h))
}
