// An update: what it refuses of a piece of the message, and the piece taken.
#![tactic(auto)]

ghost use Rattle.std.specs.Prelude.{◌≡◌};
ghost use Rattle.loan.specs.Loan.{loan_in};
ghost use Rattle.hasher.specs.Hasher.{hasher_handed};
ghost use Rattle.update.specs.Update.{update_refusal, updated};

use absorb::absorb;
use hasher::{Hasher, well_formed};
use loan::Lent;
use refusal::Refusal;

// The longest message, in bytes.
pub const MOST_BYTES: u64 = 0x1FFFFFFFFFFFFFFF;

// What an update refuses.
#[tactic(auto, unfolding(crate::specs::Update::update_refusal, hasher::specs::Hasher::well_formed))]
fn check_update(h: Hasher, bytes: &[u8], lent: Lent<'_>) -> Result<(), Refusal>
    ensures { result ≡ update_refusal h bytes.now (loan_in lent.entry) }
{
    if !well_formed(h) {
        return Err(Refusal::HasherForm);
    }
    let before = h.blocks * 64 + (h.fill as u64);
    if MOST_BYTES - before < (bytes.len() as u64) {
        return Err(Refusal::MessageLength);
    }
    lent.check(h.flags, (h.fill + bytes.len()) / 64)
}

// A piece of the message. A hasher is copied: the caller's own stays as it was.
#[tactic(auto, unfolding(crate::specs::Update::updated))]
pub fn update(h: Hasher, bytes: &[u8], lent: Lent<'_>) -> Result<Hasher, Refusal>
    ensures { result ≡ hasher_handed (updated h bytes.now (loan_in lent.entry)) }
{
    check_update(h, bytes, lent)?;
    Ok(absorb(h, bytes, lent))
}
