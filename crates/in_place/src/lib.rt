// An update where the hasher lies, as the Rust's `Update::update` is. It is thin: the by-value update does the work.
#![tactic(auto)]

ghost use Rattle.std.specs.Prelude.{◌≡◌};
ghost use Rattle.loan.specs.Loan.{loan_in};
ghost use Rattle.hasher.specs.Hasher.{hasher_handed};
ghost use Rattle.update.specs.Update.{updated};
ghost use Rattle.in_place.specs.InPlace.{InPlace};

use hasher::Hasher;
use loan::Lent;
use refusal::Refusal;
use update::update;

// A piece of the message, and the hasher changed in place. On a refusal it stays as it was.
#[tactic(auto, unfolding(update::specs::Update::updated))]
pub fn update_in_place(h: &mut Hasher, bytes: &[u8], lent: Lent<'_>) -> Result<(), Refusal>
    ensures { InPlace h.old bytes.now (loan_in lent.entry) result h.new }
{
    *h = update(*h, bytes, lent)?;
    Ok(())
}

// The same by value: a local is lent to it. Programs call this one.
pub fn through(h: Hasher, bytes: &[u8], lent: Lent<'_>) -> Result<Hasher, Refusal>
    ensures { result ≡ hasher_handed (updated h bytes.now (loan_in lent.entry)) }
{
    let mut own = h;
    update_in_place(&mut own, bytes, lent)?;
    Ok(own)
}
