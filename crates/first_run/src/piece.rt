// A piece of a message, with the masks of the blocks that it fills.
ghost use Rattle.std.specs.Prelude.{◌≡◌, ◌≤◌, length, Result};
ghost use Rattle.refusal.specs.declared.Refusal.{Refusal};
ghost use Rattle.loan.specs.Loan.{loan_in};
ghost use Rattle.hasher.specs.Hasher.{hasher_handed};
ghost use Rattle.hasher.specs.declared.Hasher.{Hasher};
ghost use Rattle.update.specs.Update.{updated};
ghost use Rattle.first_run.specs.Piece.{loan_for, last_loan, piece_of};

use cases::front;
use fips::tail_blocks;
use hasher::Hasher;
use loan::Lent;
use refusal::Refusal;

// What is lent for the blocks that a message fills from one place to another.
fn lent_for(lent: Lent<'_>, from: usize, to: usize) -> Lent<'_>
    requires { from ≤ to }
    ensures { loan_in result ≡ loan_for (loan_in lent.entry) from to }
{
    let later = lent.later(from / 64);
    Lent {
        masks: front(later.masks, to / 64 - from / 64),
        ..later
    }
}

// What is lent for the last blocks of a message of n bytes.
pub(crate) fn last_lent(lent: Lent<'_>, n: usize) -> Lent<'_>
    ensures { loan_in result ≡ last_loan (loan_in lent.entry) n }
{
    let later = lent.later(n / 64);
    Lent {
        masks: front(later.masks, tail_blocks(n % 64)),
        ..later
    }
}

// The hasher after a piece, by either form of an update. Where that is refused the hasher is as it was.
pub(crate) fn piece<F: FnOnce(Hasher, &[u8], Lent<'_>) -> Result<Hasher, Refusal>>(
    update: F,
    h: Hasher,
    m: &[u8],
    from: usize,
    to: usize,
    lent: Lent<'_>,
) -> Hasher
    requires inside { (from ≤ to) × (to ≤ length m.now) }
    requires callable { F.IsAlwaysCallable update }
    requires updates { (g : Hasher) (bytes : _) (l : _) (r : Result Hasher Refusal) → F.post update g bytes l r → r ≡ hasher_handed (updated g bytes.now (loan_in l)) }
    ensures { result ≡ piece_of h m.now from to (loan_in lent.entry) }
{
    update(h, &m[from..to], lent_for(lent, from, to)).unwrap_or(h)
}
