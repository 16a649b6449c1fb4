// The work of an update: the whole blocks of a stream compressed, and the rest left pending.
#![tactic(auto)]

ghost use Rattle.std.specs.Prelude.{◌≡◌, ◌+◌, ◌/◌, ◌^◌, ◌<◌, length};
ghost use Rattle.conditions.specs.Good.{GoodConditions};
ghost use Rattle.loan.specs.Loan.{loan_in, conditions_for};
ghost use Rattle.absorb.specs.Absorb.{advanced, absorbed};
ghost use Rattle.absorb.specs.Ready.{Ready};

use flags::Flags;
use hasher::Hasher;
use loan::Lent;
use octets::store;
use stream::{Chain, fold_blocks};

// The whole blocks of s compressed straight from it, from the chain c on, and the rest left pending.
#[tactic(auto, unfolding(crate::specs::Absorb::advanced))]
fn advance(flags: Flags, c: Chain, s: &[u8], lent: Lent<'_>) -> Hasher
    requires s_bound { c.blocks + length s.now / 64 < 2 ^ 64 }
    requires good_conditions { GoodConditions (conditions_for flags lent.conditions.now) }
    ensures { result ≡ advanced flags (loan_in lent.entry) c s.now }
{
    let e = fold_blocks(flags, c, s, lent);
    let rest = &s[64 * (s.len() / 64)..];
    let mut pending = [0u8; 64];
    store(&mut pending, 0, rest, rest.len());
    Hasher::at(flags, e, pending, rest.len())
}

// The work of an update that is not refused. Only a partial block goes through the pending bytes.
pub fn absorb(h: Hasher, bytes: &[u8], lent: Lent<'_>) -> Hasher
    requires { Ready h bytes.now lent.conditions.now }
    ensures { result ≡ absorbed h bytes.now (loan_in lent.entry) }
{
    let fill = h.fill;
    let mut pending = h.pending;
    if bytes.len() < 64 - fill {
        let end = fill + bytes.len();
        store(&mut pending, fill, bytes, bytes.len());
        return Hasher::at(h.flags, h.chain(), pending, end);
    }
    let c = h.chain();
    if fill == 0 {
        return advance(h.flags, c, bytes, lent);
    }
    let (front, rest) = bytes.split_at(64 - fill);
    store(&mut pending, fill, front, front.len());
    let filled = fold_blocks(h.flags, c, &pending, lent);
    advance(h.flags, filled, rest, lent.later(1))
}
