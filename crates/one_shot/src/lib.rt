// A whole message in one call: the update and the finish of a new hasher.
#![tactic(auto)]

ghost use Rattle.std.specs.Prelude.{◌≡◌, []};
ghost use Rattle.loan.specs.Loan.{loan_of, loan_in};
ghost use Rattle.one_shot.specs.Whole.{whole_refusal, whole_handed, whole_of, digested};

use absorb::absorb;
use finish::{first_told, last_chain};
use fips::{digest, tail_blocks};
use flags::Flags;
use hasher::Hasher;
use loan::Lent;
use refusal::Refusal;
use stream::FirstMark;
use update::MOST_BYTES;
use verdict::{DIGEST_SIZE, Verdict, verdict_of};

// What the call gives.
#[derive(Clone, Copy, Debug, PartialEq, Eq)]
pub struct Digested {
    pub verdict: Verdict,
    pub digest: [u8; DIGEST_SIZE],
    // As a finish hands it out.
    pub first: Option<FirstMark>,
}

// What is refused of a message of n bytes.
#[tactic(auto, unfolding(crate::specs::Whole::whole_refusal))]
fn check_whole(flags: Flags, n: usize, lent: Lent<'_>) -> Result<(), Refusal>
    ensures { result ≡ whole_refusal flags n (loan_in lent.entry) }
{
    if MOST_BYTES < (n as u64) {
        return Err(Refusal::MessageLength);
    }
    lent.check(flags, n / 64 + tail_blocks(n % 64))
}

// A whole message, with any flags. Where masks are lent there is one for each block, padding included.
#[tactic(auto, unfolding(crate::specs::Whole::whole_of))]
pub fn whole(flags: Flags, bytes: &[u8], lent: Lent<'_>) -> Result<Digested, Refusal>
    ensures { result ≡ whole_handed (whole_of flags bytes.now (loan_in lent.entry)) }
{
    check_whole(flags, bytes.len(), lent)?;
    let h = absorb(Hasher::new(flags), bytes, lent);
    let c = last_chain(h, lent.later(bytes.len() / 64));
    let verdict = verdict_of(c.mark, flags.mitigate);
    Ok(Digested {
        verdict,
        digest: digest(c.words),
        first: first_told(verdict, c.first),
    })
}

// A whole message with the default flags, a mask for each block of it, padding included. It knows no conditions.
pub fn one_shot(bytes: &[u8], table: &[u32], masks: &[u32]) -> Result<Digested, Refusal>
    ensures { result ≡ whole_handed (digested bytes.now (loan_of table.now [] masks.now)) }
{
    let lent = Lent {
        table,
        conditions: &[],
        masks,
    };
    whole(Flags::new(), bytes, lent)
}
