// Finishing a message: the last blocks, the digest and the verdict.
#![tactic(auto)]

ghost use Rattle.std.specs.Prelude.{◌≡◌, true, length};
ghost use Rattle.conditions.specs.Good.{GoodConditions};
ghost use Rattle.loan.specs.Loan.{loan_in, conditions_for};
ghost use Rattle.hasher.specs.Hasher.{well_formed};
ghost use Rattle.finish.specs.Finish.{last_chain, first_told, finish_refusal, finish_handed, finished, reset_handed, finished_reset, written_out};

use fips::{digest, tail, tail_blocks};
use hasher::{Hasher, well_formed};
use loan::Lent;
use octets::store;
use refusal::Refusal;
use stream::{Chain, FirstMark, fold_blocks};
use verdict::{DIGEST_SIZE, Verdict, verdict_of};

// What a finish gives.
#[derive(Clone, Copy, Debug, PartialEq, Eq)]
pub struct Finished {
    pub verdict: Verdict,
    pub digest: [u8; DIGEST_SIZE],
    // The first marked block, padding counted, and the place of the vector that marked it; none where the verdict is ok.
    pub first: Option<FirstMark>,
    pub hasher: Hasher,
}

// What a finish-and-reset gives beside the bytes that it writes.
#[derive(Clone, Copy, Debug, PartialEq, Eq)]
pub struct FinishedReset {
    pub verdict: Verdict,
    pub first: Option<FirstMark>,
    pub hasher: Hasher,
}

// The chain after the last blocks.
#[tactic(auto, unfolding(crate::specs::Finish::last_chain, hasher::specs::Hasher::well_formed))]
pub fn last_chain(h: Hasher, lent: Lent<'_>) -> Chain
    requires h_value { well_formed h ≡ true }
    requires good_conditions { GoodConditions (conditions_for h.flags lent.conditions.now) }
    ensures { result ≡ last_chain h (loan_in lent.entry) }
{
    let last = tail(h.pending, h.fill, h.blocks * 64 + (h.fill as u64));
    let end = 64 * tail_blocks(h.fill);
    fold_blocks(h.flags, h.chain(), &last[..end], lent)
}

// What is told of the first mark beside a verdict: nothing beside ok.
pub fn first_told(verdict: Verdict, first: FirstMark) -> Option<FirstMark>
    ensures { result ≡ first_told verdict first }
{
    match verdict {
        Verdict::Ok => None,
        Verdict::Mitigated | Verdict::Collision => Some(first),
    }
}

// What a finish into an output of so many bytes refuses.
#[tactic(auto, unfolding(crate::specs::Finish::finish_refusal))]
fn check_finish(h: Hasher, size: usize, lent: Lent<'_>) -> Result<(), Refusal>
    ensures { result ≡ finish_refusal h size (loan_in lent.entry) }
{
    if !well_formed(h) {
        return Err(Refusal::HasherForm);
    }
    if size != DIGEST_SIZE {
        return Err(Refusal::Size);
    }
    lent.check(h.flags, tail_blocks(h.fill))
}

// The digest and the verdict; the hasher comes back as it was.
#[tactic(auto, unfolding(crate::specs::Finish::finished))]
pub fn finish(h: Hasher, lent: Lent<'_>) -> Result<Finished, Refusal>
    ensures { result ≡ finish_handed (finished h (loan_in lent.entry)) }
{
    check_finish(h, DIGEST_SIZE, lent)?;
    let c = last_chain(h, lent);
    let verdict = verdict_of(c.mark, h.flags.mitigate);
    Ok(Finished {
        verdict,
        digest: digest(c.words),
        first: first_told(verdict, c.first),
        hasher: h,
    })
}

// The digest written to a lent output, and the hasher reset. A refusal writes nothing.
#[tactic(auto, unfolding(crate::specs::Finish::finished_reset, crate::specs::Finish::written_out))]
pub fn finish_and_reset(h: Hasher, out: &mut [u8], lent: Lent<'_>) -> Result<FinishedReset, Refusal>
    ensures given { result ≡ reset_handed (finished_reset h (length out.old) (loan_in lent.entry)) }
    ensures written { out.new ≡ written_out h out.old (loan_in lent.entry) }
{
    check_finish(h, out.len(), lent)?;
    let c = last_chain(h, lent);
    let verdict = verdict_of(c.mark, h.flags.mitigate);
    store(out, 0, &digest(c.words), DIGEST_SIZE);
    Ok(FinishedReset {
        verdict,
        first: first_told(verdict, c.first),
        hasher: Hasher::new(h.flags),
    })
}
