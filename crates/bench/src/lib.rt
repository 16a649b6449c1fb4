// A bench of hashers, lent as one slice; a call names its lane. Each call is thin: the by-value call does the work.
#![tactic(auto)]

ghost use Rattle.std.specs.Prelude.{◌≡◌, ◌<◌, ◌≤◌, OnOk};
ghost use Rattle.loan.specs.Loan.{loan_in};
ghost use Rattle.lane.specs.Lane.{most_lanes};
ghost use Rattle.bench.specs.Bench.{lane_check, lane_update_refusal, lane_updated, lane_handed, lane_answer, lane_finished, lane_written, lane_reset_refusal, lane_reset};

use finish::finish_and_reset;
use hasher::{Hasher, reset};
use lane::has_lane;
use loan::Lent;
use refusal::Refusal;
use stream::FirstMark;
use update::update;
use verdict::Verdict;

// What a lane's finish answers beside the bytes that it writes.
#[derive(Clone, Copy, Debug, PartialEq, Eq)]
pub struct LaneAnswer {
    pub verdict: Verdict,
    // The first marked block of the lane's message, padding counted, and the place of the vector that marked it; none where the
    // verdict is ok.
    pub first: Option<FirstMark>,
}

// Whether a bench of so many hashers has the lane.
#[tactic(auto, unfolding(lane::specs::Lane::has_lane))]
fn check_lane(count: usize, lane: usize) -> Result<(), Refusal>
    ensures given { result ≡ lane_check count lane }
    ensures seated { OnOk result ((lane < count) × (count ≤ most_lanes)) }
{
    if has_lane(count, lane) {
        Ok(())
    } else {
        Err(Refusal::NoLane)
    }
}

// A piece of the message of one lane.
#[tactic(auto, using(crate::proofs::OnBench::on_bench), unfolding(crate::specs::Bench::on_lane, update::specs::Update::updated))]
pub fn lane_update(
    bench: &mut [Hasher],
    lane: usize,
    bytes: &[u8],
    lent: Lent<'_>,
) -> Result<(), Refusal>
    ensures left { bench.new ≡ lane_updated bench.old lane bytes.now (loan_in lent.entry) }
    ensures given { result ≡ lane_update_refusal bench.old lane bytes.now (loan_in lent.entry) }
{
    check_lane(bench.len(), lane)?;
    bench[lane] = update(bench[lane], bytes, lent)?;
    Ok(())
}

// The digest of one lane's message written to a lent output, and the lane reset.
#[tactic(auto, using(crate::proofs::OnBench::on_bench), unfolding(crate::specs::Bench::on_lane, finish::specs::Finish::finished_reset, finish::specs::Finish::written_out))]
pub fn lane_finish(
    bench: &mut [Hasher],
    lane: usize,
    out: &mut [u8],
    lent: Lent<'_>,
) -> Result<LaneAnswer, Refusal>
    ensures left { bench.new ≡ lane_finished bench.old lane out.old (loan_in lent.entry) }
    ensures written { out.new ≡ lane_written bench.old lane out.old (loan_in lent.entry) }
    ensures given { result ≡ lane_handed (lane_answer bench.old lane out.old (loan_in lent.entry)) }
{
    check_lane(bench.len(), lane)?;
    let f = finish_and_reset(bench[lane], out, lent)?;
    bench[lane] = f.hasher;
    Ok(LaneAnswer {
        verdict: f.verdict,
        first: f.first,
    })
}

// Everything on one lane but its flags as at the start.
#[tactic(auto, using(crate::proofs::OnBench::on_bench), unfolding(crate::specs::Bench::on_lane, hasher::specs::Hasher::reset_of))]
pub fn lane_reset(bench: &mut [Hasher], lane: usize) -> Result<(), Refusal>
    ensures left { bench.new ≡ lane_reset bench.old lane }
    ensures given { result ≡ lane_reset_refusal bench.old lane }
{
    check_lane(bench.len(), lane)?;
    bench[lane] = reset(bench[lane])?;
    Ok(())
}
