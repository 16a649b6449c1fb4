// The lane calls by value: of 17 hashers, one more than a bench may have, the first ones are lent as the bench, and all are
// handed back. Programs call these: no contract here speaks of a reference to a hasher.
#![tactic(auto)]

ghost use Rattle.std.specs.Prelude.{◌≡◌, ◌≤◌};
ghost use Rattle.loan.specs.Loan.{loan_in};
ghost use Rattle.bench_by_value.specs.ByValue.{bench_handed, bench_finish_handed, updated_through, finished_through, written_through, reset_through};

use bench::{lane_finish, lane_reset, lane_update};
use hasher::Hasher;
use loan::Lent;
use refusal::Refusal;
use stream::FirstMark;
use verdict::Verdict;

// What a lane's finish gave, and all hashers afterwards.
#[derive(Clone, Copy, Debug, PartialEq, Eq)]
pub struct BenchFinished {
    pub verdict: Verdict,
    pub first: Option<FirstMark>,
    pub bench: [Hasher; 17],
}

// A piece of the message of one lane, on the bench of the first `count` hashers.
pub fn update_through(
    mut bench: [Hasher; 17],
    count: usize,
    lane: usize,
    bytes: &[u8],
    lent: Lent<'_>,
) -> Result<[Hasher; 17], Refusal>
    requires { count ≤ 17 }
    ensures { result ≡ bench_handed (updated_through bench count lane bytes.now (loan_in lent.entry)) }
{
    lane_update(&mut bench[..count], lane, bytes, lent)?;
    Ok(bench)
}

// The digest of one lane's message written to a lent output, and the lane reset, on the bench of the first `count` hashers.
pub fn finish_through(
    mut bench: [Hasher; 17],
    count: usize,
    lane: usize,
    out: &mut [u8],
    lent: Lent<'_>,
) -> Result<BenchFinished, Refusal>
    requires { count ≤ 17 }
    ensures written { out.new ≡ written_through bench count lane out.old (loan_in lent.entry) }
    ensures given { result ≡ bench_finish_handed (finished_through bench count lane out.old (loan_in lent.entry)) }
{
    let a = lane_finish(&mut bench[..count], lane, out, lent)?;
    Ok(BenchFinished {
        verdict: a.verdict,
        first: a.first,
        bench,
    })
}

// Everything on one lane but its flags as at the start, on the bench of the first `count` hashers.
pub fn reset_through(
    mut bench: [Hasher; 17],
    count: usize,
    lane: usize,
) -> Result<[Hasher; 17], Refusal>
    requires { count ≤ 17 }
    ensures { result ≡ bench_handed (reset_through bench count lane) }
{
    lane_reset(&mut bench[..count], lane)?;
    Ok(bench)
}
