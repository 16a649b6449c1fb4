// The hashers that calls are made on, and how many of them are lent. A call is made by value; one that is refused so hands back no
// hashers, and is made once more where they lie, so that what it leaves of them is seen.
ghost use Rattle.std.specs.Prelude.{◌≡◌, ◌≤◌};
ghost use Rattle.loan.specs.Loan.{loan_in};
ghost use Rattle.bench_by_value.specs.ByValue.{written_through};
ghost use Rattle.bench_run.specs.Row.{all_new, lent_of, seated_at, row_updated, row_finished, row_reset};

use bench::{LaneAnswer, lane_finish, lane_reset, lane_update};
use bench_by_value::{finish_through, reset_through, update_through};
use flags::Flags;
use hasher::Hasher;
use loan::Lent;
use refusal::Refusal;

// One more than a bench may have.
pub const SEATS: usize = 17;

// The first `count` hashers, or all of them, are lent as the bench.
#[derive(Clone, Copy)]
pub struct Row {
    pub count: usize,
    pub hashers: [Hasher; SEATS],
}

impl Row {
    // A row of new hashers, of which 16 are lent.
    pub(crate) fn of_new() -> Row
        ensures { result ≡ all_new }
    {
        Row {
            count: 16,
            hashers: [Hasher::new(Flags::new()); SEATS],
        }
    }

    // How many hashers are lent.
    fn lent(&self) -> usize
        ensures value { result ≡ lent_of self.now }
        ensures upper_bound { result ≤ 17 }
    {
        self.count.min(SEATS)
    }

    // Another hasher at a seat, and whether the row has the seat.
    pub(crate) fn seat(&mut self, at: usize, h: Hasher) -> bool
        ensures { self.new ≡ seated_at self.old at h }
    {
        if at < SEATS {
            self.hashers[at] = h;
            return true;
        }
        false
    }

    // A piece of a lane's message.
    pub(crate) fn update(
        &mut self,
        lane: usize,
        bytes: &[u8],
        lent: Lent<'_>,
    ) -> Result<(), Refusal>
        ensures { self.new ≡ row_updated self.old lane bytes.now (loan_in lent.entry) }
    {
        let count = self.lent();
        match update_through(self.hashers, count, lane, bytes, lent) {
            Ok(hashers) => {
                self.hashers = hashers;
                Ok(())
            }
            Err(refusal) => {
                let front = &mut self.hashers[..count];
                lane_update(front, lane, bytes, lent).or(Err(refusal))
            }
        }
    }

    // The digest of a lane's message written to a lent output, and the lane reset.
    pub(crate) fn finish(
        &mut self,
        lane: usize,
        out: &mut [u8],
        lent: Lent<'_>,
    ) -> Result<LaneAnswer, Refusal>
        ensures left { self.new ≡ row_finished self.old lane out.old (loan_in lent.entry) }
        ensures written { out.new ≡ written_through self.old.hashers (lent_of self.old) lane out.old (loan_in lent.entry) }
    {
        let count = self.lent();
        match finish_through(self.hashers, count, lane, out, lent) {
            Ok(finished) => {
                let hashers = finished.bench;
                self.hashers = hashers;
                Ok(LaneAnswer {
                    verdict: finished.verdict,
                    first: finished.first,
                })
            }
            Err(refusal) => {
                let front = &mut self.hashers[..count];
                lane_finish(front, lane, out, lent).or(Err(refusal))
            }
        }
    }

    // Everything on a lane but its flags as at the start.
    pub(crate) fn reset(&mut self, lane: usize) -> Result<(), Refusal>
        ensures { self.new ≡ row_reset self.old lane }
    {
        let count = self.lent();
        match reset_through(self.hashers, count, lane) {
            Ok(hashers) => {
                self.hashers = hashers;
                Ok(())
            }
            Err(refusal) => lane_reset(&mut self.hashers[..count], lane).or(Err(refusal)),
        }
    }
}
