// The lanes of a bench: which of them a call can name.
#![tactic(auto)]

ghost use Rattle.std.specs.Prelude.{◌≡◌};
ghost use Rattle.lane.specs.Lane.{has_lane};

// The most hashers on a bench.
pub const MOST_LANES: usize = 16;

// Whether a bench of so many hashers can be used and has the lane. An empty one has not even lane 0.
#[tactic(auto, unfolding(crate::specs::Lane::has_lane))]
pub fn has_lane(count: usize, lane: usize) -> bool
    ensures { result ≡ has_lane count lane }
{
    0 < count && count <= MOST_LANES && lane < count
}
