// The hasher of one message, once for each way to update it.
ghost use Rattle.std.specs.Prelude.{◌≡◌};
ghost use Rattle.short_run.specs.Ways.{ways_new};

use flags::Flags;
use hasher::Hasher;
use std::fmt;

// Lanes that are lent as the bench, and the one that calls name.
pub const LANES: usize = 3;

pub const LANE: usize = 1;

// By value, in place, and on a lane of a bench.
#[derive(Clone, Copy)]
pub struct Ways {
    pub value: Hasher,
    pub place: Hasher,
    pub lanes: [Hasher; 17],
}

// New hashers.
pub(crate) fn ways_new(flags: Flags) -> Ways
    ensures { result ≡ ways_new flags }
{
    let h = Hasher::new(flags);
    Ways {
        value: h,
        place: h,
        lanes: [h; 17],
    }
}

// What is seen of a hasher that comes back. Its words and its pending bytes are seen by the digest of a later finish.
#[derive(Clone, Copy)]
pub struct Counts(pub Hasher);

impl fmt::Display for Counts {
    fn fmt<W: fmt::Write>(&self, f: &mut fmt::Formatter<W>) -> fmt::Result {
        let h = self.0;
        let marked = if h.mark { "marked" } else { "unmarked" };
        write!(f, "fill {}, blocks {}, {marked}", h.fill, h.blocks)
    }
}
