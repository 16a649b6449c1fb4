// The sibling of a block: its schedule, and its compression worked out from a state inside.
#![tactic(auto)]

ghost use Rattle.std.specs.Prelude.{◌≡◌, ◌≤◌, length};
ghost use Rattle.sibling.specs.Sibling.{sibling_schedule, recompressed};

use step::{Regs, add_regs, steps, undos};

// Where a compression started and where it ended.
#[derive(Clone, Copy, Debug, PartialEq, Eq)]
pub struct Ends {
    pub start: Regs,
    pub out: Regs,
}

// The sibling's schedule, for a vector's difference words dm.
pub fn sibling_schedule(w: &[u32; 80], dm: &[u32]) -> [u32; 80]
    requires { length dm.now ≡ 80 }
    ensures { result ≡ sibling_schedule w.now dm.now }
{
    let mut v = [0u32; 80];
    for t in 0..80 {
        v[t] = w[t] ^ dm[t];
    }
    v
}

// The compression over the schedule w that has the state s after its first N steps: back to the start and on to the end, each
// round by itself, with ends that are known where N is.
fn recompress<const N: usize>(w: &[u32; 80], s: Regs) -> Ends
    requires { (40 ≤ N) × (N ≤ 80) }
    ensures { result ≡ recompressed w.now N s }
{
    let (low, high) = (N.min(60), N.max(60));
    let s60 = undos(60, high, s, w);
    let s40 = undos(40, low, s60, w);
    let s20 = undos(20, 40, s40, w);
    let start = undos(0, 20, s20, w);
    let end = steps(high, 80, steps(N, high, s, w), w);
    Ends {
        start,
        out: add_regs(start, end),
    }
}

// The compression over the schedule w that has the state s after steps 0 to 57.
pub fn recompress_fast_58(w: &[u32; 80], s: Regs) -> Ends
    ensures { result ≡ recompressed w.now 58 s }
{
    recompress::<58>(w, s)
}

// The compression over the schedule w that has the state s after steps 0 to 64.
pub fn recompress_fast_65(w: &[u32; 80], s: Regs) -> Ends
    ensures { result ≡ recompressed w.now 65 s }
{
    recompress::<65>(w, s)
}
