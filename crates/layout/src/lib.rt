// How flags, verdicts and a hasher lie as numbers in the memory that a C caller lends: read from it where it is of the right form,
// and written to it. At the C border a kind is a number; a number that stands for none is turned away here.
#![tactic(auto)]

ghost use Rattle.std.specs.Prelude.{◌≡◌};
ghost use Rattle.layout.specs.Layout.{flags_number, flags_read, hasher_read, masks_read, masks_worth, verdict_number, verdict_read};

mod slices;

use flags::{Flags, Masks};
pub use slices::{HasherSlices, hasher_from};
use verdict::Verdict;

// What each setting is worth in a number of flags, as in the header.
const DETECT: u64 = 1;

const MITIGATE: u64 = 2;

const MASKS_LENT: u64 = 4;

const REDUCED: u64 = 8;

const CONDITIONS: u64 = 16;

// The masks setting that a number of flags has: masks and conditions are not both set.
#[tactic(auto, using(crate::proofs::Bits::bits))]
fn masks_from(x: u64) -> Option<Masks>
    ensures { result ≡ masks_read x }
{
    match (x & MASKS_LENT != 0, x & CONDITIONS != 0) {
        (false, false) => Some(Masks::All),
        (true, false) => Some(Masks::Lent),
        (false, true) => Some(Masks::Conditions),
        (true, true) => None,
    }
}

// The flags that a number stands for, a bit for each, where it stands for any: C passes no struct of flags. (A function, since
// the type and `TryFrom` are both of other crates; so with a verdict.)
#[tactic(auto, using(crate::proofs::Bits::bits), unfolding(crate::specs::Layout::flags_known, crate::specs::Layout::flags_in))]
pub fn flags_from(x: u64) -> Option<Flags>
    ensures { result ≡ flags_read x }
{
    if x > 31 {
        return None;
    }
    let masks = masks_from(x)?;
    Some(Flags {
        detect: x & DETECT != 0,
        mitigate: x & MITIGATE != 0,
        masks,
        reduced: x & REDUCED != 0,
    })
}

// What the masks setting is worth in a number of flags.
fn masks_worth(masks: Masks) -> u64
    ensures { result ≡ masks_worth masks }
{
    match masks {
        Masks::All => 0,
        Masks::Lent => MASKS_LENT,
        Masks::Conditions => CONDITIONS,
    }
}

// The number that stands for flags.
#[tactic(auto, unfolding(crate::specs::Layout::flags_number))]
pub fn flags_number(f: Flags) -> u64
    ensures { result ≡ flags_number f }
{
    u64::from(f.detect) * DETECT
        + u64::from(f.mitigate) * MITIGATE
        + masks_worth(f.masks)
        + u64::from(f.reduced) * REDUCED
}

// The number that stands for a verdict; 0 is left for none.
pub fn verdict_number(v: Verdict) -> u64
    ensures { result ≡ verdict_number v }
{
    match v {
        Verdict::Ok => 1,
        Verdict::Mitigated => 2,
        Verdict::Collision => 3,
    }
}

// The verdict that a number stands for, where it stands for one.
pub fn verdict_from(x: u32) -> Option<Verdict>
    ensures { result ≡ verdict_read x }
{
    match x {
        1 => Some(Verdict::Ok),
        2 => Some(Verdict::Mitigated),
        3 => Some(Verdict::Collision),
        _ => None,
    }
}
