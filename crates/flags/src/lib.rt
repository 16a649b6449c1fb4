// The settings of a hasher: what the Rust's Builder holds.
#![tactic(auto)]

ghost use Rattle.std.specs.Prelude.{◌≡◌};
ghost use Rattle.flags.specs.Flags.{uses_masks, uses_conditions, defaults, with_detect, with_mitigate, with_masks, masks_of, conditions_of, with_reduced};

// Which vectors a block is tried with: all of them, those of the mask lent for it, or those that survive the lent conditions.
#[derive(Clone, Copy, Debug, PartialEq, Eq)]
pub enum Masks {
    All,
    Lent,
    Conditions,
}

// What the Rust's Builder holds.
#[derive(Clone, Copy, Debug, PartialEq, Eq)]
pub struct Flags {
    pub detect: bool,
    pub mitigate: bool,
    pub masks: Masks,
    pub reduced: bool,
}

impl Flags {
    // The Rust's defaults: detection, mitigation and masks on, reduced-round mode off.
    pub fn new() -> Flags
        ensures { result ≡ defaults }
    {
        Flags {
            detect: true,
            mitigate: true,
            masks: Masks::Lent,
            reduced: false,
        }
    }

    // Whether collisions are looked for at all.
    pub fn detect_collision(mut self, on: bool) -> Flags
        ensures { result ≡ with_detect self on }
    {
        self.detect = on;
        self
    }

    // Whether a marked block is mitigated.
    pub fn safe_hash(mut self, on: bool) -> Flags
        ensures { result ≡ with_mitigate self on }
    {
        self.mitigate = on;
        self
    }

    // Whether a block is tried only with the vectors of its mask.
    pub fn use_ubc(mut self, on: bool) -> Flags
        ensures { result ≡ with_masks self (masks_of on) }
    {
        self.masks = if on { Masks::Lent } else { Masks::All };
        self
    }

    // Whether a block is tried only with the vectors that survive the lent conditions.
    pub fn use_conditions(mut self, on: bool) -> Flags
        ensures { result ≡ with_masks self (conditions_of on) }
    {
        self.masks = if on { Masks::Conditions } else { Masks::All };
        self
    }

    // Whether a sibling that starts where the block starts marks it.
    pub fn reduced_round_collision(mut self, on: bool) -> Flags
        ensures { result ≡ with_reduced self on }
    {
        self.reduced = on;
        self
    }
}

// Whether the flags ask for lent masks.
pub fn uses_masks(f: Flags) -> bool
    ensures { result ≡ uses_masks f }
{
    f.detect && f.masks == Masks::Lent
}

// Whether the flags ask for lent conditions.
pub fn uses_conditions(f: Flags) -> bool
    ensures { result ≡ uses_conditions f }
{
    f.detect && f.masks == Masks::Conditions
}
