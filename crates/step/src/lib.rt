// One step of SHA-1, forward and back, and runs of steps over a schedule.
#![tactic(auto)]

ghost use Rattle.std.specs.Prelude.{◌≡◌, ◌-◌, ◌≤◌};
ghost use Rattle.step.specs.Step.{step_with, undo_with, step_at, undo_at, steps_of, undos_of, regs_of, five_of, add_regs, same_regs};

use word::{add, f1, f2, f3, f4, rotate_left, sub};

// The five working words, in the order of FIPS 180-4.
#[derive(Clone, Copy, Debug, PartialEq, Eq)]
pub struct Regs {
    pub a: u32,
    pub b: u32,
    pub c: u32,
    pub d: u32,
    pub e: u32,
}

// Five chaining words as registers.
pub fn regs_of(h: [u32; 5]) -> Regs
    ensures { result ≡ regs_of h }
{
    Regs::from(h)
}

// The registers as five chaining words.
pub fn five_of(s: Regs) -> [u32; 5]
    ensures { result ≡ five_of s }
{
    s.into()
}

// The sum that wraps, word by word.
pub fn add_regs(s: Regs, r: Regs) -> Regs
    ensures { result ≡ add_regs s r }
{
    Regs {
        a: add(s.a, r.a),
        b: add(s.b, r.b),
        c: add(s.c, r.c),
        d: add(s.d, r.d),
        e: add(s.e, r.e),
    }
}

// Whether all five words are the same.
pub fn same_regs(s: Regs, r: Regs) -> bool
    ensures { result ≡ same_regs s r }
{
    s == r
}

impl From<[u32; 5]> for Regs {
    ghost from_gives = { λ h s. s ≡ regs_of h };

    fn from(h: [u32; 5]) -> Regs {
        let [a, b, c, d, e] = h;
        Regs { a, b, c, d, e }
    }
}

impl From<Regs> for [u32; 5] {
    ghost from_gives = { λ s h. h ≡ five_of s };

    fn from(s: Regs) -> [u32; 5] {
        [s.a, s.b, s.c, s.d, s.e]
    }
}

// One step, where f is what the round function gives.
#[tactic(auto, unfolding(crate::specs::Step::step_with))]
fn step_with(s: Regs, f: u32, k: u32, w: u32) -> Regs
    ensures { result ≡ step_with f k s w }
{
    let sum = add(add(add(add(rotate_left(s.a, 5), f), s.e), k), w);
    Regs {
        a: sum,
        b: s.a,
        c: rotate_left(s.b, 30),
        d: s.c,
        e: s.d,
    }
}

// One step back, where f is what the round function gives.
#[tactic(auto, unfolding(crate::specs::Step::undo_with))]
fn undo_with(s: Regs, f: u32, k: u32, w: u32) -> Regs
    ensures { result ≡ undo_with f k s w }
{
    let sum = add(add(add(rotate_left(s.b, 5), f), k), w);
    Regs {
        a: s.b,
        b: rotate_left(s.c, 2),
        c: s.d,
        d: s.e,
        e: sub(s.a, sum),
    }
}

// Step t, whose round goes by t. The choice of the round stands here and in `undo` with a whole step in each branch: chosen
// once by a function that both call, with its f and k handed on, `compression_w` was slower by a twentieth.
#[tactic(auto, unfolding(crate::specs::Step::step_at, crate::specs::Step::f_at, crate::specs::Step::k_at))]
pub fn step(t: usize, s: Regs, w: u32) -> Regs
    ensures { result ≡ step_at t s w }
{
    if t < 20 {
        step_with(s, f1(s.b, s.c, s.d), 0x5A827999, w)
    } else if t < 40 {
        step_with(s, f2(s.b, s.c, s.d), 0x6ED9EBA1, w)
    } else if t < 60 {
        step_with(s, f3(s.b, s.c, s.d), 0x8F1BBCDC, w)
    } else {
        step_with(s, f4(s.b, s.c, s.d), 0xCA62C1D6, w)
    }
}

// Step t undone.
#[tactic(auto, unfolding(crate::specs::Step::undo_at, crate::specs::Step::f_at, crate::specs::Step::k_at))]
pub fn undo(t: usize, s: Regs, w: u32) -> Regs
    ensures { result ≡ undo_at t s w }
{
    let b = rotate_left(s.c, 2);
    if t < 20 {
        undo_with(s, f1(b, s.d, s.e), 0x5A827999, w)
    } else if t < 40 {
        undo_with(s, f2(b, s.d, s.e), 0x6ED9EBA1, w)
    } else if t < 60 {
        undo_with(s, f3(b, s.d, s.e), 0x8F1BBCDC, w)
    } else {
        undo_with(s, f4(b, s.d, s.e), 0xCA62C1D6, w)
    }
}

// The steps from..to over the schedule w. Called with both ends written out, so that the loop unrolls and the
// choice of the round falls away.
pub fn steps(from: usize, to: usize, start: Regs, w: &[u32; 80]) -> Regs
    requires { (from ≤ to) × (to ≤ 80) }
    ensures { result ≡ steps_of w.now from (to - from) start }
{
    let mut s = start;
    for t in from..to {
        s = step(t, s, w[t]);
    }
    s
}

// The steps from..to undone over the schedule w, the last first.
pub fn undos(from: usize, to: usize, end: Regs, w: &[u32; 80]) -> Regs
    requires { (from ≤ to) × (to ≤ 80) }
    ensures { result ≡ undos_of w.now from (to - from) end }
{
    let mut s = end;
    for t in (from..to).rev() {
        s = undo(t, s, w[t]);
    }
    s
}
