// The compression of one block: plain, with the two states that detection needs, and over a schedule that is there
// already.
#![tactic(auto)]

ghost use Rattle.std.specs.Prelude.{◌≡◌, List, ℕ, ◌<◌, ◌≤◌, length};
ghost use Rattle.octets.specs.Octets.{be32_at};
ghost use Rattle.block.specs.Schedule.{words_of, schedule_of};
ghost use Rattle.block.specs.Compress.{over_schedule, compress_of, states_of};
ghost use Rattle.block.specs.Stage.{Stage, Onward};

use octets::be_word;
use step::{Regs, add_regs, step, steps};
use word::mix;

// What one compression leaves for detection, all in the order of FIPS 180-4.
#[derive(Clone, Copy, Debug, PartialEq, Eq)]
pub struct States {
    // After steps 0 to 57.
    pub s58: Regs,
    // After steps 0 to 64.
    pub s65: Regs,
    // The chaining words.
    pub out: Regs,
}

// Word i of a block.
fn word_at(block: &[u8; 64], i: usize) -> u32
    requires { i < 16 }
    ensures { result ≡ be32_at block.now i }
{
    let at = 4 * i;
    be_word(block[at], block[at + 1], block[at + 2], block[at + 3])
}

// Words from..to of the schedule read from the block, each stepped as soon as it is there: a schedule filled
// beforehand costs half as much time again.
fn begin(from: usize, to: usize, start: Regs, w: &mut [u32; 80], block: &[u8; 64]) -> Regs
    requires { (from ≤ to) × (to ≤ 16) }
    ensures { Onward (words_of block.now) from to w.old start w.new result }
{
    let mut s = start;
    for t in from..to {
        let x = word_at(block, t);
        w[t] = x;
        s = step(t, s, x);
    }
    s
}

// Words from..to of the schedule made by the rule, each stepped as soon as it is there. Runs of ten unroll; longer
// ones do not.
fn extend(from: usize, to: usize, start: Regs, w: &mut [u32; 80]) -> Regs
    requires { (16 ≤ from) × (from ≤ to) × (to ≤ 80) }
    ensures { (m : List ℕ) → Onward m from to w.old start w.new result }
{
    let mut s = start;
    for t in from..to {
        let x = mix(w[t - 3], w[t - 8], w[t - 14], w[t - 16]);
        w[t] = x;
        s = step(t, s, x);
    }
    s
}

// Steps 0 to 39 with the schedule kept. Only `compression_states` calls it: with a second caller it would not be
// inlined, and every block would pay for clearing the array and for passing it through memory.
fn first_forty(h: Regs, block: &[u8; 64], w: &mut [u32; 80]) -> Regs
    ensures { Stage (words_of block.now) h 40 w.new result }
{
    let s8 = begin(0, 8, h, w, block);
    let s16 = begin(8, 16, s8, w, block);
    let s20 = extend(16, 20, s16, w);
    let s30 = extend(20, 30, s20, w);
    extend(30, 40, s30, w)
}

// The chaining words after a block, for detection off.
pub fn compression_plain(h: Regs, block: &[u8; 64]) -> Regs
    ensures { result ≡ compress_of h block.now }
{
    let mut w = [0u32; 80];
    let s8 = begin(0, 8, h, &mut w, block);
    let s16 = begin(8, 16, s8, &mut w, block);
    let s20 = extend(16, 20, s16, &mut w);
    let s30 = extend(20, 30, s20, &mut w);
    let s40 = extend(30, 40, s30, &mut w);
    let s50 = extend(40, 50, s40, &mut w);
    let s60 = extend(50, 60, s50, &mut w);
    let s70 = extend(60, 70, s60, &mut w);
    let s80 = extend(70, 80, s70, &mut w);
    add_regs(h, s80)
}

// The chaining words after a block with the states 58 and 65, and the block's schedule written to w.
pub fn compression_states(h: Regs, block: &[u8; 64], w: &mut [u32; 80]) -> States
    ensures { (w.new ≡ schedule_of (words_of block.now)) × (result ≡ states_of h (schedule_of (words_of block.now))) }
{
    let s40 = first_forty(h, block, w);
    let s50 = extend(40, 50, s40, w);
    let s58 = extend(50, 58, s50, w);
    let s60 = extend(58, 60, s58, w);
    let s65 = extend(60, 65, s60, w);
    let s75 = extend(65, 75, s65, w);
    let s80 = extend(75, 80, s75, w);
    States {
        s58,
        s65,
        out: add_regs(h, s80),
    }
}

// The chaining words after eighty steps over a schedule that is there already.
pub fn compression_w(h: Regs, w: &[u32; 80]) -> Regs
    ensures { result ≡ over_schedule h w.now }
{
    let s20 = steps(0, 20, h, w);
    let s40 = steps(20, 40, s20, w);
    let s60 = steps(40, 60, s40, w);
    add_regs(h, steps(60, 80, s60, w))
}
