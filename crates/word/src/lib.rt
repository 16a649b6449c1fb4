// Words of 32 bits: rotation, wrapping sums and differences, the round functions and the rule of a schedule.
#![tactic(auto)]

ghost use Rattle.std.specs.Prelude.{◌≡◌, ◌<◌};
ghost use Rattle.word.specs.Word.{rotl, ◌⊞◌, ◌⊟◌, ch, parity, maj};
ghost use Rattle.word.specs.Rule.{rule};

// x rotated left by n places. The two shifts and their sum of bits are one machine instruction.
pub fn rotate_left(x: u32, n: u32) -> u32
    requires { (0 < n) × (n < 32) }
    ensures { result ≡ rotl n x }
{
    (x << n) | (x >> (32 - n))
}

// The sum that wraps.
pub fn add(x: u32, y: u32) -> u32
    ensures { result ≡ x ⊞ y }
{
    std::num::wrapping_add_u32(x, y)
}

// The difference that wraps.
pub fn sub(x: u32, y: u32) -> u32
    ensures { result ≡ x ⊟ y }
{
    std::num::wrapping_sub_u32(x, y)
}

// The round functions, under the Rust's names. All but majority are as the Rust computes them.

// Choose, of steps 0 to 19.
pub fn f1(b: u32, c: u32, d: u32) -> u32
    ensures { result ≡ ch b c d }
{
    d ^ (b & (c ^ d))
}

// Parity, of steps 20 to 39.
pub fn f2(b: u32, c: u32, d: u32) -> u32
    ensures { result ≡ parity b c d }
{
    b ^ c ^ d
}

// Majority, of steps 40 to 59, by `and` and `or` alone. The Rust adds two terms that have no bit in common.
pub fn f3(b: u32, c: u32, d: u32) -> u32
    ensures { result ≡ maj b c d }
{
    (b & c) | (d & (b | c))
}

// Parity again, of steps 60 to 79.
pub fn f4(b: u32, c: u32, d: u32) -> u32
    ensures { result ≡ parity b c d }
{
    b ^ c ^ d
}

// The next word of a schedule, from those 3, 8, 14 and 16 places before it.
pub fn mix(w3: u32, w8: u32, w14: u32, w16: u32) -> u32
    ensures { result ≡ rule w3 w8 w14 w16 }
{
    rotate_left(w3 ^ w8 ^ w14 ^ w16, 1)
}
