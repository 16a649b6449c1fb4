// A lent table of bit conditions, and the vectors that it leaves for a block. A condition is 6 words: word number i, bit p,
// word number j, bit q, the wanted value of bit p of word i `xor` bit q of word j, and the mask of the vectors that it drops if
// the value is another.
#![tactic(auto)]

ghost use Rattle.std.specs.Prelude.{◌≡◌, ℕ, ◌%◌, ◌<◌, eqb, [], get_or, length};
ghost use Rattle.std.specs.Int.Bits.{bit_xor};
ghost use Rattle.word.specs.Choice.{pick};
ghost use Rattle.conditions.specs.Conditions.{dropped_at, dropped_with, surviving_of, fits_at, condition_fault};
ghost use Rattle.conditions.specs.Good.{Fits, GoodConditions};

use refusal::Refusal;
use word::sub;

// Words in a condition, conditions in a table at most, words in a schedule, bits in a word, and a mask of all ones. The specs name
// the same limits on their own, so that another number here is refused.
pub const CONDITION_WORDS: usize = 6;

pub const MOST_CONDITIONS: usize = 512;

pub const SCHEDULE_WORDS: u32 = 80;

pub const WORD_BITS: u32 = 32;

pub const ALL: u32 = u32::MAX;

// Conditions looked at before the test whether a vector is left.
pub const GROUP: usize = 8;

// Whether a condition names words and bits that are there, and a value that a bit can have.
fn fits(condition: &[u32; CONDITION_WORDS]) -> bool
    ensures { result ≡ fits_at condition.now 0 }
{
    let [i, p, j, q, wanted, _] = *condition;
    i < SCHEDULE_WORDS && p < WORD_BITS && j < SCHEDULE_WORDS && q < WORD_BITS && wanted < 2
}

// What is wrong with a table of conditions: its length, or its first bad condition.
pub fn condition_fault(conditions: &[u32]) -> Result<(), Refusal>
    ensures { result ≡ condition_fault conditions.now }
{
    let (each, rest) = conditions.as_chunks::<CONDITION_WORDS>();
    if MOST_CONDITIONS < each.len() || !rest.is_empty() {
        return Err(Refusal::ConditionLength);
    }
    for (k, condition) in each.iter().enumerate() {
        if !fits(condition) {
            return Err(Refusal::Condition(k));
        }
    }
    Ok(())
}

// The vectors that a condition drops: its clearing mask if the lowest bits of x and y don't differ as wanted, else none.
// Without a branch: no machine can guess which way it would go, and a wrong guess costs more than all the rest.
fn dropped_by(x: u32, y: u32, wanted: u32, clearing: u32) -> u32
    requires { wanted < 2 }
    ensures { result ≡ pick (eqb (bit_xor (x % 2) (y % 2)) wanted) 0 clearing }
{
    clearing & sub(0, (x ^ y ^ wanted) & 1)
}

// The vectors that a condition drops.
fn dropped_at(w: &[u32; 80], condition: &[u32; CONDITION_WORDS]) -> u32
    requires { Fits condition.now 0 }
    ensures { result ≡ dropped_at w.now condition.now 0 }
{
    let [i, p, j, q, wanted, clearing] = *condition;
    dropped_by(w[i as usize] >> p, w[j as usize] >> q, wanted, clearing)
}

// The vectors that some conditions drop, and those dropped before.
fn dropped_with(w: &[u32; 80], before: u32, conditions: &[[u32; CONDITION_WORDS]]) -> u32
    requires { (k : ℕ) → k < length conditions.now → Fits (get_or conditions.now k []) 0 }
    ensures { result ≡ dropped_with w.now before conditions.now }
{
    let mut d = before;
    for condition in conditions {
        d |= dropped_at(w, condition);
    }
    d
}

// The vectors that survive the conditions. The groups are arrays, so that the compiler writes out the looking at one. That the
// conditions are good is a fact that callers hold and no type: where no block is filled they are not looked at, and may be bad.
pub fn surviving(w: &[u32; 80], conditions: &[u32]) -> u32
    requires { GoodConditions conditions.now }
    ensures { result ≡ surviving_of w.now conditions.now }
{
    let (each, _) = conditions.as_chunks::<CONDITION_WORDS>();
    let (groups, rest) = each.as_chunks::<GROUP>();
    let mut d = 0u32;
    for group in groups {
        if d == ALL {
            return 0;
        }
        d = dropped_with(w, d, group);
    }
    ALL - dropped_with(w, d, rest)
}
