// Hex digits read: runs of bytes, and numbers of one or two digits.
ghost use Rattle.std.specs.Prelude.{◌≡◌, ◌<◌, IfSome, Option};
ghost use Rattle.word.specs.Lists.{list_of};
ghost use Rattle.table_file.specs.File.{most_file_bytes};
ghost use Rattle.replay_line.specs.Hex.{digit_of, all_digits, pair_of, byte_of, is_run, empty_run, run_bytes, run_of, small_of};

use cases::front;
use std::array;
use table_file::MOST_WORDS;

// Bytes in the longest run, a table of 32 records.
pub const RUN_BYTES: usize = 4 * MOST_WORDS;

// What a number that can't be read is read as, where it is compared with one: more than any of two digits.
pub const NO_NUMBER: usize = 256;

// Bytes read from a field: the first `len` of a room for the longest run, as no library crate here takes memory from the heap.
#[derive(Clone, Copy)]
pub struct Run {
    pub(crate) len: usize,
    pub(crate) bytes: [u8; RUN_BYTES],
}

impl Run {
    // A run of no bytes.
    #[tactic(auto, unfolding(crate::specs::Hex::empty_run))]
    fn of_nothing() -> Run
        ensures { result ≡ empty_run }
    {
        Run {
            len: 0,
            bytes: [0u8; RUN_BYTES],
        }
    }

    pub fn as_slice(&self) -> &[u8]
        ensures { result.now ≡ run_bytes self.now }
    {
        front(&self.bytes, self.len)
    }
}

// The value of a digit. A capital letter is none.
fn digit(b: u8) -> Option<u8>
    ensures value { result ≡ digit_of b }
    ensures small { IfSome result (λ d. d < 16) }
{
    match b {
        b'0'..=b'9' => Some(b - b'0'),
        b'a'..=b'f' => Some(b - b'a' + 10),
        _ => None,
    }
}

fn all_digits(s: &[u8]) -> bool
    ensures { result ≡ all_digits s.now }
{
    s.iter().all(|b| digit(*b).is_some())
}

// The byte of two digits, of which one that is none counts as 0.
fn pair(high: u8, low: u8) -> u8
    ensures { result ≡ pair_of high low }
{
    16 * digit(high).unwrap_or(0) + digit(low).unwrap_or(0)
}

// Byte i of a run of digits, of which those past its end count as 0.
fn byte_of(s: &[u8], i: usize) -> u8
    requires { i < most_file_bytes }
    ensures { result ≡ byte_of s.now i }
{
    let high = s.get(2 * i).copied().unwrap_or(0);
    let low = s.get(2 * i + 1).copied().unwrap_or(0);
    pair(high, low)
}

fn bytes_of(s: &[u8]) -> [u8; RUN_BYTES]
    ensures { result ≡ list_of (byte_of s.now) most_file_bytes }
{
    array::from_fn(|i| byte_of(s, i))
}

// Whether a field has two digits for each of 1 to 10,496 bytes.
#[tactic(auto, unfolding(crate::specs::Hex::is_run))]
fn is_run(s: &[u8]) -> bool
    ensures { result ≡ is_run s.now }
{
    !s.is_empty() && s.len() <= 2 * RUN_BYTES && s.len() % 2 == 0 && all_digits(s)
}

// The bytes of a field. One dash is a run of none.
#[tactic(auto, unfolding(crate::specs::Hex::run_of))]
pub(crate) fn run_of(s: &[u8]) -> Option<Run>
    ensures { result ≡ run_of s.now }
{
    if is_run(s) {
        return Some(Run {
            len: s.len() / 2,
            bytes: bytes_of(s),
        });
    }
    if let [b'-'] = s {
        return Some(Run::of_nothing());
    }
    None
}

// The number that a field of one or two digits is.
#[tactic(auto, unfolding(crate::specs::Hex::small_of))]
pub(crate) fn small_of(s: &[u8]) -> Option<usize>
    ensures { result ≡ small_of s.now }
{
    if !all_digits(s) {
        return None;
    }
    match s {
        [low] => Some(usize::from(pair(b'0', *low))),
        [high, low] => Some(usize::from(pair(*high, *low))),
        _ => None,
    }
}
