// The fields of a line, read.
ghost use Rattle.std.specs.Prelude.{◌≡◌, ◌<◌};
ghost use Rattle.replay_line.specs.Fields.{run_at, small_at, word_list, words_in, hex_words, five_at, word_at, is_mark, is_refusal};

use crate::hex::{NO_NUMBER, Run, run_of, small_of};
use cases::{field, front};
use refusal::Refusal;
use table_file::{MOST_WORDS, file_words};

// Words read from a field: the first `len` of a room for the longest table.
#[derive(Clone, Copy)]
pub struct Words {
    pub(crate) len: usize,
    pub(crate) words: [u32; MOST_WORDS],
}

impl Words {
    pub fn as_slice(&self) -> &[u32]
        ensures { result.now ≡ word_list self.now }
    {
        front(&self.words, self.len)
    }
}

// The bytes of a field.
pub fn run_at(line: &[u8], i: usize) -> Option<Run>
    ensures { result ≡ run_at line.now i }
{
    run_of(field(line, i))
}

// The number that a field is.
pub fn small_at(line: &[u8], i: usize) -> Option<usize>
    ensures { result ≡ small_at line.now i }
{
    small_of(field(line, i))
}

// The words of a run, if its bytes are whole words.
#[tactic(auto, unfolding(crate::specs::Fields::words_in))]
fn words_in(run: Run) -> Option<Words>
    ensures { result ≡ words_in run }
{
    if run.len % 4 != 0 {
        return None;
    }
    Some(Words {
        len: run.len / 4,
        words: file_words(&run.bytes),
    })
}

// The words of a field, the high byte first.
pub fn hex_words(line: &[u8], i: usize) -> Option<Words>
    ensures { result ≡ hex_words line.now i }
{
    words_in(run_at(line, i)?)
}

// A field's five words, where it has five.
#[tactic(auto, unfolding(crate::specs::Fields::five_at))]
pub fn five_at(line: &[u8], i: usize) -> Option<[u32; 5]>
    ensures { result ≡ five_at line.now i }
{
    match hex_words(line, i)?.as_slice() {
        [a, b, c, d, e] => Some([*a, *b, *c, *d, *e]),
        _ => None,
    }
}

// A field's one word, where it has one.
#[tactic(auto, unfolding(crate::specs::Fields::word_at))]
pub fn word_at(line: &[u8], i: usize) -> Option<u32>
    ensures { result ≡ word_at line.now i }
{
    match hex_words(line, i)?.as_slice() {
        [word] => Some(*word),
        _ => None,
    }
}

// Whether a field is 1 for a mark and 0 for none.
pub fn is_mark(line: &[u8], i: usize, mark: bool) -> bool
    ensures { result ≡ is_mark line.now i mark }
{
    small_at(line, i) == Some(usize::from(mark))
}

// Whether two fields are a refusal's number and its place, which is read as NO_NUMBER where it can't be read.
pub fn is_refusal(line: &[u8], i: usize, refusal: Refusal) -> bool
    requires { i < 16 }
    ensures { result ≡ is_refusal line.now i refusal }
{
    small_at(line, i) == Some(refusal.number() as usize)
        && small_at(line, i + 1).unwrap_or(NO_NUMBER) == refusal.place()
}
