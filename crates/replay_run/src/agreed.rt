// Whether an answer of the proved code is the line's.
ghost use Rattle.std.specs.Prelude.{◌≡◌, ◌<◌, ◌&&◌, Result};
ghost use Rattle.table.specs.Table.{table_fault};
ghost use Rattle.replay_run.specs.Agreed.{is_small, table_agrees, block_agrees, is_pending, update_agrees, verdict_digit, is_bytes, refused_agrees, outcome_agrees};

use cases::front;
use detect::OneBlock;
use hasher::Hasher;
use refusal::Refusal;
use replay_line::{NO_NUMBER, five_at, is_mark, is_refusal, is_refused, run_at, small_at};
use verdict::{DIGEST_SIZE, Verdict};

// Whether a field is this number. One that can't be read is read as NO_NUMBER.
fn is_small(line: &[u8], i: usize, n: usize) -> bool
    ensures { result ≡ is_small line.now i n }
{
    small_at(line, i).unwrap_or(NO_NUMBER) == n
}

// Whether the line has this refusal, in fields i and i + 1.
fn is_refused_so(line: &[u8], i: usize, refusal: Refusal) -> bool
    requires { i < 16 }
    ensures { result ≡ refused_agrees refusal line.now i }
{
    is_refused(line) && is_refusal(line, i, refusal)
}

// Whether what a check of a table answers is the line's.
pub(crate) fn is_checked(line: &[u8], checked: Result<(), Refusal>) -> bool
    ensures { result ≡ table_agrees checked line.now }
{
    match checked {
        Ok(()) => !is_refused(line),
        Err(refusal) => is_refused_so(line, 2, refusal),
    }
}

// Whether a block's words, and what came of trying its vectors, are the line's.
pub(crate) fn is_answered(line: &[u8], answer: Result<OneBlock, Refusal>) -> bool
    ensures { result ≡ block_agrees answer line.now }
{
    match answer {
        Ok(block) => {
            let words = block.words;
            let found = block.found;
            !is_refused(line)
                && five_at(line, 5) == Some(words)
                && is_mark(line, 6, found.by.is_some())
                && is_small(line, 7, found.by.unwrap_or(0))
                && is_small(line, 8, found.tried)
        }
        Err(refusal) => is_refused_so(line, 5, refusal),
    }
}

// Whether a field is the pending bytes of a hasher up to its fill.
fn is_pending(line: &[u8], i: usize, h: Hasher) -> bool
    ensures { result ≡ is_pending line.now i h }
{
    is_bytes(line, i, front(&h.pending, h.fill))
}

// Whether a hasher is the line's. The zeros behind its pending bytes are seen by the next call.
fn is_updated(line: &[u8], answer: Result<Hasher, Refusal>) -> bool
    ensures { result ≡ update_agrees answer line.now }
{
    match answer {
        Ok(h) => {
            !is_refused(line)
                && five_at(line, 3) == Some(h.words)
                && is_pending(line, 4, h)
                && is_small(line, 5, h.blocks as usize)
                && is_mark(line, 6, h.mark)
        }
        Err(refusal) => is_refused_so(line, 3, refusal),
    }
}

// Whether an update by value and one in place are both the line's.
pub(crate) fn both_updated(
    line: &[u8],
    by_value: Result<Hasher, Refusal>,
    in_place: Result<Hasher, Refusal>,
) -> bool
    ensures { result ≡ (update_agrees by_value line.now && update_agrees in_place line.now) }
{
    is_updated(line, by_value) && is_updated(line, in_place)
}

// The list's digit for a verdict.
fn verdict_digit(v: Verdict) -> usize
    ensures { result ≡ verdict_digit v }
{
    match v {
        Verdict::Ok => 0,
        Verdict::Mitigated => 1,
        Verdict::Collision => 2,
    }
}

// Whether a field is these bytes.
fn is_bytes(line: &[u8], i: usize, bytes: &[u8]) -> bool
    ensures { result ≡ is_bytes line.now i bytes.now }
{
    match run_at(line, i) {
        Some(run) => run.as_slice() == bytes,
        None => false,
    }
}

// Whether a verdict and a digest are the line's, in fields i and i + 1.
pub(crate) fn is_ended(
    line: &[u8],
    i: usize,
    answer: Result<(Verdict, [u8; DIGEST_SIZE]), Refusal>,
) -> bool
    requires { i < 16 }
    ensures { result ≡ outcome_agrees answer line.now i }
{
    match answer {
        Ok(ended) => {
            let digest = ended.1;
            !is_refused(line)
                && is_small(line, i, verdict_digit(ended.0))
                && is_bytes(line, i + 1, &digest)
        }
        Err(refusal) => is_refused_so(line, i, refusal),
    }
}
