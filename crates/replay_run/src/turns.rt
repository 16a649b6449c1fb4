// What a line asks of the proved code. Each turn says whether the answer is the line's, and leaves the hasher for the next; a line
// that can't be read is not right, and leaves the hasher as it was.
ghost use Rattle.std.specs.Prelude.{◌≡◌, []};
ghost use Rattle.loan.specs.Loan.{loan_of, loan_in};
ghost use Rattle.replay_line.specs.Fields.{word_list, small_at};
ghost use Rattle.replay_run.specs.Turns.{lent_after, table_line, block_line, fresh_line, reset_line};

use crate::agreed::{both_updated, is_answered, is_checked, is_ended};
use cases::{flags_of_bits, mode_of_bits};
use detect::one_block;
use finish::{finish, finish_and_reset};
use hasher::{Hasher, reset};
use in_place::update_in_place;
use loan::Lent;
use one_shot::one_shot;
use replay_line::{Kind, Words, five_at, hex_words, run_at, small_at, word_at};
use table::table_fault;
use update::update;
use verdict::DIGEST_SIZE;

// The table lent after a line; none where it can't be read.
pub(crate) fn lent_after(before: Option<Words>, kind: Kind, line: &[u8]) -> Option<Words>
    ensures { result ≡ lent_after before kind line.now }
{
    match kind {
        Kind::Table => hex_words(line, 1),
        _ => before,
    }
}

// The check of the table that the line lends.
fn table_line(line: &[u8], table: &[u32]) -> bool
    ensures { result ≡ table_line line.now table.now }
{
    hex_words(line, 1).is_some() && is_checked(line, table_fault(table))
}

// A block from five words, under the table, with a mask and flags.
#[tactic(auto, unfolding(crate::specs::Turns::block_line))]
fn block_line(line: &[u8], table: &[u32]) -> Option<bool>
    ensures { result ≡ block_line line.now table.now }
{
    let words = five_at(line, 1)?;
    let message = run_at(line, 2)?;
    let mask = word_at(line, 3)?;
    let bits = small_at(line, 4)?;
    if 16 <= bits {
        return None;
    }
    let answer = one_block(words, message.as_slice(), table, mask, mode_of_bits(bits));
    Some(is_answered(line, answer))
}

// A fresh hasher.
fn fresh_line(h: &mut Hasher, line: &[u8]) -> bool
    ensures { fresh_line h.old (small_at line.now 1) result h.new }
{
    match small_at(line, 1) {
        Some(bits) if bits < 16 => {
            *h = Hasher::new(flags_of_bits(bits));
            true
        }
        _ => false,
    }
}

// A table and masks; no line has conditions.
fn with_masks<'a>(table: &'a [u32], masks: &'a Words) -> Lent<'a>
    ensures { loan_in result ≡ loan_of table.now [] (word_list masks.now) }
{
    Lent {
        table,
        conditions: &[],
        masks: masks.as_slice(),
    }
}

// Both forms of an update. The one in place gives the next line its hasher, refused or not.
fn update_line(h: &mut Hasher, line: &[u8], table: &[u32]) -> Option<bool> {
    let piece = run_at(line, 1)?;
    let masks = hex_words(line, 2)?;
    let lent = with_masks(table, &masks);
    let by_value = update(*h, piece.as_slice(), lent);
    let answer = update_in_place(h, piece.as_slice(), lent);
    let left = *h;
    Some(both_updated(line, by_value, answer.map(|_| left)))
}

// A finish.
fn finish_line(h: &mut Hasher, line: &[u8], table: &[u32]) -> Option<bool> {
    let masks = hex_words(line, 1)?;
    let lent = with_masks(table, &masks);
    let finished = finish(*h, lent);
    if let Ok(f) = finished {
        *h = f.hasher;
    }
    let answer = finished.map(|f| {
        let digest = f.digest;
        (f.verdict, digest)
    });
    Some(is_ended(line, 2, answer))
}

// A finish-and-reset.
fn finish_reset_line(h: &mut Hasher, line: &[u8], table: &[u32]) -> Option<bool> {
    let masks = hex_words(line, 1)?;
    let lent = with_masks(table, &masks);
    let mut digest = [0u8; DIGEST_SIZE];
    let finished = finish_and_reset(*h, &mut digest, lent);
    if let Ok(f) = finished {
        *h = f.hasher;
    }
    let answer = finished.map(|f| (f.verdict, digest));
    Some(is_ended(line, 2, answer))
}

// A whole message at once, in which the hasher has no part.
fn one_shot_line(line: &[u8], table: &[u32]) -> Option<bool> {
    let message = run_at(line, 1)?;
    let masks = hex_words(line, 2)?;
    let answer = one_shot(message.as_slice(), table, masks.as_slice()).map(|d| {
        let digest = d.digest;
        (d.verdict, digest)
    });
    Some(is_ended(line, 3, answer))
}

// A reset.
#[tactic(auto, unfolding(hasher::specs::Hasher::reset_of))]
fn reset_line(h: &mut Hasher) -> bool
    ensures { reset_line h.old result h.new }
{
    match reset(*h) {
        Ok(fresh) => {
            *h = fresh;
            true
        }
        Err(_) => false,
    }
}

// A line of a kind.
pub(crate) fn is_right(h: &mut Hasher, kind: Kind, line: &[u8], table: &[u32]) -> bool {
    let right = match kind {
        Kind::Comment => Some(true),
        Kind::Table => Some(table_line(line, table)),
        Kind::Block => block_line(line, table),
        Kind::Fresh => Some(fresh_line(h, line)),
        Kind::Update => update_line(h, line, table),
        Kind::Finish => finish_line(h, line, table),
        Kind::FinishReset => finish_reset_line(h, line, table),
        Kind::OneShot => one_shot_line(line, table),
        Kind::Reset => Some(reset_line(h)),
    };
    right.unwrap_or(false)
}
