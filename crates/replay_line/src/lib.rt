// The lines of the replay list, read: what a line is, and its fields as bytes, words and numbers, all in hex.
#![tactic(auto)]

mod fields;
mod hex;
mod kind;

pub use fields::{Words, five_at, hex_words, is_mark, is_refusal, run_at, small_at, word_at};
pub use hex::{NO_NUMBER, RUN_BYTES, Run};
pub use kind::{Kind, is_refused, line_kind};
