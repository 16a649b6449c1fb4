// A table file: its bytes as the words of a table, and its check.
#![tactic(auto)]

ghost use Rattle.std.specs.Prelude.{◌≡◌, ◌<◌, get_or};
ghost use Rattle.octets.specs.Octets.{be32_at};
ghost use Rattle.table_file.specs.File.{most_words, file_words, whole_words, file_fault};

use octets::be_word;
use refusal::Refusal;
use std::array;
use table::{MOST_RECORDS, RECORD_WORDS, table_fault};

// Words in the longest table.
pub const MOST_WORDS: usize = RECORD_WORDS * MOST_RECORDS;

// Byte i, 0 past the end.
fn byte_at(bytes: &[u8], i: usize) -> u8
    ensures { result ≡ get_or bytes.now i 0 }
{
    bytes.get(i).copied().unwrap_or(0)
}

// Word i of the file.
fn file_word(bytes: &[u8], i: usize) -> u32
    requires { i < most_words }
    ensures { result ≡ be32_at bytes.now i }
{
    let at = 4 * i;
    be_word(
        byte_at(bytes, at),
        byte_at(bytes, at + 1),
        byte_at(bytes, at + 2),
        byte_at(bytes, at + 3),
    )
}

// The words of a file, with zeros past its end.
pub fn file_words(bytes: &[u8]) -> [u32; MOST_WORDS]
    ensures { result ≡ file_words bytes.now most_words }
{
    array::from_fn(|i| file_word(bytes, i))
}

// Whether n bytes can be the words of a table that is not too long.
fn whole_words(n: usize) -> bool
    ensures { result ≡ whole_words n }
{
    n % 4 == 0 && n <= 4 * MOST_WORDS
}

// What is wrong with a table file.
pub fn file_fault(bytes: &[u8]) -> Result<(), Refusal>
    ensures { result ≡ file_fault bytes.now }
{
    if !whole_words(bytes.len()) {
        return Err(Refusal::TableLength);
    }
    let words = file_words(bytes);
    table_fault(&words[..bytes.len() / 4])
}
