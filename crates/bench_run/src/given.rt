// What lines give: hashers, and what is lent to a call.
ghost use Rattle.std.specs.Prelude.{◌≡◌};
ghost use Rattle.word.specs.Lists.{list_of};
ghost use Rattle.loan.specs.Loan.{loan_in};
ghost use Rattle.bench_run.specs.Given.{byte_of, line_hasher, lent_of};

use cases::{MOST_TABLE, flags_of_bits, front, number_at, records_of};
use hasher::Hasher;
use loan::Lent;
use replay_line::{Words, five_at, hex_words, run_at};
use std::array;
use stream::FirstMark;

// The first 64 of some bytes, with zeros behind them.
fn pending_of(bytes: &[u8]) -> [u8; 64]
    ensures { result ≡ list_of (byte_of bytes.now) 64 }
{
    array::from_fn(|i| bytes.get(i).copied().unwrap_or(0))
}

// A hasher of the fields that a line gives, well formed or not. Its words must be five, and its pending bytes such as can be read.
#[tactic(auto, unfolding(crate::specs::Given::line_hasher))]
pub(crate) fn line_hasher(line: &[u8]) -> Option<Hasher>
    ensures { result ≡ line_hasher line.now }
{
    let words = five_at(line, 6)?;
    let pending = pending_of(run_at(line, 7)?.as_slice());
    Some(Hasher {
        words,
        pending,
        fill: number_at(line, 3),
        blocks: number_at(line, 4) as u64,
        flags: flags_of_bits(number_at(line, 2)),
        mark: number_at(line, 5) == 1,
        first: FirstMark {
            block: number_at(line, 8) as u64,
            place: number_at(line, 9),
        },
    })
}

// What a line lends: the first words of 33 control records of which two words are changed, masks, and conditions.
#[derive(Clone, Copy)]
pub(crate) struct Given {
    records: [u32; MOST_TABLE],
    size: usize,
    masks: Words,
    conditions: Words,
}

impl Given {
    // By fields 2 to 7 and field 9.
    pub(crate) fn of(line: &[u8]) -> Option<Given> {
        let records = records_of(line);
        Some(Given {
            records,
            size: number_at(line, 6),
            masks: hex_words(line, 7)?,
            conditions: hex_words(line, 9)?,
        })
    }

    pub(crate) fn lent(&self) -> Lent<'_>
        ensures { loan_in result ≡ lent_of self.now.records self.now.size self.now.masks self.now.conditions }
    {
        Lent {
            table: front(&self.records, self.size),
            conditions: self.conditions.as_slice(),
            masks: self.masks.as_slice(),
        }
    }
}
