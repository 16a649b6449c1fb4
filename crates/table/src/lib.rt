// The check of a lent table of vectors. A record is 82 words: the mask number, the test step, and the 80 words by
// which a sibling's schedule differs.
#![tactic(auto)]

ghost use Rattle.std.specs.Prelude.{◌≡◌, drop, get_or, length, take};
ghost use Rattle.table.specs.Limits.{dm_words};
ghost use Rattle.table.specs.Table.{testt_of, step_named, records_in, obeys, fault_of, first_repeat, table_fault};
ghost use Rattle.table.specs.Good.{GoodBelow};

use refusal::Refusal;
use word::mix;

// Difference words in a record, all its words, records in a table at most, and bits in a mask. The specs name the same limits on
// their own, so that another number here is refused.
pub const DM_WORDS: usize = 80;

pub const RECORD_WORDS: usize = 2 + DM_WORDS;

pub const MOST_RECORDS: usize = 32;

pub const MASK_BITS: u32 = 32;

// The step at which a sibling is compared with the block.
#[derive(Clone, Copy, Debug, PartialEq, Eq)]
pub enum Testt {
    T58,
    T65,
}

// A word that names no such step.
#[derive(Clone, Copy, Debug, PartialEq, Eq)]
pub struct UnknownStep(pub u32);

// The test step that a record's word 1 names.
impl TryFrom<u32> for Testt {
    type Error = UnknownStep;

    ghost try_from_gives = { λ x r. r ≡ step_named x };

    fn try_from(x: u32) -> Result<Testt, UnknownStep> {
        match x {
            58 => Ok(Testt::T58),
            65 => Ok(Testt::T65),
            _ => Err(UnknownStep(x)),
        }
    }
}

// The test step that a record's word 1 names, where the table is good.
pub fn test_step(x: u32) -> Testt
    ensures { result ≡ testt_of x }
{
    Testt::try_from(x).unwrap_or(Testt::T65)
}

// Whether a record's difference words obey the rule of a schedule. All are looked at: with no way out of the loop the compiler
// takes many at a time. The loop counts places, since the rule is one of places. They come as a slice of so many, as a part of
// an array does.
fn obeys_rule(dm: &[u32]) -> bool
    requires { length dm.now ≡ dm_words }
    ensures { result ≡ obeys dm.now }
{
    let mut off = 0u32;
    for t in 16..DM_WORDS {
        off |= dm[t] ^ mix(dm[t - 3], dm[t - 8], dm[t - 14], dm[t - 16]);
    }
    off == 0
}

// What is wrong with the record at place i.
fn record_fault(record: &[u32; RECORD_WORDS], i: usize) -> Result<(), Refusal>
    ensures { result ≡ fault_of (get_or record.now 0 0) (get_or record.now 1 0) (take dm_words (drop 2 record.now)) i }
{
    if MASK_BITS <= record[0] {
        return Err(Refusal::MaskNumber(i));
    }
    if Testt::try_from(record[1]).is_err() {
        return Err(Refusal::TestStep(i));
    }
    if !obeys_rule(&record[2..]) {
        return Err(Refusal::DmRule(i));
    }
    Ok(())
}

// The first record whose mask number an earlier one has. The numbers seen so far are the bits of one word.
fn first_repeat(table: &[u32]) -> Result<(), Refusal>
    requires { GoodBelow table.now (records_in (length table.now)) }
    ensures { result ≡ first_repeat table.now }
{
    let (records, _) = table.as_chunks::<RECORD_WORDS>();
    let mut seen = 0u32;
    for (i, record) in records.iter().enumerate() {
        let k = record[0];
        if (seen >> k) % 2 == 1 {
            return Err(Refusal::MaskRepeated(i));
        }
        seen |= 1 << k;
    }
    Ok(())
}

// What is wrong with a table: its length, its first bad record, or the first that repeats a mask number.
pub fn table_fault(table: &[u32]) -> Result<(), Refusal>
    ensures { result ≡ table_fault table.now }
{
    let (records, rest) = table.as_chunks::<RECORD_WORDS>();
    if records.is_empty() || MOST_RECORDS < records.len() || !rest.is_empty() {
        return Err(Refusal::TableLength);
    }
    for (i, record) in records.iter().enumerate() {
        record_fault(record, i)?;
    }
    first_repeat(table)
}
