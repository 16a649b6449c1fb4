// What a call can refuse, one case for each number of the table in docs/BEHAVIOUR.md.
#![tactic(auto)]

ghost use Rattle.std.specs.Prelude.{◌≡◌};
ghost use Rattle.refusal.specs.Refusal.{number, place, number_of, place_of};

// What a check answers is a `Result<(), Refusal>`: nothing is wrong, or this is.
#[derive(Clone, Copy, Debug, PartialEq, Eq)]
pub enum Refusal {
    // 1: the hasher is not well formed.
    HasherForm,
    // 2: the table is empty, too long or no whole number of records.
    TableLength,
    // 3, 4 and 5, each with the place of the first bad record: its mask number, its test step, or its
    // difference words, which break the schedule's rule.
    MaskNumber(usize),
    TestStep(usize),
    DmRule(usize),
    // 6: not one mask for each block.
    MaskCount,
    // 7: the message would pass 2^61 - 1 bytes.
    MessageLength,
    // 8: a block, an output or a barcode of another size.
    Size,
    // 9: the sheet is no whole number of records.
    SheetLength,
    // 10: the bench has no such lane, is empty or too large.
    NoLane,
    // 11, with the place of the first record whose mask number an earlier record has.
    MaskRepeated(usize),
    // 12: more conditions than a table of them may have, or no whole number of them.
    ConditionLength,
    // 13, with the place of the first condition that names a word, a bit or a value that is not there.
    Condition(usize),
}

impl Refusal {
    // Its number in the table.
    pub fn number(self) -> u32
        ensures { result ≡ number self }
    {
        match self {
            Refusal::HasherForm => 1,
            Refusal::TableLength => 2,
            Refusal::MaskNumber(_) => 3,
            Refusal::TestStep(_) => 4,
            Refusal::DmRule(_) => 5,
            Refusal::MaskCount => 6,
            Refusal::MessageLength => 7,
            Refusal::Size => 8,
            Refusal::SheetLength => 9,
            Refusal::NoLane => 10,
            Refusal::MaskRepeated(_) => 11,
            Refusal::ConditionLength => 12,
            Refusal::Condition(_) => 13,
        }
    }

    // The place of the record that decides, 0 for the numbers that name none.
    pub fn place(self) -> usize
        ensures { result ≡ place self }
    {
        match self {
            Refusal::MaskNumber(i)
            | Refusal::TestStep(i)
            | Refusal::DmRule(i)
            | Refusal::MaskRepeated(i)
            | Refusal::Condition(i) => i,
            _ => 0,
        }
    }
}

// The number that a check's answer has for callers in C, 0 where nothing is refused.
pub fn number_of(checked: Result<(), Refusal>) -> u32
    ensures { result ≡ number_of checked }
{
    match checked {
        Ok(()) => 0,
        Err(refusal) => refusal.number(),
    }
}

// The place that it names for them, 0 where it names none.
pub fn place_of(checked: Result<(), Refusal>) -> usize
    ensures { result ≡ place_of checked }
{
    match checked {
        Ok(()) => 0,
        Err(refusal) => refusal.place(),
    }
}
