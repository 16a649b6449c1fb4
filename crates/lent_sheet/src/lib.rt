// The calls on a lent sheet: looking a barcode up, and comparing a verdict and its digest.
#![tactic(auto)]

ghost use Rattle.std.specs.Prelude.{◌≡◌, [], ◌∷◌, length};
ghost use Rattle.answers.specs.Answers.{left};
ghost use Rattle.lent_sheet.specs.LentSheet.{compare_call, compared_left, comparison_number, lookup_call};

use answers::BROKEN_AGREEMENT;
use comparison::{Comparison, compare};
use layout::verdict_from;
use refusal::{Refusal, number_of};
use sheet::{lookup_refusal, part_from};
use verdict::DIGEST_SIZE;

// The number that stands for a comparison's answer; 0 is left for none.
fn comparison_number(comparison: Comparison) -> u64
    ensures { result ≡ comparison_number comparison }
{
    match comparison {
        Comparison::Match => 1,
        Comparison::Differs => 2,
        Comparison::Absent => 3,
        Comparison::Marked => 4,
    }
}

// What a comparison leaves: its answer's number, 0 on a refusal, and 0 where other calls have a place.
fn leave_compared(answer: &mut [u64], compared: Result<Comparison, Refusal>) -> u32
    requires { length answer.old ≡ 2 }
    ensures { left result (answer.new ∷ []) ≡ compared_left compared }
{
    let (says, number) = match compared {
        Ok(comparison) => (comparison_number(comparison), 0),
        Err(refusal) => (0, refusal.number()),
    };
    answer.copy_from_slice(&[says, 0]);
    number
}

// A barcode looked up. An exported function can hand back no part of a slice: it says where the part lies.
#[tactic(auto, using(sheet::proofs::Parts::fits, sheet::proofs::Parts::part_length), unfolding(crate::specs::LentSheet::lookup_call))]
pub fn lookup_lent(sheet: &[u8], code: &[u8], part: &mut [u64]) -> u32
    ensures { left result (part.new ∷ []) ≡ lookup_call sheet.now code.now part.old }
{
    if part.len() != 2 {
        return BROKEN_AGREEMENT;
    }
    // Where the part begins tells its length, so that the sheet is searched once.
    let from = part_from(sheet, code);
    let length = DIGEST_SIZE.min(sheet.len() - from);
    part.copy_from_slice(&[from as u64, length as u64]);
    number_of(lookup_refusal(sheet, code))
}

// The number of a verdict, and its digest, compared with what the sheet has for a barcode.
#[tactic(auto, unfolding(crate::specs::LentSheet::compare_call))]
pub fn compare_lent(
    sheet: &[u8],
    code: &[u8],
    verdict: u32,
    digest: &[u8],
    answer: &mut [u64],
) -> u32
    ensures { left result (answer.new ∷ []) ≡ compare_call sheet.now code.now verdict digest.now answer.old }
{
    if answer.len() != 2 {
        return BROKEN_AGREEMENT;
    }
    let Some(verdict) = verdict_from(verdict) else {
        return BROKEN_AGREEMENT;
    };
    let Ok(digest) = digest.try_into() else {
        return BROKEN_AGREEMENT;
    };
    leave_compared(answer, compare(sheet, code, verdict, digest))
}
