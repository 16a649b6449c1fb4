// Comparing a verdict and its digest with the digest that the barcode sheet has.
#![tactic(auto)]

ghost use Rattle.std.specs.Prelude.{◌≡◌, Some};
ghost use Rattle.comparison.specs.Compare.{comparison_word, comparison_of, compared_of};

use octets::same_bytes;
use refusal::Refusal;
use sheet::{lookup, lookup_refusal};
use std::fmt;
use verdict::{DIGEST_SIZE, Verdict};

// What a comparison answers.
#[derive(Clone, Copy, Debug, PartialEq, Eq)]
pub enum Comparison {
    // The verdict is ok, and the digest is the one on the sheet.
    Match,
    // The verdict is ok, and the sheet has another digest for the barcode.
    Differs,
    // No record has the barcode.
    Absent,
    // The barcode is on the sheet, and the verdict is not ok: the digest proves nothing.
    Marked,
}

// The word for an answer.
pub fn comparison_word(answer: Comparison) -> &'static str
    ensures { result.now ≡ comparison_word answer }
{
    match answer {
        Comparison::Match => "match",
        Comparison::Differs => "differs",
        Comparison::Absent => "absent",
        Comparison::Marked => "marked",
    }
}

impl fmt::Display for Comparison {
    // The word.
    ghost output = { λ x. Some (comparison_word x) };

    fn fmt<W: fmt::Write>(&self, f: &mut fmt::Formatter<W>) -> fmt::Result {
        f.write_str(comparison_word(*self))
    }
}

// What the part that a lookup found says of a verdict and a digest. The empty part has no record behind it; and after a mark
// an equal digest may be that of another message, so that it is not looked at.
fn compare_part(part: &[u8], verdict: Verdict, digest: [u8; DIGEST_SIZE]) -> Comparison
    ensures { result ≡ comparison_of part.now verdict digest }
{
    if part.is_empty() {
        return Comparison::Absent;
    }
    if verdict != Verdict::Ok {
        return Comparison::Marked;
    }
    if !same_bytes(part, &digest) {
        return Comparison::Differs;
    }
    Comparison::Match
}

// Compares a verdict and its digest with the digest that the sheet has for the barcode.
#[tactic(auto, unfolding(crate::specs::Compare::compared_of))]
pub fn compare(
    sheet: &[u8],
    code: &[u8],
    verdict: Verdict,
    digest: [u8; DIGEST_SIZE],
) -> Result<Comparison, Refusal>
    ensures { result ≡ compared_of sheet.now code.now verdict digest }
{
    lookup_refusal(sheet, code)?;
    Ok(compare_part(lookup(sheet, code), verdict, digest))
}
