// The barcode sheet: looking a digest up by its barcode. A record is 32 bytes, a barcode and then a digest, and a sheet
// has no header.
#![tactic(auto)]

ghost use Rattle.std.specs.Prelude.{◌≡◌};
ghost use Rattle.sheet.specs.Sheet.{record_found, lookup_refusal, digest_from, part_from, part_of, place_in};

use octets::same_bytes;
use refusal::Refusal;
use verdict::DIGEST_SIZE;

// Bytes in a barcode, and in a record.
pub const BARCODE_SIZE: usize = 12;

pub const RECORD_SIZE: usize = BARCODE_SIZE + DIGEST_SIZE;

// The place of the first record with the barcode.
fn first_with(sheet: &[u8], code: &[u8]) -> Option<usize>
    ensures { result ≡ record_found sheet.now code.now }
{
    sheet
        .chunks_exact(RECORD_SIZE)
        .position(|record| same_bytes(&record[..BARCODE_SIZE], code))
}

// What a lookup of this barcode on this sheet refuses.
#[tactic(auto, unfolding(crate::specs::Sheet::lookup_refusal))]
pub fn lookup_refusal(sheet: &[u8], code: &[u8]) -> Result<(), Refusal>
    ensures { result ≡ lookup_refusal sheet.now code.now }
{
    if code.len() != BARCODE_SIZE {
        return Err(Refusal::Size);
    }
    if sheet.len() % RECORD_SIZE != 0 {
        return Err(Refusal::SheetLength);
    }
    Ok(())
}

// Where the digest of the first record with the barcode begins, where nothing is refused and there is one.
#[tactic(auto, unfolding(crate::specs::Sheet::digest_from))]
fn digest_from(sheet: &[u8], code: &[u8]) -> Option<usize>
    ensures { result ≡ digest_from sheet.now code.now }
{
    lookup_refusal(sheet, code).ok()?;
    let k = first_with(sheet, code)?;
    Some(RECORD_SIZE * k + BARCODE_SIZE)
}

// Where the part that a lookup hands back begins: at the digest of the first record with the barcode, or at the
// sheet's end. It is a number and no `Option`, as the static library tells it to C.
#[tactic(auto, unfolding(crate::specs::Sheet::digest_from, crate::specs::Sheet::part_from))]
pub fn part_from(sheet: &[u8], code: &[u8]) -> usize
    ensures { result ≡ part_from sheet.now code.now }
{
    digest_from(sheet, code).unwrap_or(sheet.len())
}

// The digest of the first record with the barcode, or the empty part at the sheet's end: in both cases the sheet's
// own bytes, not a copy.
#[tactic(auto, unfolding(crate::specs::Sheet::digest_from, crate::specs::Sheet::part_from))]
pub fn lookup<'a>(sheet: &'a [u8], code: &[u8]) -> &'a [u8]
    ensures bytes { result.now ≡ part_of sheet.now code.now }
    ensures place { result.ref_ptr ≡ place_in sheet.entry (part_from sheet.now code.now) }
{
    match digest_from(sheet, code) {
        Some(from) => &sheet[from..from + DIGEST_SIZE],
        None => &sheet[sheet.len()..],
    }
}
