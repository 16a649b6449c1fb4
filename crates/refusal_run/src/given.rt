// What calls are given: hashers in the middle of a message, and messages.
ghost use Rattle.std.specs.Prelude.{◌≡◌, ◌%◌};
ghost use Rattle.refusal_run.specs.Given.{pending_of, given_hasher, given_message};

use cases::{field, flags_of_bits, front, number_at, word_field};
use hasher::Hasher;
use stream::FirstMark;

// `abc` and zeros, with a last byte.
fn pending(last: u32) -> [u8; 64]
    ensures { result ≡ pending_of (last % 256) }
{
    let mut p = [0u8; 64];
    p[..3].copy_from_slice(b"abc");
    p[63] = (last % 256) as u8;
    p
}

// A case gives the fields that can be ill formed: fill, blocks, last pending byte, flags, mark and where it was first made.
#[tactic(auto, unfolding(crate::specs::Given::given_hasher))]
pub(crate) fn given_hasher(line: &[u8]) -> Hasher
    ensures { result ≡ given_hasher line.now }
{
    Hasher {
        words: [0x01234567, 0x89ABCDEF, 0xFEDCBA98, 0x76543210, 0xF0E1D2C3],
        pending: pending(word_field(line, 9)),
        fill: number_at(line, 7),
        blocks: number_at(line, 8) as u64,
        flags: flags_of_bits(number_at(line, 10)),
        mark: number_at(line, 11) == 1,
        first: FirstMark {
            block: number_at(line, 12) as u64,
            place: number_at(line, 13),
        },
    }
}

// The first bytes of field 14.
pub(crate) fn given_message(line: &[u8]) -> &[u8]
    ensures { result.now ≡ given_message line.now }
{
    front(field(line, 14), number_at(line, 15))
}
