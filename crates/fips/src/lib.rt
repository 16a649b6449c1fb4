// FIPS 180-4's message: its padding, its blocks hashed one after the other, and the digest that they end in.
#![tactic(auto)]

ghost use Rattle.std.specs.Prelude.{◌≡◌, ◌+◌, ◌*◌, ◌/◌, ◌≤◌, length, take};
ghost use Rattle.std.proofs.Math.Seq.{paste};
ghost use Rattle.octets.specs.Octets.{bytes32};
ghost use Rattle.fips.specs.Fips.{most_bytes, hash_blocks, digest_of};
ghost use Rattle.fips.specs.Tail.{tail_blocks, tail_of};

use block::compression_plain;
use octets::{bytes_32, bytes_64, store};
use step::Regs;

pub const SHA1_PADDING: [u8; 64] = [
    0x80, 0, 0, 0, 0, 0, 0, 0, 0, 0, 0, 0, 0, 0, 0, 0, 0, 0, 0, 0, 0, 0, 0, 0, 0, 0, 0, 0, 0, 0, 0,
    0, 0, 0, 0, 0, 0, 0, 0, 0, 0, 0, 0, 0, 0, 0, 0, 0, 0, 0, 0, 0, 0, 0, 0, 0, 0, 0, 0, 0, 0, 0, 0,
    0,
];

// The whole blocks of m, one after the other.
pub fn hash_blocks(h: Regs, m: &[u8]) -> Regs
    ensures { result ≡ hash_blocks (length m.now / 64) h m.now }
{
    let (blocks, _) = m.as_chunks::<64>();
    let mut words = h;
    for block in blocks {
        words = compression_plain(words, block);
    }
    words
}

// How many blocks the padding makes of so many pending bytes.
pub fn tail_blocks(fill: usize) -> usize
    ensures { result ≡ tail_blocks fill }
{
    if fill <= 55 { 1 } else { 2 }
}

// The last blocks of a message of so many bytes, one or two, in front.
pub fn tail(pending: [u8; 64], fill: usize, bytes: u64) -> [u8; 128]
    requires { (fill ≤ 63) × (bytes ≤ most_bytes) }
    ensures { take (64 * tail_blocks fill) result ≡ tail_of pending fill bytes }
{
    let end = 64 * tail_blocks(fill) - 8;
    let mut last = [0u8; 128];
    store(&mut last, 0, &pending, fill);
    store(&mut last, fill, &SHA1_PADDING, end - fill);
    store(&mut last, end, &bytes_64(8 * bytes), 8);
    last
}

// The five chaining words as 20 bytes.
#[tactic(auto, unfolding(crate::specs::Fips::digest_of))]
pub fn digest(h: Regs) -> [u8; 20]
    ensures { result ≡ digest_of h }
{
    let mut bytes = [0u8; 20];
    store(&mut bytes, 0, &bytes_32(h.a), 4);
    store(&mut bytes, 4, &bytes_32(h.b), 4);
    store(&mut bytes, 8, &bytes_32(h.c), 4);
    store(&mut bytes, 12, &bytes_32(h.d), 4);
    store(&mut bytes, 16, &bytes_32(h.e), 4);
    bytes
}
