// Bytes: whether two slices have the same, copies of them, and numbers in bytes, the high byte first.
#![tactic(auto)]

ghost use Rattle.std.specs.Prelude.{◌≡◌, ◌+◌, ◌≤◌, length};
ghost use Rattle.std.proofs.Math.Seq.{paste};
ghost use Rattle.octets.specs.Octets.{same_bytes, be32, bytes32, bytes64};

// Whether x and y have the same bytes.
#[tactic(auto, using(crate::proofs::Same::pointwise_same))]
pub fn same_bytes(x: &[u8], y: &[u8]) -> bool
    ensures { result ≡ same_bytes x.now y.now }
{
    x == y
}

// The first n bytes of s stored into out from place `at` on.
pub fn store(out: &mut [u8], at: usize, s: &[u8], n: usize)
    requires n_in_bounds { at + n ≤ length out.old }
    requires n_in_bounds_2 { n ≤ length s.now }
    ensures { out.new ≡ paste out.old at s.now n }
{
    out[at..at + n].copy_from_slice(&s[..n]);
}

// Four bytes as a word, the high byte first.
pub fn be_word(p: u8, q: u8, r: u8, s: u8) -> u32
    ensures { result ≡ be32 p q r s }
{
    u32::from_be_bytes([p, q, r, s])
}

// The four bytes of a word, the high byte first.
pub fn bytes_32(x: u32) -> [u8; 4]
    ensures { result ≡ bytes32 x }
{
    x.to_be_bytes()
}

// The eight bytes of a number, the high byte first.
#[tactic(auto, unfolding(crate::specs::Octets::bytes64))]
pub fn bytes_64(n: u64) -> [u8; 8]
    ensures { result ≡ bytes64 n }
{
    n.to_be_bytes()
}
