// The three verdicts on a message.
#![tactic(auto)]

ghost use Rattle.std.specs.Prelude.{◌≡◌};
ghost use Rattle.verdict.specs.Verdict.{verdict_of};

// Bytes in a digest, which stands beside a verdict.
pub const DIGEST_SIZE: usize = 20;

#[derive(Clone, Copy, Debug, PartialEq, Eq)]
pub enum Verdict {
    // No block was marked.
    Ok,
    // A block was marked, and each marked one was compressed twice more.
    Mitigated,
    // A block was marked, and the digest is the plain one.
    Collision,
}

// The verdict on a message with or without a mark, by whether mitigation is on.
pub fn verdict_of(mark: bool, mitigate: bool) -> Verdict
    ensures { result ≡ verdict_of mark mitigate }
{
    match (mark, mitigate) {
        (false, _) => Verdict::Ok,
        (true, true) => Verdict::Mitigated,
        (true, false) => Verdict::Collision,
    }
}
