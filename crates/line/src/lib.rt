// The line that the program writes.
#![tactic(auto)]

ghost use Rattle.std.specs.Prelude.{◌≡◌, [], ◌+◌, ◌≤◌, ◌<◌, length, take};
ghost use Rattle.verdict.specs.Verdict.{verdict_word};
ghost use Rattle.line.specs.Line.{hex_digit, hex_of, decimal_of, verdict_text, refused_text, failure_number, reply_of, line_for, line_with, written};

use octets::store;
use refusal::Refusal;
use verdict::{DIGEST_SIZE, Verdict};

// The number of what could not be taken in.
const UNREAD: u32 = 16;

// Bytes in the longest line that there is room for.
const MOST_LINE: usize = 64;

// A line: its first `len` bytes, with zeros behind them. It has no heap.
#[derive(Clone, Copy, Debug, PartialEq, Eq)]
pub struct Line {
    pub bytes: [u8; MOST_LINE],
    pub len: usize,
}

impl Line {
    // A line of no bytes.
    fn new() -> Line
        ensures { result ≡ line_with [] }
    {
        Line {
            bytes: [0u8; MOST_LINE],
            len: 0,
        }
    }

    // Its bytes.
    pub fn as_slice(&self) -> &[u8]
        ensures { result.now ≡ take self.now.len self.now.bytes }
    {
        &self.bytes[..self.len.min(MOST_LINE)]
    }
}

// What the program says of a message that it read to its end.
#[derive(Clone, Copy, Debug, PartialEq, Eq)]
pub struct Said {
    pub verdict: Verdict,
    pub digest: [u8; DIGEST_SIZE],
}

// Why it says no verdict.
#[derive(Clone, Copy, Debug, PartialEq, Eq)]
pub enum Failure {
    Refused(Refusal),
    // An argument, the table file or the message could not be taken in.
    Unread,
}

impl Failure {
    // Its number in the table of docs/BEHAVIOUR.md.
    pub fn number(self) -> u32
        ensures { result ≡ failure_number self }
    {
        match self {
            Failure::Refused(refusal) => refusal.number(),
            Failure::Unread => UNREAD,
        }
    }
}

impl From<Refusal> for Failure {
    ghost use Rattle.line.specs.declared.Failure.{Failure};

    ghost from_gives = { λ r e. e ≡ Failure.Refused r };

    fn from(refusal: Refusal) -> Failure {
        Failure::Refused(refusal)
    }
}

// The digit of a number below 16.
fn hex_digit(n: u8) -> u8
    requires { n < 16 }
    ensures { result ≡ hex_digit n }
{
    if n < 10 { b'0' + n } else { b'a' + (n - 10) }
}

// More bytes at a line's end.
fn put(line: &mut Line, bytes: &[u8])
    requires { line.old.len + length bytes.now ≤ 64 }
    ensures { line.new ≡ written line.old bytes.now }
{
    store(&mut line.bytes, line.len, bytes, bytes.len());
    line.len += bytes.len();
}

// Two digits for each byte of a digest.
fn put_hex(line: &mut Line, digest: [u8; DIGEST_SIZE])
    requires { line.old.len ≤ 24 }
    ensures { line.new ≡ written line.old (hex_of digest) }
{
    for byte in digest {
        put(line, &[hex_digit(byte / 16), hex_digit(byte % 16)]);
    }
}

// A number below 100: one digit or two, by hand, as a line takes bytes and no text.
fn put_decimal(line: &mut Line, n: u32)
    requires room { line.old.len ≤ 62 }
    requires small { n < 100 }
    ensures { line.new ≡ written line.old (decimal_of n) }
{
    if n < 10 {
        put(line, &[b'0' + n as u8]);
    } else {
        put(line, &[b'0' + (n / 10) as u8, b'0' + (n % 10) as u8]);
    }
}

// The word of a verdict.
fn word(verdict: Verdict) -> &'static [u8]
    ensures { result.now ≡ verdict_word verdict }
{
    match verdict {
        Verdict::Ok => b"ok",
        Verdict::Mitigated => b"mitigated",
        Verdict::Collision => b"collision",
    }
}

// The text of a verdict, in an empty line.
fn put_said(line: &mut Line, said: Said)
    requires { line.old ≡ line_with [] }
    ensures text { line.new ≡ line_with (verdict_text (verdict_word said.verdict) said.digest) }
    ensures short { line.new.len ≤ 50 }
{
    put(line, word(said.verdict));
    put(line, b" ");
    put_hex(line, said.digest);
}

// The text of a number that is refused, in an empty line.
fn put_refused(line: &mut Line, n: u32)
    requires empty { line.old ≡ line_with [] }
    requires small { n < 100 }
    ensures text { line.new ≡ line_with (refused_text n) }
    ensures short { line.new.len ≤ 50 }
{
    put(line, b"refused ");
    put_decimal(line, n);
}

// What the program writes.
pub fn line_of(reply: Result<Said, Failure>) -> Line
    ensures { result ≡ line_with (line_for (reply_of reply)) }
{
    let mut line = Line::new();
    match reply {
        Ok(said) => put_said(&mut line, said),
        Err(failure) => put_refused(&mut line, failure.number()),
    }
    put(&mut line, b"\n");
    line
}
