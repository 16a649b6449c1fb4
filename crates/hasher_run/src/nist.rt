// NIST's short messages, of 0 to 64 bytes: how many give the published digest, for each way to give them to a hasher.
use crate::ended::{Sizes, Way, end_by};
use cases::{flags_of_bits, from_field, number_at};
use hasher::Hasher;
use loan::Lent;
use std::io;
use std::io::Write;
use verdict::DIGEST_SIZE;

const MESSAGES: usize = 65;

// A message of the file, its digest, and what is behind them.
#[derive(Clone, Copy)]
struct Published<'a> {
    message: &'a [u8],
    digest: &'a [u8],
    behind: &'a [u8],
}

// The first of some messages, one after the other: a byte with the message's length, the message, its digest.
fn first_of(file: &[u8]) -> Option<Published<'_>> {
    let (n, rest) = file.split_first()?;
    let (message, rest) = rest.split_at_checked(usize::from(*n))?;
    let (digest, behind) = rest.split_at_checked(DIGEST_SIZE)?;
    Some(Published {
        message,
        digest,
        behind,
    })
}

// How many of the 65 messages give their digest, one after the other by one hasher: the way of field 8 under the flags of
// field 5.
fn right(line: &[u8], file: &[u8], lent: Lent<'_>) -> usize {
    let way = Way::of(number_at(line, 8));
    let sizes = Sizes::of(line);
    let mut h = Hasher::new(flags_of_bits(number_at(line, 5)));
    let mut count = 0;
    let mut rest = file;
    // The proof alone looks at i: the count is never above it.
    for i in 0..MESSAGES {
        let Some(published) = first_of(rest) else {
            return count;
        };
        rest = published.behind;
        let ended = end_by(way, h, published.message, sizes, lent);
        h = ended.map_or(h, |e| e.hasher);
        // A refused message has zeros for its digest.
        let digest = ended.map_or([0; DIGEST_SIZE], |e| e.digest);
        if digest.as_slice() == published.digest {
            count += 1;
        }
    }
    count
}

pub(crate) fn count<W: Write>(
    out: &mut W,
    line: &[u8],
    file: &[u8],
    lent: Lent<'_>,
) -> io::Result<()> {
    let count = right(line, file, lent);
    out.write_all(from_field(line, 10))?;
    writeln!(out, ": {count} of {MESSAGES}")
}
