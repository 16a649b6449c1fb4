// What the program makes of each read of the message, and what it says of a message that it has taken in whole.
#![tactic(auto)]

ghost use Rattle.std.specs.Prelude.{◌≡◌, []};
ghost use Rattle.loan.specs.Loan.{loan_of};
ghost use Rattle.finish.specs.Finish.{finished};
ghost use Rattle.reads.specs.Reads.{answer_of, read_of};
ghost use Rattle.program.specs.Intakes.{intake_with, read_taken};
ghost use Rattle.program.specs.Reply.{finish_said};

use finish::finish;
use hasher::Hasher;
use line::{Failure, Said};
use loan::Lent;
use std::io;
use update::update;

// The hasher with the bytes of one read more, by its answer and the buffer after it: none at the message's end, and an error
// is no end. Of an answer above what the buffer holds, all of the buffer is taken.
pub fn take(
    h: Hasher,
    table: &[u32],
    got: io::Result<usize>,
    buf: &[u8],
) -> Result<Option<Hasher>, Failure>
    ensures { result ≡ read_taken (intake_with h table.now (read_of (answer_of got) buf.now)) }
{
    match got {
        Ok(n) => match n.min(buf.len()) {
            0 => Ok(None),
            n => Ok(Some(update(h, &buf[..n], Lent::of_table(table))?)),
        },
        Err(_) => Err(Failure::Unread),
    }
}

// The verdict and the digest of what the hasher took, with a table that was checked or with none.
pub fn said_of(h: Hasher, table: &[u32]) -> Result<Said, Failure>
    ensures { result ≡ finish_said (finished h (loan_of table.now [] [])) }
{
    let f = finish(h, Lent::of_table(table))?;
    let digest = f.digest;
    Ok(Said {
        verdict: f.verdict,
        digest,
    })
}
