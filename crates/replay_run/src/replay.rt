// The lines of a list, one after the other.
ghost use Rattle.std.specs.Prelude.{◌≡◌};
ghost use Rattle.replay_run.specs.Turns.{table_lent};

use crate::counts::Counts;
use crate::turns::{is_right, lent_after};
use flags::Flags;
use hasher::Hasher;
use replay_line::{Words, line_kind};
use std::io;
use std::io::Write;

// The words of the table that is lent; none where no line before has lent one that can be read.
fn table_lent(lent: &Option<Words>) -> &[u32]
    ensures { result.now ≡ table_lent lent.now }
{
    match lent {
        Some(words) => words.as_slice(),
        None => &[],
    }
}

// How many lines of each kind agree.
pub(crate) fn replay<W: Write>(out: &mut W, text: &[u8]) -> io::Result<Counts> {
    let mut counts = Counts::none();
    let mut h = Hasher::new(Flags::new());
    let mut lent = None;
    let pieces = text.split_inclusive(|b| *b == b'\n');
    for (before, piece) in pieces.enumerate() {
        let n = before.saturating_add(1);
        let line = match piece {
            [line @ .., b'\n'] => line,
            _ => piece,
        };
        let Some(kind) = line_kind(line) else {
            counts.add_difference(out, n)?;
            continue;
        };
        lent = lent_after(lent, kind, line);
        let right = is_right(&mut h, kind, line, table_lent(&lent));
        counts.add_line(out, n, kind, line, right)?;
    }
    Ok(counts)
}
