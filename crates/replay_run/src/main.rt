// Replays a list of the Rust's answers, and writes how many of them are the proved code's too. The file stdout has what it
// must write.
#![tactic(auto)]

mod agreed;
mod counts;
mod replay;
mod turns;

use cases::{MOST_TEXT, file_text};
use replay::replay;
use std::io;
use std::io::{BufWriter, Write};

// A list has fewer bytes than are read of it.
fn main(rt: HostRuntime) -> io::Result<()> {
    let mut out = BufWriter::new(rt.alloc(), io::writer(&rt))?;
    let text = file_text(&rt, &mut out, b"replay.txt")?;
    if text.len() == MOST_TEXT {
        writeln!(out, "the list is too long")?;
        return out.flush();
    }
    let counts = replay(&mut out, &text)?;
    write!(out, "{counts}")?;
    out.flush()
}
