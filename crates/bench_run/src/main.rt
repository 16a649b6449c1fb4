// Plays calls on a bench of hashers, a line each, and writes what they answer. The file data/calls.txt has the calls, the
// file stdout what the lines must be.
#![tactic(auto)]

mod call;
mod given;
mod row;

use call::play;
use cases::play_cases;
use row::Row;
use std::io;

fn main(rt: HostRuntime) -> io::Result<()> {
    let mut row = Row::of_new();
    play_cases(&rt, b"calls.txt", |out, letter, line| {
        play(&mut row, out, letter, line)
    })
}
