// Puts to the hasher's entry points what they must refuse, and what they must not, and writes a line for each call. The file
// data/cases.txt has the calls, the file stdout what the lines must be.
#![tactic(auto)]

mod call;
mod given;

use call::call;
use cases::{conditions_of, front, number_at, play_cases, records_of};
use loan::Lent;
use std::io;
use std::io::Write;

// The masks select mask number 31 alone; the conditions, if there are any, drop mask number 0.
fn one<W: Write>(out: &mut W, letter: u8, line: &[u8]) -> io::Result<()> {
    let table = records_of(line);
    let conditions = conditions_of(line, 17);
    let masks = [0x80000000u32; 3];
    let lent = Lent {
        table: front(&table, number_at(line, 1)),
        conditions: front(&conditions, number_at(line, 16)),
        masks: front(&masks, number_at(line, 6)),
    };
    call(out, letter, line, lent)
}

fn main(rt: HostRuntime) -> io::Result<()> {
    play_cases(&rt, b"cases.txt", one)
}
