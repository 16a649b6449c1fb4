// Runs the program with the crate's own table, in which the last record is given the first one's mask number.
#![tactic(auto)]

use std::io;

fn main(rt: HostRuntime) -> io::Result<()> {
    program_io::run(&rt)
}
