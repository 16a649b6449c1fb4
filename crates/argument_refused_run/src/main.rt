// Runs the program with an argument that it does not know, behind a table that is bad too.
#![tactic(auto)]

use std::io;

fn main(rt: HostRuntime) -> io::Result<()> {
    program_io::run(&rt)
}
