// Runs the program with the control record and `raw`, on `hello world`, and then on the empty message.
#![tactic(auto)]

use std::io;

fn main(rt: HostRuntime) -> io::Result<()> {
    program_io::run(&rt)?;
    program_io::run(&rt)
}
