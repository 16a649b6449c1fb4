// Runs the program on `hello world` with no argument. The second time nothing is left of the message, which is the empty one.
#![tactic(auto)]

use std::io;

fn main(rt: HostRuntime) -> io::Result<()> {
    program_io::run(&rt)?;
    program_io::run(&rt)
}
