// Runs the program on the numbers to 20,000, a line each: 108,894 bytes, more than are read at once.
#![tactic(auto)]

use std::io;

fn main(rt: HostRuntime) -> io::Result<()> {
    program_io::run(&rt)
}
