// The program: it reads a message on standard input and writes one line.
#![tactic(auto)]

use std::io;

fn main(rt: HostRuntime) -> io::Result<()> {
    program_io::run(&rt)
}
