// Runs the program with a table whose second record breaks the rule in its last word.
#![tactic(auto)]

use std::io;

fn main(rt: HostRuntime) -> io::Result<()> {
    program_io::run(&rt)
}
