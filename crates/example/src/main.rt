// How a program uses the library: a message in two pieces, each block tried with every vector of a lent table. The
// table is the control record, which marks every block.
#![tactic(auto)]

use finish::{Finished, finish};
use flags::Flags;
use hasher::Hasher;
use loan::Lent;
use printing::{Hex, Said};
use refusal::Refusal;
use std::io;
use update::update;

fn hello_world(lent: Lent<'_>) -> Result<Finished, Refusal> {
    let flags = Flags::new().use_ubc(false);
    let begun = update(Hasher::new(flags), b"hello ", lent)?;
    let whole = update(begun, b"world", lent)?;
    finish(whole, lent)
}

fn main(rt: HostRuntime) -> io::Result<()> {
    let mut table = [0u32; 82];
    table[1] = 58;
    let lent = Lent {
        table: &table,
        conditions: &[],
        masks: &[],
    };
    match hello_world(lent) {
        Ok(ended) => println!(rt;
            "{} {}, {}",
            Said(ended.verdict),
            Hex(&ended.digest),
            Said(ended.first),
        ),
        Err(refusal) => println!(rt; "{}", Said(refusal)),
    }
}
