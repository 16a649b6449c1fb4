// One block of a file: the vectors that survive the conditions, and what comes of trying those, and all.
ghost use Rattle.std.specs.Prelude.{◌≡◌, ◌*◌, ◌≤◌, length};
ghost use Rattle.conditions_run.specs.Blocks.{surviving_for, words_before};

use block::compression_states;
use cases::{from_field, mode_of_bits, number_at};
use conditions::{condition_fault, surviving};
use detect::one_block;
use flags::Flags;
use hasher::Hasher;
use loan::Lent;
use printing::Said;
use search::Found;
use std::io;
use std::io::Write;
use step::Regs;
use update::update;

// The vectors that survive the conditions for a block; none where the conditions are refused.
fn surviving_for(block: &[u8; 64], conditions: &[u32]) -> u32
    ensures { result ≡ surviving_for block.now conditions.now }
{
    match condition_fault(conditions) {
        Ok(()) => {
            let mut w = [0u32; 80];
            compression_states(Regs::from([0; 5]), block, &mut w);
            surviving(&w, conditions)
        }
        Err(_) => 0,
    }
}

// The chaining words after the first i blocks of a message.
#[tactic(auto, unfolding(crate::specs::Blocks::words_before))]
fn words_before(m: &[u8], i: usize) -> [u32; 5]
    requires { 64 * i ≤ length m.now }
    ensures { result ≡ words_before m.now i }
{
    let start = Hasher::new(Flags::new().detect_collision(false));
    let h = update(start, &m[..64 * i], Lent::nothing()).unwrap_or(start);
    h.words
}

// What comes of trying the vectors of a mask: nothing is found where the call is refused.
fn say_tried<W: Write>(
    out: &mut W,
    words: [u32; 5],
    block: &[u8],
    table: &[u32],
    mask: u32,
) -> io::Result<()> {
    let answer = one_block(words, block, table, mask, mode_of_bits(0));
    let found = answer.map_or(Found { by: None, tried: 0 }, |b| b.found);
    write!(out, "{mask:08x} {}", Said(found))
}

// Block i of a message, where it has so many.
pub(crate) fn say_block<W: Write>(
    out: &mut W,
    line: &[u8],
    m: &[u8],
    lent: Lent<'_>,
) -> io::Result<()> {
    let i = number_at(line, 1);
    let (blocks, _) = m.as_chunks::<64>();
    if let Some(block) = blocks.get(i) {
        let words = words_before(m, i);
        let survivors = surviving_for(block, lent.conditions);
        out.write_all(from_field(line, 2))?;
        write!(out, ": ")?;
        say_tried(out, words, block, lent.table, survivors)?;
        write!(out, "; ")?;
        say_tried(out, words, block, lent.table, 0xFFFFFFFF)?;
        writeln!(out)?;
    }
    Ok(())
}
