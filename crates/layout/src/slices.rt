// The three slices of lent memory that a hasher lies in.
ghost use Rattle.std.specs.Prelude.{◌≡◌, length};
ghost use Rattle.layout.specs.Layout.{SameSlices, hasher_read, lengths_fit, slices_lent, slices_of};

use crate::{flags_from, flags_number};
use hasher::Hasher;
use stream::FirstMark;

// They travel together through each call that changes the hasher in place. They stay slices, and their lengths are tested: the
// contract of `try_into` does not tie a `&mut` slice to what is written through the array that it gives.
#[derive(Drop)]
pub struct HasherSlices<'a> {
    pub words: &'a mut [u32],
    pub pending: &'a mut [u8],
    // Fill, blocks, mark, flags, and the first mark's block and place.
    pub state: &'a mut [u64],
}

impl HasherSlices<'_> {
    // Whether they have their fixed lengths.
    pub fn has_lengths(&self) -> bool
        ensures { result ≡ lengths_fit (length self.now.words.now) (length self.now.pending.now) (length self.now.state.now) }
    {
        self.words.len() == 5 && self.pending.len() == 64 && self.state.len() == 6
    }

    // The hasher that lies there, where one does.
    pub fn hasher(&self) -> Option<Hasher>
        ensures { result ≡ hasher_read self.now.words.now self.now.pending.now self.now.state.now }
    {
        hasher_from(&self.words[..], &self.pending[..], &self.state[..])
    }

    // A hasher laid there: the same slices are lent afterwards.
    #[tactic(auto, unfolding(crate::specs::Layout::state_of))]
    pub fn put(&mut self, h: Hasher)
        requires words { length self.old.words.now ≡ 5 }
        requires pending { length self.old.pending.now ≡ 64 }
        requires state { length self.old.state.now ≡ 6 }
        ensures same { SameSlices self.old self.new }
        ensures laid { slices_lent self.new ≡ slices_of h }
    {
        self.words.copy_from_slice(&h.words);
        self.pending.copy_from_slice(&h.pending);
        self.state.copy_from_slice(&[
            h.fill as u64,
            h.blocks,
            u64::from(h.mark),
            flags_number(h.flags),
            h.first.block,
            h.first.place as u64,
        ]);
    }
}

// The hasher that lies in three lent slices, where they are as a hasher is written: what is handed back on a refusal is then what
// was lent.
#[tactic(auto, unfolding(crate::specs::Layout::hasher_in))]
pub fn hasher_from(words: &[u32], pending: &[u8], state: &[u64]) -> Option<Hasher>
    ensures { result ≡ hasher_read words.now pending.now state.now }
{
    let words = words.try_into().ok()?;
    let pending = pending.try_into().ok()?;
    let &[fill, blocks, mark, flags, block, place] = state else {
        return None;
    };
    let mark = match mark {
        0 => false,
        1 => true,
        _ => return None,
    };
    Some(Hasher {
        words,
        pending,
        fill: fill as usize,
        blocks,
        flags: flags_from(flags)?,
        mark,
        first: FirstMark {
            block,
            place: place as usize,
        },
    })
}
