// How the programs that run the library write what it answers: each value by its `Display`.
#![tactic(auto)]

use finish::Finished;
use flags::{Flags, Masks};
use hasher::Hasher;
use one_shot::Digested;
use refusal::Refusal;
use search::Found;
use std::fmt;
use stream::FirstMark;
use verdict::{DIGEST_SIZE, Verdict};

// A value of the library, as the programs write it. The library's own types have no `Display`: C callers have no use for it.
#[derive(Clone, Copy)]
pub struct Said<T>(pub T);

// Bytes in hex, with nothing between them.
#[derive(Clone, Copy)]
pub struct Hex<'a>(pub &'a [u8]);

impl fmt::Display for Hex<'_> {
    fn fmt<W: fmt::Write>(&self, f: &mut fmt::Formatter<W>) -> fmt::Result {
        for b in self.0 {
            write!(f, "{b:02x}")?;
        }
        Ok(())
    }
}

// Five words in hex, each with a space behind it.
impl fmt::Display for Said<[u32; 5]> {
    fn fmt<W: fmt::Write>(&self, f: &mut fmt::Formatter<W>) -> fmt::Result {
        for x in self.0 {
            write!(f, "{x:08x} ")?;
        }
        Ok(())
    }
}

// What came of trying a block's vectors.
impl fmt::Display for Said<Found> {
    fn fmt<W: fmt::Write>(&self, f: &mut fmt::Formatter<W>) -> fmt::Result {
        let Found { by, tried } = self.0;
        match by {
            Some(place) => write!(f, "marked by {place}, tried {tried}"),
            None => write!(f, "unmarked, place 0, tried {tried}"),
        }
    }
}

// A refusal's number, and the place of the record that decides.
impl fmt::Display for Said<Refusal> {
    fn fmt<W: fmt::Write>(&self, f: &mut fmt::Formatter<W>) -> fmt::Result {
        write!(f, "refused {} at {}", self.0.number(), self.0.place())
    }
}

// What a check answers.
impl fmt::Display for Said<Result<(), Refusal>> {
    fn fmt<W: fmt::Write>(&self, f: &mut fmt::Formatter<W>) -> fmt::Result {
        match self.0 {
            Ok(()) => f.write_str("accepted"),
            Err(refusal) => write!(f, "{}", Said(refusal)),
        }
    }
}

impl fmt::Display for Said<Verdict> {
    fn fmt<W: fmt::Write>(&self, f: &mut fmt::Formatter<W>) -> fmt::Result {
        f.write_str(match self.0 {
            Verdict::Ok => "ok",
            Verdict::Mitigated => "mitigated",
            Verdict::Collision => "collision",
        })
    }
}

// The verdict or the refusal.
impl fmt::Display for Said<Result<Verdict, Refusal>> {
    fn fmt<W: fmt::Write>(&self, f: &mut fmt::Formatter<W>) -> fmt::Result {
        match self.0 {
            Ok(verdict) => write!(f, "{}", Said(verdict)),
            Err(refusal) => write!(f, "{}", Said(refusal)),
        }
    }
}

// The verdict and the digest, or the refusal and zeros where the digest would be.
fn write_answer<W: fmt::Write>(
    f: &mut fmt::Formatter<W>,
    outcome: Result<Verdict, Refusal>,
    digest: Option<[u8; DIGEST_SIZE]>,
) -> fmt::Result {
    let digest = digest.unwrap_or([0; DIGEST_SIZE]);
    write!(f, "{} {}", Said(outcome), Hex(&digest))
}

// Of a finish the verdict and the digest alone: what else it gives is written by itself.
impl fmt::Display for Said<Result<Finished, Refusal>> {
    fn fmt<W: fmt::Write>(&self, f: &mut fmt::Formatter<W>) -> fmt::Result {
        let ended = self.0;
        write_answer(f, ended.map(|e| e.verdict), ended.ok().map(|e| e.digest))
    }
}

// The same of the one-shot form.
impl fmt::Display for Said<Result<Digested, Refusal>> {
    fn fmt<W: fmt::Write>(&self, f: &mut fmt::Formatter<W>) -> fmt::Result {
        let ended = self.0;
        write_answer(f, ended.map(|e| e.verdict), ended.ok().map(|e| e.digest))
    }
}

// The first marked block and the place of the vector that marked it.
impl fmt::Display for Said<FirstMark> {
    fn fmt<W: fmt::Write>(&self, f: &mut fmt::Formatter<W>) -> fmt::Result {
        let FirstMark { block, place } = self.0;
        write!(f, "first block {block}, place {place}")
    }
}

// The same, with zeros where no block was marked.
impl fmt::Display for Said<Option<FirstMark>> {
    fn fmt<W: fmt::Write>(&self, f: &mut fmt::Formatter<W>) -> fmt::Result {
        match self.0 {
            Some(first) => write!(f, "{}", Said(first)),
            None => write!(f, "{}", Said(FirstMark { block: 0, place: 0 })),
        }
    }
}

impl fmt::Display for Said<Flags> {
    fn fmt<W: fmt::Write>(&self, f: &mut fmt::Formatter<W>) -> fmt::Result {
        let Flags {
            detect,
            mitigate,
            masks,
            reduced,
        } = self.0;
        let masks = match masks {
            Masks::All => "masks off",
            Masks::Lent => "masks on",
            Masks::Conditions => "conditions",
        };
        write!(
            f,
            "detection {}, mitigation {}, {masks}, reduced rounds {}",
            on_or_off(detect),
            on_or_off(mitigate),
            on_or_off(reduced),
        )
    }
}

fn on_or_off(on: bool) -> &'static str {
    if on { "on" } else { "off" }
}

// Every field of a hasher.
impl fmt::Display for Said<Hasher> {
    fn fmt<W: fmt::Write>(&self, f: &mut fmt::Formatter<W>) -> fmt::Result {
        let h = self.0;
        write!(f, "{}{} ", Said(h.words), Hex(&h.pending))?;
        write!(f, "fill {}, blocks {}, ", h.fill, h.blocks)?;
        write!(f, "mark {}, ", on_or_off(h.mark))?;
        write!(f, "{}, {}", Said(h.first), Said(h.flags))
    }
}
