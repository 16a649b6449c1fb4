// How many lines of each kind agreed, and which did not.
ghost use Rattle.std.specs.Prelude.{◌≡◌, OnOk, replicate, slice_index};
ghost use Rattle.word.specs.Choice.{pick};
ghost use Rattle.replay_run.specs.Counts.{place, counted, more_at};
ghost use Rattle.replay_run.specs.declared.counts.Counted.TheVariants.{Differences};

use replay_line::{Kind, is_refused};
use std::io::Write;
use std::{fmt, io};

// What lines are counted as: by their kind, refusals of every kind, and what differs or can't be read.
#[derive(Clone, Copy, Debug, PartialEq, Eq)]
pub enum Counted {
    Comments,
    Tables,
    Blocks,
    Hashers,
    Updates,
    Finishes,
    Closings,
    OneShots,
    Resets,
    Refusals,
    Differences,
}

impl Counted {
    const ALL: [Counted; 11] = [
        Counted::Comments,
        Counted::Tables,
        Counted::Blocks,
        Counted::Hashers,
        Counted::Updates,
        Counted::Finishes,
        Counted::Closings,
        Counted::OneShots,
        Counted::Resets,
        Counted::Refusals,
        Counted::Differences,
    ];

    // What a line that is right counts as.
    fn of(kind: Kind, line: &[u8]) -> Counted
        ensures { result ≡ counted kind line.now }
    {
        if is_refused(line) {
            return Counted::Refusals;
        }
        match kind {
            Kind::Comment => Counted::Comments,
            Kind::Table => Counted::Tables,
            Kind::Block => Counted::Blocks,
            Kind::Fresh => Counted::Hashers,
            Kind::Update => Counted::Updates,
            Kind::Finish => Counted::Finishes,
            Kind::FinishReset => Counted::Closings,
            Kind::OneShot => Counted::OneShots,
            Kind::Reset => Counted::Resets,
        }
    }

    fn name(self) -> &'static str {
        match self {
            Counted::Comments => "comments",
            Counted::Tables => "tables",
            Counted::Blocks => "blocks",
            Counted::Hashers => "hashers",
            Counted::Updates => "updates",
            Counted::Finishes => "finishes",
            Counted::Closings => "closings",
            Counted::OneShots => "one-shots",
            Counted::Resets => "resets",
            Counted::Refusals => "refusals",
            Counted::Differences => "differences",
        }
    }
}

// A count for each.
#[derive(Clone, Copy)]
pub struct Counts {
    pub of: [u64; 11],
}

// How many differences are named.
const NAMED: u64 = 20;

impl Counts {
    // The counts before the first line.
    pub(crate) fn none() -> Counts
        ensures { result.of ≡ replicate 11 0 }
    {
        Counts { of: [0; 11] }
    }

    // How many lines were counted so.
    fn lines(&self, what: Counted) -> u64
        ensures { result ≡ slice_index self.now.of (place what) }
    {
        self.of[what as usize]
    }

    // One more. No text is so long that this wraps.
    fn add(&mut self, what: Counted)
        ensures { self.new.of ≡ more_at self.old.of (place what) }
    {
        let count = &mut self.of[what as usize];
        *count = count.wrapping_add(1);
    }

    // A line that is right.
    fn add_right(&mut self, kind: Kind, line: &[u8])
        ensures { self.new.of ≡ more_at self.old.of (place (counted kind line.now)) }
    {
        self.add(Counted::of(kind, line));
    }

    // Line n, which differs; it is named where not too many were.
    pub(crate) fn add_difference<W: Write>(&mut self, out: &mut W, n: usize) -> io::Result<()>
        ensures { OnOk result (self.new.of ≡ more_at self.old.of (place Differences)) }
    {
        if self.lines(Counted::Differences) < NAMED {
            writeln!(out, "line {n} differs")?;
        }
        self.add(Counted::Differences);
        Ok(())
    }

    // Line n, by whether it is right.
    pub(crate) fn add_line<W: Write>(
        &mut self,
        out: &mut W,
        n: usize,
        kind: Kind,
        line: &[u8],
        right: bool,
    ) -> io::Result<()>
        ensures { OnOk result (self.new.of ≡ more_at self.old.of (place (pick right (counted kind line.now) Differences))) }
    {
        if right {
            self.add_right(kind, line);
            return Ok(());
        }
        self.add_difference(out, n)
    }
}

impl fmt::Display for Counts {
    fn fmt<W: fmt::Write>(&self, f: &mut fmt::Formatter<W>) -> fmt::Result {
        for what in Counted::ALL {
            writeln!(f, "{:<12}{}", what.name(), self.lines(what))?;
        }
        Ok(())
    }
}
