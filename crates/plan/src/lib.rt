// What the program's arguments ask, by what fetching them answered.
#![tactic(auto)]

ghost use Rattle.std.specs.Prelude.{◌≡◌};
ghost use Rattle.plan.specs.Given.{argument_given, kind_read, kind_given, nothing_planned, plan_with, plan_flags};

use arguments::{ArgumentKind, kind_of};
use flags::{Flags, Masks};
use line::Failure;
use std::env::FillError;

// What the arguments so far ask, each of them known and none repeated.
#[derive(Clone, Copy, Debug, PartialEq, Eq)]
pub struct Plan {
    // The place of the argument that names the table.
    pub table: Option<usize>,
    // Whether mitigation is off.
    pub raw: bool,
}

// The kind of an argument, by what fetching it answered. One that is too long is none of ours, or names a path that no file
// can have.
pub fn kind_read(arg: Result<&[u8], FillError>) -> ArgumentKind
    ensures { result ≡ kind_read (argument_given arg.entry) }
{
    match arg {
        Ok(bytes) => kind_of(bytes),
        Err(_) => ArgumentKind::Unknown,
    }
}

// The same where there may be no such argument: there is none only where fetching it says so.
pub fn kind_given(arg: Result<&[u8], FillError>) -> Option<ArgumentKind>
    ensures { result ≡ kind_given arg.entry }
{
    match arg {
        Err(FillError::NotPresent) => None,
        fetched => Some(kind_read(fetched)),
    }
}

impl Plan {
    // Before the first argument.
    pub fn new() -> Plan
        ensures { result ≡ nothing_planned }
    {
        Plan {
            table: None,
            raw: false,
        }
    }

    // One argument more, at place i. An unknown or repeated one is said before all others.
    pub fn with(self, kind: ArgumentKind, i: usize) -> Result<Plan, Failure>
        ensures { result ≡ plan_with self kind i }
    {
        match kind {
            ArgumentKind::Table if self.table.is_none() => Ok(Plan {
                table: Some(i),
                raw: self.raw,
            }),
            ArgumentKind::Raw if !self.raw => Ok(Plan {
                table: self.table,
                raw: true,
            }),
            _ => Err(Failure::Unread),
        }
    }

    // The hasher's flags: detection where a table is named.
    pub fn flags(self) -> Flags
        ensures { result ≡ plan_flags self }
    {
        Flags {
            detect: self.table.is_some(),
            mitigate: !self.raw,
            masks: Masks::All,
            reduced: false,
        }
    }
}
