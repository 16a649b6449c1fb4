// What is lent to a call: what its flags ask for of the masks and the conditions, and what it refuses.
#![tactic(auto)]

ghost use Rattle.std.specs.Prelude.{◌≡◌, [], drop};
ghost use Rattle.loan.specs.Loan.{loan_of, loan_in, later, looked_at, conditions_for, conditions_refusal, vectors_refusal, loan_refusal};

use conditions::condition_fault;
use flags::{Flags, uses_conditions, uses_masks};
use refusal::Refusal;
use table::table_fault;

// What travels with a call: the table of vectors, the conditions that select among them, and a mask for each block.
#[derive(Clone, Copy)]
pub struct Lent<'a> {
    pub table: &'a [u32],
    pub conditions: &'a [u32],
    pub masks: &'a [u32],
}

impl<'a> Lent<'a> {
    // A table alone: no conditions, and no masks.
    pub fn of_table(table: &'a [u32]) -> Lent<'a>
        ensures { loan_in result ≡ loan_of table.now [] [] }
    {
        Lent {
            table,
            conditions: &[],
            masks: &[],
        }
    }

    // Nothing.
    pub fn nothing() -> Lent<'a>
        ensures { loan_in result ≡ loan_of [] [] [] }
    {
        Lent::of_table(&[])
    }

    // What is wrong with the conditions, where they are asked for.
    fn check_conditions(self, flags: Flags) -> Result<(), Refusal>
        ensures { result ≡ conditions_refusal flags self.entry.conditions.now }
    {
        if uses_conditions(flags) {
            return condition_fault(self.conditions);
        }
        Ok(()) // they are not looked at
    }

    // What is wrong with the table, where it is asked for.
    fn check_table(self, flags: Flags) -> Result<(), Refusal>
        ensures { result ≡ vectors_refusal flags self.entry.table.now }
    {
        if flags.detect {
            return table_fault(self.table);
        }
        Ok(()) // detection is off
    }

    // What a call that compresses so many blocks refuses of it.
    #[tactic(auto, unfolding(crate::specs::Loan::loan_refusal))]
    pub fn check(self, flags: Flags, blocks: usize) -> Result<(), Refusal>
        ensures { result ≡ loan_refusal flags (loan_in self.entry) blocks }
    {
        if uses_masks(flags) && self.masks.len() != blocks {
            return Err(Refusal::MaskCount);
        }
        if blocks == 0 {
            return Ok(()); // a short update must not pay for the tables
        }
        self.check_conditions(flags)?;
        self.check_table(flags)
    }

    // What is left of it for the blocks after the first n.
    pub fn later(self, n: usize) -> Lent<'a>
        ensures { loan_in result ≡ later n (loan_in self.entry) }
    {
        Lent {
            table: self.table,
            conditions: self.conditions,
            masks: self.masks.get(n..).unwrap_or(&[]),
        }
    }

    // The masks that the flags ask for: those lent, or none.
    pub fn looked_at(self, flags: Flags) -> &'a [u32]
        ensures { result.now ≡ looked_at flags self.entry.masks.now }
    {
        if uses_masks(flags) { self.masks } else { &[] }
    }

    // The conditions that they ask for: those lent, or none.
    pub fn conditions_for(self, flags: Flags) -> &'a [u32]
        ensures { result.now ≡ conditions_for flags self.entry.conditions.now }
    {
        if uses_conditions(flags) {
            self.conditions
        } else {
            &[]
        }
    }
}
