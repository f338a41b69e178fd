// The table of places, by columns, and its rules 11 and 12.
#![tactic(auto)]

ghost use Rattle.std.specs.Prelude.{◌≡◌};
ghost use Rattle.verdict.specs.Rules.{said, verdict};
ghost use Rattle.table.specs.Table.{places, table_rules};

use std::marker::Model;
use verdict::{Reason, Refusal};

// The lent columns of a table; clauses see the table that they are.
#[derive(Drop)]
pub struct Table<'a> {
    pub x: &'a [i32],
    pub y: &'a [i32],
    pub kit: &'a [u64],
}

impl<'a> Model for Table<'a> {
    ghost use Rattle.table.specs.Table;

    ghost Value = { Table.Table };

    ghost view = { λ t. Table.table t.x.now t.y.now t.kit.now };
}

impl<'a> Table<'a> {
    // Internal: how many places there are.
    pub fn places(&self) -> usize
        ensures { result ≡ places self.now }
    {
        self.x.len()
    }
}

// Internal: uneven where the columns differ in length or are too long, out of range at the lowest place that is.
pub fn check(t: &Table) -> Result<(), Refusal>
    ensures { said result ≡ verdict (table_rules t.now) }
{
    let places = t.x.len();
    if t.y.len() != places || t.kit.len() != places || places > 4096 {
        return Err(Refusal {
            reason: Reason::UnevenColumns,
            at: 0,
        });
    }
    for p in 0..places {
        if plane::is_off(t.x[p], t.y[p]) {
            return Err(Refusal {
                reason: Reason::OutOfRange,
                at: p,
            });
        }
    }
    Ok(())
}
