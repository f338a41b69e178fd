// The builder: a tree over a table, in lent columns.
#![tactic(auto)]

ghost use Rattle.std.specs.Prelude.{◌≡◌, IfOk};
ghost use Rattle.tree.specs.Rules.{lengths};
ghost use Rattle.verdict.specs.Rules.{said, verdict};
ghost use Rattle.build.specs.Room.{build_rules, Needs, afterwards};
ghost use Rattle.build.specs.Lent.{lent, left, counted};

use fill::Values;
use table::Table;
use tree::{Lengths, Shape};
use verdict::{Reason, Refusal};

// The columns that are lent to the builder.
#[derive(Drop)]
pub struct Columns<'a> {
    pub level: &'a mut [u8],
    pub start: &'a mut [u16],
    pub count: &'a mut [u8],
    pub x_lo: &'a mut [i32],
    pub x_hi: &'a mut [i32],
    pub y_lo: &'a mut [i32],
    pub y_hi: &'a mut [i32],
    pub kits: &'a mut [u64],
    pub entries: &'a mut [u16],
}

impl<'a> Columns<'a> {
    // How long they are.
    fn lengths(&self) -> Lengths
        ensures { result ≡ lengths (lent self.now) }
    {
        Lengths {
            level: self.level.len(),
            start: self.start.len(),
            count: self.count.len(),
            entries: self.entries.len(),
            x_lo: self.x_lo.len(),
            x_hi: self.x_hi.len(),
            y_lo: self.y_lo.len(),
            y_hi: self.y_hi.len(),
            kits: self.kits.len(),
        }
    }
}

// How many nodes and entries the builder's tree has.
#[derive(Clone, Copy)]
pub struct Built {
    pub nodes: usize,
    pub listed: usize,
}

// What the tree needs, or what the builder refuses: the table's faults, then a lent column that is too short.
fn needs(t: &Table, room: Lengths) -> Result<Built, Refusal>
    ensures refused { said result ≡ verdict (build_rules t.now room) }
    ensures needed { IfOk result (λ b. Needs t.now b.nodes b.listed) }
{
    table::check(t)?;
    let nodes = fill::count_nodes(t.x.len());
    let listed = fill::count_listed(t.x.len(), nodes);
    if !tree::has_room(nodes, listed, room) {
        return Err(Refusal {
            reason: Reason::NoRoom,
            at: 0,
        });
    }
    Ok(Built { nodes, listed })
}

// Builds the tree of a table in lent columns: 11, 12, 41; in a refusal nothing lent is changed.
pub fn build(t: &Table, into: Columns) -> Result<Built, Refusal>
    ensures refused { said result ≡ verdict (build_rules t.now (lengths (lent into.entry))) }
    ensures columns_after { counted result (left into.exit) ≡ afterwards (said result).code t.now (lent into.entry) }
{
    let b = needs(t, into.lengths())?;
    let Columns {
        level,
        start,
        count,
        x_lo,
        x_hi,
        y_lo,
        y_hi,
        kits,
        entries,
    } = into;
    fill::fill_runs(t.x.len(), b.nodes, level, start, count);
    fill::fill_entries(t, b.listed, entries);
    let shape = Shape {
        nodes: b.nodes,
        listed: b.listed,
        level,
        start,
        count,
        entries,
    };
    let values = Values {
        x_lo,
        x_hi,
        y_lo,
        y_hi,
        kits,
    };
    fill::fill_values(t, &shape, values);
    Ok(b)
}
