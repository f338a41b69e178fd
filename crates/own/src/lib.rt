// The search of a table over our own tree, which is built for it.
#![tactic(auto)]

ghost use Rattle.std.specs.Prelude.{◌≡◌};
ghost use Rattle.table.specs.Table.{Valid};
ghost use Rattle.levels.specs.Built.{built};
ghost use Rattle.found.specs.Search.{searched};
ghost use Rattle.own.specs.Own.{held, Wide};

use build::{Built, Columns};
use found::Found;
use table::Table;
use tree::{Shape, Sides, Tree};

// Columns with room for the tree of any table.
#[derive(Drop)]
struct Room {
    level: [u8; 273],
    start: [u16; 273],
    count: [u8; 273],
    x_lo: [i32; 273],
    x_hi: [i32; 273],
    y_lo: [i32; 273],
    y_hi: [i32; 273],
    kits: [u64; 273],
    entries: [u16; 4368],
}

impl Room {
    // Builds our tree.
    fn build(&mut self, t: &Table) -> Built
        requires { Valid t.now }
        ensures tree_after { held result self.new ≡ built t.now }
        ensures wide { Wide result }
    {
        let columns = Columns {
            level: &mut self.level,
            start: &mut self.start,
            count: &mut self.count,
            x_lo: &mut self.x_lo,
            x_hi: &mut self.x_hi,
            y_lo: &mut self.y_lo,
            y_hi: &mut self.y_hi,
            kits: &mut self.kits,
            entries: &mut self.entries,
        };
        match build::build(t, columns) {
            Ok(b) => b,
            Err(_) => unreachable!(),
        }
    }

    // The part that is used.
    fn tree(&self, b: Built) -> Tree
        requires { Wide b }
        ensures { result ≡ held b self.now }
    {
        Tree {
            shape: Shape {
                nodes: b.nodes,
                listed: b.listed,
                level: &self.level[..b.nodes],
                start: &self.start[..b.nodes],
                count: &self.count[..b.nodes],
                entries: &self.entries[..b.listed],
            },
            sides: Sides {
                x_lo: &self.x_lo[..b.nodes],
                x_hi: &self.x_hi[..b.nodes],
                y_lo: &self.y_lo[..b.nodes],
                y_hi: &self.y_hi[..b.nodes],
            },
            kits: &self.kits[..b.nodes],
        }
    }
}

// Internal: the search over our tree of a table.
pub fn search_table(t: &Table, want: u64, allowance: u32) -> Found
    requires { Valid t.now }
    ensures { result ≡ searched t.now (built t.now) want allowance }
{
    let mut room = Room {
        level: [0; 273],
        start: [0; 273],
        count: [0; 273],
        x_lo: [0; 273],
        x_hi: [0; 273],
        y_lo: [0; 273],
        y_hi: [0; 273],
        kits: [0; 273],
        entries: [0; 4368],
    };
    let b = room.build(t);
    search::search_over(t, &room.tree(b), want, allowance)
}
