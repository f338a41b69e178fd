// The columns of our own tree, filled one after the other.
#![tactic(auto)]

ghost use Rattle.std.specs.Prelude.{◌≡◌, ◌++◌, suc, ◌≤◌, ◌<◌, length, drop};
ghost use Rattle.order.specs.Order.{Plotted};
ghost use Rattle.order.specs.Tab.{tab};
ghost use Rattle.table.specs.Table.{places, Even};
ghost use Rattle.levels.specs.Levels;
ghost use Rattle.levels.specs.Levels.{level_at, start_at, count_at, spot_at};
ghost use Rattle.levels.specs.Built.{box_at, kit_at, entries_of};
ghost use Rattle.levels.specs.Laid.{Laid};
ghost use Rattle.fill.specs.Lent.{left};

use table::Table;
use tree::{Shape, Sides};

// Internal: how many nodes there are over n places.
pub fn count_nodes(n: usize) -> usize
    requires { n ≤ 4096 }
    ensures { result ≡ Levels.nodes n }
{
    let mut size = (n + 15) / 16;
    let mut nodes = size;
    while 1 < size {
        size = (size + 15) / 16;
        nodes += size;
    }
    nodes
}

// Internal: how many entries their runs have.
pub fn count_listed(n: usize, nodes: usize) -> usize
    requires { (n ≤ 4096) × (nodes ≡ Levels.nodes n) }
    ensures { result ≡ Levels.listed n }
{
    (n + nodes).saturating_sub(1)
}

// The level and the run of node m over n places.
fn spot_of(n: usize, nodes: usize, m: usize) -> levels::Spot
    requires { (n ≤ 4096) × ((nodes ≡ Levels.nodes n) × (m < nodes)) }
    ensures { result ≡ spot_at n m }
{
    let mut level: u8 = 1;
    let mut below = n;
    let mut end = nodes;
    let mut size = (n + 15) / 16;
    while m < end - size {
        end -= size;
        below = size;
        size = (size + 15) / 16;
        level += 1;
    }
    let rank = m - (end - size);
    let count = (below - 16 * rank).min(16);
    levels::Spot {
        level,
        start: (end + 16 * rank - 1) as u16,
        count: count as u8,
    }
}

// Internal: the columns of levels and runs.
pub fn fill_runs(n: usize, nodes: usize, level: &mut [u8], start: &mut [u16], count: &mut [u8])
    requires n_bound { (n ≤ 4096) × (nodes ≡ Levels.nodes n) }
    requires nodes_in_bounds { (nodes ≤ length level.old) × ((nodes ≤ length start.old) × (nodes ≤ length count.old)) }
    ensures level_after { level.new ≡ tab (level_at n) nodes ++ drop nodes level.old }
    ensures start_after { start.new ≡ tab (start_at n) nodes ++ drop nodes start.old }
    ensures count_after { count.new ≡ tab (count_at n) nodes ++ drop nodes count.old }
{
    for m in 0..nodes {
        let s = spot_of(n, nodes, m);
        level[m] = s.level;
        start[m] = s.start;
        count[m] = s.count;
    }
}

// The entries that name nodes: 1, 2, ..
fn name_nodes(many: usize, entries: &mut [u16])
    requires { (many ≤ 2048) × (many ≤ length entries.old) }
    ensures { entries.new ≡ tab suc many ++ drop many entries.old }
{
    for i in 0..many {
        entries[i] = (i + 1) as u16;
    }
}

// Internal: the entry list: the nodes, then the places in order.
pub fn fill_entries(t: &Table, listed: usize, entries: &mut [u16])
    requires plotted { Plotted t.now.x t.now.y }
    requires listed_value { (listed ≡ Levels.listed (places t.now)) × (listed ≤ length entries.old) }
    ensures { entries.new ≡ entries_of t.now ++ drop (Levels.listed (places t.now)) entries.old }
{
    let named = listed - t.x.len();
    name_nodes(named, entries);
    arrange::write_order(t.x, t.y, entries, named);
}

// The lent columns of the boxes and kit words, to be filled.
#[derive(Drop)]
pub struct Values<'a> {
    pub x_lo: &'a mut [i32],
    pub x_hi: &'a mut [i32],
    pub y_lo: &'a mut [i32],
    pub y_hi: &'a mut [i32],
    pub kits: &'a mut [u64],
}

// Internal: the boxes and kit words of the nodes, from the last to the first: a run names places or later nodes.
pub fn fill_values(t: &Table, shape: &Shape, into: Values)
    requires laid { Laid t.now shape.now }
    requires nodes_value { (shape.now.nodes ≡ Levels.nodes (places t.now)) × Even t.now }
    requires sides_in_bounds { (shape.now.nodes ≤ length into.x_lo.now) × ((shape.now.nodes ≤ length into.x_hi.now) × ((shape.now.nodes ≤ length into.y_lo.now) × (shape.now.nodes ≤ length into.y_hi.now))) }
    requires kits_in_bounds { shape.now.nodes ≤ length into.kits.now }
    ensures x_lo_after { (left into.exit).0.x_lo ≡ tab (λ m. (box_at t.now m).x.lo) shape.now.nodes ++ drop shape.now.nodes into.entry.x_lo.now }
    ensures x_hi_after { (left into.exit).0.x_hi ≡ tab (λ m. (box_at t.now m).x.hi) shape.now.nodes ++ drop shape.now.nodes into.entry.x_hi.now }
    ensures y_lo_after { (left into.exit).0.y_lo ≡ tab (λ m. (box_at t.now m).y.lo) shape.now.nodes ++ drop shape.now.nodes into.entry.y_lo.now }
    ensures y_hi_after { (left into.exit).0.y_hi ≡ tab (λ m. (box_at t.now m).y.hi) shape.now.nodes ++ drop shape.now.nodes into.entry.y_hi.now }
    ensures kits_after { (left into.exit).1 ≡ tab (kit_at t.now) shape.now.nodes ++ drop shape.now.nodes into.entry.kits.now }
{
    let Values {
        x_lo,
        x_hi,
        y_lo,
        y_hi,
        kits,
    } = into;
    let level = shape.level;
    for m in (0..shape.nodes).rev() {
        let leaf = level[m] == 1;
        let from = usize::from(shape.start[m]);
        let many = usize::from(shape.count[m]);
        let sides = Sides {
            x_lo,
            x_hi,
            y_lo,
            y_hi,
        };
        let b = tree::run_box(leaf, t, &sides, shape.entries, from, many);
        kits[m] = tree::run_kit(leaf, t, kits, shape.entries, from, many);
        x_lo[m] = b.x.lo;
        x_hi[m] = b.x.hi;
        y_lo[m] = b.y.lo;
        y_hi[m] = b.y.hi;
    }
}
