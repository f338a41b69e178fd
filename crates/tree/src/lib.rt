// The tree over a table: its columns are lent and not trusted. What is read of them here, the check and the builder share.
#![tactic(auto)]

ghost use Rattle.std.specs.Prelude.{◌≡◌, true, false, ◌-◌, ◌<◌, length, get_or};
ghost use Rattle.std.specs.Int.Bits.{bit_or};
ghost use Rattle.plane.specs.Plane.{join_boxes};
ghost use Rattle.plane.specs.Run.{joined};
ghost use Rattle.table.specs.Table.{places};
ghost use Rattle.tree.specs.Tree.{box_at, box_of, kit_of};
ghost use Rattle.tree.specs.Rules.{Room, lengths};
ghost use Rattle.tree.specs.Lent.{sides, Decides, InRun, run_says};

use std::marker::Model;
use table::Table;

// The lent columns of a tree's levels and runs, and its entry list.
#[derive(Drop)]
pub struct Shape<'a> {
    pub nodes: usize,
    pub listed: usize,
    pub level: &'a [u8],
    pub start: &'a [u16],
    pub count: &'a [u8],
    pub entries: &'a [u16],
}

impl<'a> Model for Shape<'a> {
    ghost use Rattle.tree.specs.Tree;
    ghost use Rattle.tree.specs.Lent;

    ghost Value = { Tree.Shape };

    ghost view = { λ s. Lent.shape s.nodes s.listed s.level.now s.start.now s.count.now s.entries.now };
}

// The lent columns of its boxes.
#[derive(Drop)]
pub struct Sides<'a> {
    pub x_lo: &'a [i32],
    pub x_hi: &'a [i32],
    pub y_lo: &'a [i32],
    pub y_hi: &'a [i32],
}

impl<'a> Model for Sides<'a> {
    ghost use Rattle.tree.specs.Tree;
    ghost use Rattle.tree.specs.Lent;

    ghost Value = { Tree.Sides };

    ghost view = { λ b. Lent.sides b.x_lo.now b.x_hi.now b.y_lo.now b.y_hi.now };
}

// A lent tree.
#[derive(Drop)]
pub struct Tree<'a> {
    pub shape: Shape<'a>,
    pub sides: Sides<'a>,
    pub kits: &'a [u64],
}

impl<'a> Model for Tree<'a> {
    ghost use Rattle.tree.specs.Tree;
    ghost use Rattle.tree.specs.Lent;

    ghost Value = { Tree.Tree };

    ghost view = { λ t. Lent.tree t.shape t.sides t.kits.now };
}

// How long the lent columns of a tree are.
#[derive(Drop)]
pub struct Lengths {
    pub level: usize,
    pub start: usize,
    pub count: usize,
    pub entries: usize,
    pub x_lo: usize,
    pub x_hi: usize,
    pub y_lo: usize,
    pub y_hi: usize,
    pub kits: usize,
}

impl<'a> Tree<'a> {
    // Internal: its levels and runs.
    pub fn shape(&self) -> &Shape<'a>
        ensures { result.now ≡ self.now.shape }
    {
        &self.shape
    }

    // Internal: how long its columns are.
    pub fn lengths(&self) -> Lengths
        ensures { result ≡ lengths self.now }
    {
        let s = &self.shape;
        let b = &self.sides;
        Lengths {
            level: s.level.len(),
            start: s.start.len(),
            count: s.count.len(),
            entries: s.entries.len(),
            x_lo: b.x_lo.len(),
            x_hi: b.x_hi.len(),
            y_lo: b.y_lo.len(),
            y_hi: b.y_hi.len(),
            kits: self.kits.len(),
        }
    }
}

// Internal: is no column shorter than its count?
pub fn has_room(nodes: usize, listed: usize, l: Lengths) -> bool
    ensures { Decides result (Room nodes listed l) }
{
    l.level >= nodes
        && l.start >= nodes
        && l.count >= nodes
        && l.entries >= listed
        && l.x_lo >= nodes
        && l.x_hi >= nodes
        && l.y_lo >= nodes
        && l.y_hi >= nodes
        && l.kits >= nodes
}

impl<'a> Sides<'a> {
    // Internal: the columns of a table's points, which are boxes of one point each.
    pub fn of_points(t: &Table<'a>) -> Sides<'a>
        ensures { result ≡ sides t.now.x t.now.x t.now.y t.now.y }
    {
        Sides {
            x_lo: t.x,
            x_hi: t.x,
            y_lo: t.y,
            y_hi: t.y,
        }
    }

    // Internal: the box of a node.
    pub fn box_at(&self, n: usize) -> plane::Box
        requires { (n < length self.now.x_lo) × ((n < length self.now.x_hi) × ((n < length self.now.y_lo) × (n < length self.now.y_hi))) }
        ensures { result ≡ box_at self.now n }
    {
        let x_lo = self.x_lo;
        plane::Box {
            x: plane::Span {
                lo: x_lo[n],
                hi: self.x_hi[n],
            },
            y: plane::Span {
                lo: self.y_lo[n],
                hi: self.y_hi[n],
            },
        }
    }

    // The boxes at the entries of a run, joined.
    fn joined(&self, entries: &[u16], from: usize, count: usize) -> plane::Box
        requires in_run { InRun (length self.now.x_lo) entries.now from count × InRun (length self.now.x_hi) entries.now from count }
        requires in_run_2 { InRun (length self.now.y_lo) entries.now from count × InRun (length self.now.y_hi) entries.now from count }
        ensures { result ≡ joined join_boxes (λ i. box_at self.now (get_or entries.now i 0)) from (count - 1) }
    {
        let mut all = self.box_at(usize::from(entries[from]));
        for i in from + 1..from + count {
            all = plane::box_join(all, self.box_at(usize::from(entries[i])));
        }
        all
    }
}

// Internal: the tightest box around the entries of a run, which are places for a leaf, else nodes.
pub fn run_box(
    leaf: bool,
    t: &Table,
    b: &Sides,
    entries: &[u16],
    from: usize,
    count: usize,
) -> plane::Box
    requires in_run { leaf ≡ true → InRun (length t.now.x) entries.now from count × InRun (length t.now.y) entries.now from count }
    requires in_run_2 { leaf ≡ false → InRun (length b.now.x_lo) entries.now from count × InRun (length b.now.x_hi) entries.now from count }
    requires in_run_3 { leaf ≡ false → InRun (length b.now.y_lo) entries.now from count × InRun (length b.now.y_hi) entries.now from count }
    ensures { result ≡ run_says join_boxes (box_of t.now b.now) leaf entries.now from count }
{
    if leaf {
        Sides::of_points(t).joined(entries, from, count)
    } else {
        b.joined(entries, from, count)
    }
}

// The kit words at the entries of a run, or-ed.
fn joined_kits(kits: &[u64], entries: &[u16], from: usize, count: usize) -> u64
    requires { InRun (length kits.now) entries.now from count }
    ensures { result ≡ joined bit_or (λ i. get_or kits.now (get_or entries.now i 0) 0) from (count - 1) }
{
    let mut all = kits[usize::from(entries[from])];
    for i in from + 1..from + count {
        all |= kits[usize::from(entries[i])];
    }
    all
}

// Internal: the kit words of the entries of a run, or-ed; they are places for a leaf, else nodes.
pub fn run_kit(
    leaf: bool,
    t: &Table,
    kits: &[u64],
    entries: &[u16],
    from: usize,
    count: usize,
) -> u64
    requires in_run { leaf ≡ true → InRun (length t.now.kit) entries.now from count }
    requires in_run_2 { leaf ≡ false → InRun (length kits.now) entries.now from count }
    ensures { result ≡ run_says bit_or (kit_of t.now kits.now) leaf entries.now from count }
{
    joined_kits(if leaf { t.kit } else { kits }, entries, from, count)
}
