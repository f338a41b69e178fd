// The members of a candidate, in columns of eight: which is topmost, how far they lie apart, and the group that they are.
#![tactic(auto)]

ghost use Rattle.std.specs.Prelude.{◌≡◌, true, false, cond, List, ℕ, ℤ, ◌≤◌, ◌<◌, max, length, take, drop, get_or, set, IfSome};
ghost use Rattle.plane.specs.Plane.{Ranged};
ghost use Rattle.kit.specs.Kit.{held, padded};
ghost use Rattle.table.specs.Table.{table};
ghost use Rattle.tree.specs.Tree.{thing, kit_of, box_at, box_of};
ghost use Rattle.closest.specs.Group.{farthest, spread};
ghost use Rattle.members.specs.Boxes.{without, skip, AllRanged, boxes_at, UpTo};
ghost use Rattle.members.specs.Columns.{sides_of, with_member, eight_of};
ghost use Rattle.members.specs.Levels.{next_top, next_high};
ghost use Rattle.members.specs.Best.{best_at, limit_of, near, improved, Stepped};

use table::Table;
use tree::{Sides, Tree};

// The best group known. While none is, the walk keeps what stands beside the flag as it is and does not ask for it; `found::outcome_of`
// hands it on.
#[derive(Clone, Copy)]
pub struct Best {
    pub known: bool,
    pub squared: u64,
    pub places: [u16; 8],
}

// How far a walk has come: the steps that it took, and the best group that it knows.
#[derive(Drop)]
pub struct Progress {
    pub steps: u32,
    pub best: Best,
}

// What a walk is asked for: the first m of eight kinds, within an allowance of steps.
#[derive(Clone, Copy)]
pub struct Want {
    pub kinds: [u8; 8],
    pub m: usize,
    pub allowance: u32,
}

// The numbers and the boxes of a candidate's members, by columns; behind its members they are never read.
#[derive(Clone, Copy)]
pub struct Members {
    pub numbers: [u16; 8],
    pub west: [i32; 8],
    pub east: [i32; 8],
    pub south: [i32; 8],
    pub north: [i32; 8],
}

// Internal: the leftmost of the highest of m members, once `top`, which was, is replaced.
pub fn next_top(m: usize, top: usize) -> usize
    requires { (m ≤ 8) × (top < m) }
    ensures { result ≡ next_top m top }
{
    if top + 1 < m { top + 1 } else { 0 }
}

// Internal: its level.
pub fn next_high(m: usize, top: usize, high: u8) -> u8
    requires { (m ≤ 8) × ((top < m) × (0 < high)) }
    ensures { result ≡ next_high m top high }
{
    if top + 1 < m { high } else { high - 1 }
}

// Where element k of a list without its element i stands in the whole list.
fn skipping(i: usize, k: usize) -> usize
    requires { k < 8 }
    ensures { result ≡ skip i k }
{
    if k < i { k } else { k + 1 }
}

impl Members {
    // Internal: eight members of one number and one box.
    pub fn alike(number: u16, b: plane::Box) -> Members
        ensures { result ≡ eight_of number b }
    {
        Members {
            numbers: [number; 8],
            west: [b.x.lo; 8],
            east: [b.x.hi; 8],
            south: [b.y.lo; 8],
            north: [b.y.hi; 8],
        }
    }

    // The box of member i.
    fn box_at(&self, i: usize) -> plane::Box
        requires { i < 8 }
        ensures { result ≡ box_at (sides_of self.now) i }
    {
        plane::Box {
            x: plane::Span {
                lo: self.west[i],
                hi: self.east[i],
            },
            y: plane::Span {
                lo: self.south[i],
                hi: self.north[i],
            },
        }
    }

    // Internal: member i is replaced by one of a number and a box.
    pub fn put(&mut self, i: usize, number: u16, b: plane::Box)
        requires { i < 8 }
        ensures { self.new ≡ with_member self.old i number b }
    {
        self.numbers[i] = number;
        self.west[i] = b.x.lo;
        self.east[i] = b.x.hi;
        self.south[i] = b.y.lo;
        self.north[i] = b.y.hi;
    }

    // Internal: the largest squared distance of b and any of m boxes but box i; once it is above the limit, the rest is not looked at.
    pub fn row_of(&self, m: usize, i: usize, b: plane::Box, limit: u64) -> u64
        requires m_bound { (m ≤ 8) × (i < m) }
        requires all_ranged { AllRanged (take m (boxes_at (sides_of self.now))) × Ranged b }
        ensures { UpTo limit (farthest b (without i (take m (boxes_at (sides_of self.now))))) result }
    {
        let mut most: u64 = 0;
        for k in 0..m - 1 {
            let c = self.box_at(skipping(i, k));
            most = most.max(plane::apart_of(b, c));
            if limit < most {
                return most;
            }
        }
        most
    }

    // Internal: is b no farther than the best known from each of m boxes but box i? While no group is known, nothing is too far.
    pub fn is_near(&self, m: usize, i: usize, b: plane::Box, best: &Best) -> bool
        requires m_bound { (m ≤ 8) × (i < m) }
        requires all_ranged { AllRanged (take m (boxes_at (sides_of self.now))) × Ranged b }
        ensures { result ≡ near best.now.known best.now.squared (farthest b (without i (take m (boxes_at (sides_of self.now))))) }
    {
        if !best.known {
            return true;
        }
        let squared = best.squared;
        for k in 0..m - 1 {
            let c = self.box_at(skipping(i, k));
            if squared < plane::apart_of(b, c) {
                return false;
            }
        }
        true
    }

    // The larger of `least` and the largest squared distance of b and any of m boxes but box i, without the first `from` of these.
    fn farthest_of(&self, m: usize, i: usize, from: usize, b: plane::Box, least: u64) -> u64
        requires m_bound { (m ≤ 8) × ((i < m) × (from < m)) }
        requires all_ranged { AllRanged (take m (boxes_at (sides_of self.now))) × Ranged b }
        ensures { result ≡ max least (farthest b (drop from (without i (take m (boxes_at (sides_of self.now)))))) }
    {
        let mut most = least;
        for k in from..m - 1 {
            let c = self.box_at(skipping(i, k));
            most = most.max(plane::apart_of(b, c));
        }
        most
    }

    // The largest squared distance of any two of m boxes but box i.
    fn spread_of(&self, m: usize, i: usize) -> u64
        requires m_bound { (m ≤ 8) × (i < m) }
        requires all_ranged { AllRanged (take m (boxes_at (sides_of self.now))) }
        ensures { result ≡ spread (without i (take m (boxes_at (sides_of self.now)))) }
    {
        let mut most: u64 = 0;
        for k in 0..m - 1 {
            let b = self.box_at(skipping(i, k));
            most = self.farthest_of(m, i, k + 1, b, most);
        }
        most
    }

    // Internal: the same, which may be known.
    pub fn rest_of(&self, m: usize, i: usize, rest: Option<u64>) -> u64
        requires m_bound { (m ≤ 8) × (i < m) }
        requires all_ranged { AllRanged (take m (boxes_at (sides_of self.now))) }
        requires rest_value { IfSome rest (λ r. r ≡ spread (without i (take m (boxes_at (sides_of self.now))))) }
        ensures { result ≡ spread (without i (take m (boxes_at (sides_of self.now)))) }
    {
        match rest {
            Some(r) => r,
            None => self.spread_of(m, i),
        }
    }

    // Internal: the group of m places in which p is place i; 0 behind it.
    pub fn group_with(&self, m: usize, i: usize, p: u16) -> [u16; 8]
        requires { (m ≤ 8) × (i < m) }
        ensures { result ≡ padded (take m (set self.now.numbers i p)) }
    {
        let mut places = [0u16; 8];
        for j in 0..m {
            places[j] = self.numbers[j];
        }
        places[i] = p;
        places
    }
}

impl Progress {
    // Internal: takes a step, if the allowance has one left.
    pub fn take_step(&mut self, allowance: u32) -> bool
        ensures stepped { Stepped allowance self.old.steps result self.new.steps }
        ensures kept { self.new.best ≡ self.old.best }
    {
        if allowance <= self.steps {
            return false;
        }
        self.steps += 1;
        true
    }

    // Internal: the square above which a candidate is dropped; while no group is known, the largest number, which nothing is above.
    pub fn limit(&self) -> u64
        ensures { result ≡ limit_of self.now.best.known self.now.best.squared }
    {
        let best = &self.best;
        if best.known { best.squared } else { u64::MAX }
    }

    // Is a group of this squared diameter better than the best known?
    fn is_better(&self, squared: u64, places: &[u16; 8]) -> bool
        ensures { improved places.now squared self.now.best ≡ cond result (best_at true squared places.now) self.now.best }
    {
        let best = &self.best;
        if !best.known {
            return true;
        }
        squared < best.squared || squared == best.squared && *places < best.places
    }

    // Internal: a group becomes the best known if it is better.
    pub fn offer(&mut self, squared: u64, places: [u16; 8])
        ensures best { self.new.best ≡ improved places squared self.old.best }
        ensures steps { self.new.steps ≡ self.old.steps }
    {
        if self.is_better(squared, &places) {
            self.best = Best {
                known: true,
                squared,
                places,
            };
        }
    }
}

impl Want {
    // Internal: the kind in place i of a want.
    pub fn kind_at(&self, i: usize) -> usize
        ensures { result ≡ get_or self.now.kinds i 0 }
    {
        match self.kinds.get(i) {
            Some(kind) => usize::from(*kind),
            None => 0,
        }
    }
}

// Internal: the box of an entry: of a place for a leaf, else of a node.
pub fn box_of(leaf: bool, e: usize, t: &Table, b: &Sides) -> plane::Box
    requires e_in_bounds { leaf ≡ true → (e < length t.now.x) × (e < length t.now.y) }
    requires e_in_bounds_2 { leaf ≡ false → (e < length b.now.x_lo) × ((e < length b.now.x_hi) × ((e < length b.now.y_lo) × (e < length b.now.y_hi))) }
    ensures { (kit : List ℕ) → result ≡ box_of (table t.now.x t.now.y kit) b.now (thing leaf e) }
{
    if leaf {
        return Sides::of_points(t).box_at(e);
    }
    b.box_at(e)
}

// The kit word of an entry.
fn kit_at(leaf: bool, e: usize, t: &Table, kits: &[u64]) -> u64
    requires e_in_bounds { leaf ≡ true → e < length t.now.kit }
    requires e_in_bounds_2 { leaf ≡ false → e < length kits.now }
    ensures { (x y : List ℤ) → result ≡ kit_of (table x y t.now.kit) kits.now (thing leaf e) }
{
    let kit = if leaf { t.kit } else { kits };
    kit[e]
}

// Internal: does the entry at list index i hold a kind?
pub fn holds_at(leaf: bool, i: usize, kind: usize, t: &Table, tree: &Tree) -> bool
    requires i_in_bounds { (i < length tree.now.shape.entries) × (kind < 64) }
    requires i_in_bounds_2 { leaf ≡ true → get_or tree.now.shape.entries i 0 < length t.now.kit }
    requires i_in_bounds_3 { leaf ≡ false → get_or tree.now.shape.entries i 0 < length tree.now.kits }
    ensures { (x y : List ℤ) → result ≡ held (kit_of (table x y t.now.kit) tree.now.kits (thing leaf (get_or tree.now.shape.entries i 0))) kind }
{
    let shape = &tree.shape;
    let entries = shape.entries;
    let e = usize::from(entries[i]);
    kit::holds(kit_at(leaf, e, t, tree.kits), kind)
}
