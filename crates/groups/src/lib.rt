// A candidate that is opened, and the groups that come of it.
#![tactic(auto)]

ghost use Rattle.std.specs.Prelude.{◌≡◌, false, ◌+◌, ◌<◌, eqb, length, get_or};
ghost use Rattle.walks.specs.Allowance.{stand};
ghost use Rattle.groups.specs.Members.{wanted, candidate, Few, Passes};
ghost use Rattle.groups.specs.Opening.{Opened, Led};

use members::{Members, Progress, Want};
use table::Table;
use tree::{Shape, Sides, Tree};

// What is kept of an opened candidate.
#[derive(Drop)]
pub struct Opening {
    pub top: usize,
    pub node: usize,
    pub kind: usize,
    pub leaf: bool,
    pub first: usize,
    pub many: usize,
}

// Internal: opens a candidate at a member, of which it keeps what the run needs.
pub fn open_at(shape: &Shape, w: &Want, top: usize, level: u8, number: u16) -> Opening
    requires { (number < length shape.now.start) × (number < length shape.now.count) }
    ensures { result ≡ record { top = top; node = number; kind = get_or w.now.kinds top 0; leaf = eqb level 1; first = get_or shape.now.start number 0; many = get_or shape.now.count number 0 } }
{
    let start = shape.start;
    let n = usize::from(number);
    Opening {
        top,
        node: n,
        kind: w.kind_at(top),
        leaf: level == 1,
        first: usize::from(start[n]),
        many: usize::from(shape.count[n]),
    }
}

// Internal: opens a candidate at its last member, a leaf, where the others are places, and takes the groups that come of it; says whether the allowance was spent.
pub fn take_groups(
    t: &Table,
    tree: &Tree,
    w: &Want,
    top: usize,
    c: &Members,
    p: &mut Progress,
) -> bool
    requires passes { Passes t.now tree.now }
    requires few { Few w.now.m w.now.kinds × (top + 1 ≡ w.now.m) }
    requires opened { Opened t.now tree.now (wanted w.now) w.now.m (candidate w.now.m top 1 c.now) top p.old.best }
    ensures { Led t.now tree.now (wanted w.now) w.now.allowance w.now.m (candidate w.now.m top 1 c.now) top (stand p.old.steps false p.old.best) (stand p.new.steps result p.new.best) }
{
    let shape = &tree.shape;
    let o = open_at(shape, w, top, 1, c.numbers[top]);
    let entries = shape.entries;
    let points = Sides::of_points(t);
    let kit = t.kit;
    let mut rest = None;
    for k in 0..o.many {
        let number = entries[o.first + k];
        let e = usize::from(number);
        if kit::holds(kit[e], o.kind) {
            if !p.take_step(w.allowance) {
                return true;
            }
            let limit = p.limit();
            let row = c.row_of(w.m, top, points.box_at(e), limit);
            if row <= limit {
                let others = c.rest_of(w.m, top, rest);
                rest = Some(others);
                p.offer(others.max(row), c.group_with(w.m, top, number));
            }
        }
    }
    false
}
