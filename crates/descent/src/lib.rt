// From an opened candidate down: it calls itself on the candidate with one member replaced.
#![tactic(auto)]

ghost use Rattle.std.specs.Prelude.{false};
ghost use Rattle.walks.specs.Allowance.{stand};
ghost use Rattle.groups.specs.Members.{wanted, candidate, Few, Passes};
ghost use Rattle.groups.specs.Opening.{Opened, Led};

use members::{Members, Progress, Want};
use table::Table;
use tree::Tree;

// Internal: opens a candidate at its topmost member, for which it puts others in a copy, and takes all that comes of it; says whether
// the allowance was spent.
pub fn descend(
    t: &Table,
    tree: &Tree,
    w: &Want,
    top: usize,
    high: u8,
    c: &Members,
    p: &mut Progress,
) -> bool
    requires passes { Passes t.now tree.now }
    requires few { Few w.now.m w.now.kinds }
    requires opened { Opened t.now tree.now (wanted w.now) w.now.m (candidate w.now.m top high c.now) top p.old.best }
    ensures { Led t.now tree.now (wanted w.now) w.now.allowance w.now.m (candidate w.now.m top high c.now) top (stand p.old.steps false p.old.best) (stand p.new.steps result p.new.best) }
{
    let next = members::next_top(w.m, top);
    let lower = members::next_high(w.m, top, high);
    if lower == 0 {
        return groups::take_groups(t, tree, w, top, c, p);
    }
    let left = members::next_high(w.m, next, lower);
    let shape = &tree.shape;
    let o = groups::open_at(shape, w, top, high, c.numbers[top]);
    let entries = shape.entries;
    let mut below = *c;
    for k in 0..o.many {
        let here = o.first + k;
        if members::holds_at(o.leaf, here, o.kind, t, tree) {
            if !p.take_step(w.allowance) {
                return true;
            }
            let number = entries[here];
            let b = members::box_of(o.leaf, usize::from(number), t, &tree.sides);
            if below.is_near(w.m, top, b, &p.best) {
                below.put(top, number, b);
                if left == 0 {
                    if groups::take_groups(t, tree, w, next, &below, p) {
                        return true;
                    }
                } else if descend(t, tree, w, next, lower, &below, p) {
                    return true;
                }
            }
        }
    }
    false
}
