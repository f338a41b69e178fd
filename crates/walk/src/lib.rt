// The whole walk of a want.
#![tactic(auto)]

ghost use Rattle.std.specs.Prelude.{◌≡◌, true};
ghost use Rattle.closest.specs.Walk.{begins, stands_at};
ghost use Rattle.groups.specs.Members.{wanted, Few, Passes};
ghost use Rattle.walk.specs.State.{state_of};

use members::{Best, Members, Progress, Want};
use table::Table;
use tree::Tree;

// Where the walk stands.
#[derive(Drop)]
pub struct State {
    pub steps: u32,
    pub spent: bool,
    pub best: Best,
}

// Internal: the whole walk of a want whose kinds the root holds.
pub fn walk_all(t: &Table, tree: &Tree, w: &Want) -> State
    requires passes { Passes t.now tree.now }
    requires few { Few w.now.m w.now.kinds }
    requires begun { begins t.now tree.now (wanted w.now) ≡ true }
    ensures { result ≡ state_of t.now (stands_at t.now tree.now (wanted w.now) w.now.allowance) }
{
    let mut p = Progress {
        steps: 0,
        best: Best {
            known: false,
            squared: 0,
            places: [0; 8],
        },
    };
    if !p.take_step(w.allowance) {
        return State {
            steps: p.steps,
            spent: true,
            best: p.best,
        };
    }
    let shape = &tree.shape;
    let level = shape.level;
    let roots = Members::alike(0, tree.sides.box_at(0));
    let spent = descent::descend(t, tree, w, 0, level[0], &roots, &mut p);
    State {
        steps: p.steps,
        spent,
        best: p.best,
    }
}
