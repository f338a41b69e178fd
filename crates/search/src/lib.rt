// The search: the checks in order, then the walk.
#![tactic(auto)]

ghost use Rattle.std.specs.Prelude.{◌≡◌};
ghost use Rattle.verdict.specs.Rules.{said, verdict};
ghost use Rattle.groups.specs.Members.{Passes};
ghost use Rattle.found.specs.Search.{search_rules, searched};

use found::Found;
use members::Want;
use table::Table;
use tree::Tree;
use verdict::{Reason, Refusal};

// What is refused before the walk: the want, then the table, then the tree.
fn fault(t: &Table, tree: &Tree, want: u64) -> Result<(), Refusal>
    ensures { said result ≡ verdict (search_rules t.now tree.now want) }
{
    found::want_fault(want)?;
    inspect::check(t, tree)
}

// Internal: the search over a table and a tree that pass the check.
pub fn search_over(t: &Table, tree: &Tree, want: u64, allowance: u32) -> Found
    requires { Passes t.now tree.now }
    ensures { result ≡ searched t.now tree.now want allowance }
{
    if let Err(r) = found::want_fault(want) {
        return found::refuse(r.reason.code(), r.at);
    }
    let shape = &tree.shape;
    if !found::root_holds(tree.kits, shape.nodes, want) {
        return found::refuse(Reason::NoGroup.code(), 0);
    }
    let l = kit::list_kinds(want);
    let kinds = l.kinds;
    let w = Want {
        kinds,
        m: l.count,
        allowance,
    };
    found::outcome_of(walk::walk_all(t, tree, &w))
}

// The places that together hold a wanted kit and lie closest: 1, 2, 11, 12, 21 to 26, 31, 32, 33.
pub fn search(t: &Table, tree: &Tree, want: u64, allowance: u32) -> Found
    ensures { result ≡ searched t.now tree.now want allowance }
{
    if let Err(r) = fault(t, tree, want) {
        return found::refuse(r.reason.code(), r.at);
    }
    search_over(t, tree, want, allowance)
}
