// What a search gives: its fields for each way that it ends.
#![tactic(auto)]

ghost use Rattle.std.specs.Prelude.{◌≡◌, ◌≤◌, length};
ghost use Rattle.kit.specs.Kit.{kinds};
ghost use Rattle.table.specs.Table.{Table};
ghost use Rattle.tree.specs.Tree.{Shape, Sides};
ghost use Rattle.closest.specs.Walk.{begins};
ghost use Rattle.tree.specs.Lent.{tree};
ghost use Rattle.verdict.specs.Rules.{said, verdict};
ghost use Rattle.found.specs.Search.{refused, outcome, query_rules};

use verdict::{Reason, Refusal};

// What a search gives.
#[derive(Drop)]
pub struct Found {
    pub code: u8,
    pub at: usize,
    pub places: [u16; 8],
    pub squared: u64,
    pub steps: u32,
    pub known: bool,
}

// Internal: a refused search.
pub fn refuse(code: u8, at: usize) -> Found
    ensures { result ≡ refused code at }
{
    Found {
        code,
        at,
        places: [0u16; 8],
        squared: 0,
        steps: 0,
        known: false,
    }
}

// Internal: what is refused of a want.
pub fn want_fault(want: u64) -> Result<(), Refusal>
    ensures { said result ≡ verdict (query_rules want) }
{
    let many = kit::count_kinds(want);
    if many < 1 {
        return Err(Refusal {
            reason: Reason::NothingWanted,
            at: 0,
        });
    }
    if 8 < many {
        return Err(Refusal {
            reason: Reason::TooManyKinds,
            at: 0,
        });
    }
    Ok(())
}

// Internal: does the root hold every wanted kind?
pub fn root_holds(kits: &[u64], nodes: usize, want: u64) -> bool
    requires { nodes ≤ length kits.now }
    ensures { (t : Table) (s : Shape) (b : Sides) → s.nodes ≡ nodes → result ≡ begins t (tree s b kits.now) (kinds want) }
{
    if nodes == 0 {
        return false;
    }
    kit::holds_all(kits[0], want)
}

// Internal: the answer that a walk ends with.
pub fn outcome_of(s: walk::State) -> Found
    ensures { result ≡ outcome s }
{
    let best = s.best;
    let places = best.places;
    if s.spent {
        return Found {
            code: 32,
            at: 0,
            places,
            squared: best.squared,
            steps: s.steps,
            known: best.known,
        };
    }
    if 8000000000000 < best.squared {
        return refuse(Reason::TooWide.code(), 0);
    }
    Found {
        code: 0,
        at: 0,
        places,
        squared: best.squared,
        steps: s.steps,
        known: best.known,
    }
}
