// The shape of a lent tree held against the rules 21 to 23: its counts, its runs, and what its entries name.
#![tactic(auto)]

ghost use Rattle.std.specs.Prelude.{◌≡◌, List, [], ◌∷◌, ℕ, ◌+◌, ◌≤◌, ◌<◌, eqb, length};
ghost use Rattle.verdict.specs.Rules.{AllHold, said, verdict};
ghost use Rattle.tree.specs.Tree.{end_of, thing};
ghost use Rattle.tree.specs.Rules.{rule21, rules22, rule23, MayName};
ghost use Rattle.tree.specs.Lent;
ghost use Rattle.tree.specs.Lent.{shape, Columns, Decides};

use tree::{Lengths, Shape};
use verdict::{Reason, Refusal};

// Internal: rule 21: the counts go with the table, and no column is too short. No sum wraps for absurd counts.
pub fn counted(places: usize, nodes: usize, listed: usize, lent: Lengths) -> Result<(), Refusal>
    requires { places ≤ 4096 }
    ensures { said result ≡ verdict (rule21 places nodes listed lent ∷ []) }
{
    let wrong = Refusal {
        reason: Reason::WrongCounts,
        at: 0,
    };
    if nodes > 2048 {
        return Err(wrong);
    }
    if nodes == 0 {
        if places != 0 || listed != 0 {
            return Err(wrong);
        }
    } else if places == 0 || listed != places + nodes - 1 {
        return Err(wrong);
    }
    if !tree::has_room(nodes, listed, lent) {
        return Err(wrong);
    }
    Ok(())
}

// Internal: rule 22: each level is 1 to 6, each count 1 to 16, and the runs lie end to end.
pub fn runs(s: &Shape) -> Result<(), Refusal>
    requires { (s.now.nodes ≤ 2048) × ((s.now.nodes ≤ length s.now.level) × ((s.now.nodes ≤ length s.now.start) × (s.now.nodes ≤ length s.now.count))) }
    ensures { (entries : List ℕ) → said result ≡ verdict (rules22 (shape s.now.nodes s.now.listed s.now.level s.now.start s.now.count entries)) }
{
    let nodes = s.nodes;
    let mut due: usize = 0;
    for n in 0..nodes {
        let level = s.level[n];
        let start = usize::from(s.start[n]);
        let count = usize::from(s.count[n]);
        if level < 1 || level > 6 || count < 1 || count > 16 || start != due {
            return Err(Refusal {
                reason: Reason::WrongRuns,
                at: n,
            });
        }
        due += count;
    }
    if due != s.listed {
        return Err(Refusal {
            reason: Reason::WrongRuns,
            at: nodes,
        });
    }
    Ok(())
}

// Internal: the node whose run index i stands in, where the index before stands in the run of n.
pub fn moved(s: &Shape, n: usize, i: usize) -> usize
    requires { (n < length s.now.start) × (n < length s.now.count) }
    ensures { result ≡ Lent.moved (end_of s.now n) n i }
{
    let start = s.start;
    let end = usize::from(start[n]) + usize::from(s.count[n]);
    if i == end { n + 1 } else { n }
}

// May a node of a level name an entry: a place of a leaf, else a node one level lower?
fn may_name(places: usize, s: &Shape, level: usize, e: usize) -> bool
    requires { s.now.nodes ≤ length s.now.level }
    ensures { Decides result (MayName places s.now level (thing (eqb level 1) e)) }
{
    if level == 1 {
        e < places
    } else {
        e >= 1 && e < s.nodes && usize::from(s.level[e]) + 1 == level
    }
}

// Internal: rule 23: each entry names what its node's level allows. The index i stands in the run of n.
pub fn names(places: usize, s: &Shape) -> Result<(), Refusal>
    requires columns { Columns s.now }
    requires all_hold { AllHold (rules22 s.now) }
    ensures { said result ≡ verdict (rule23 places s.now ∷ []) }
{
    let mut n: usize = 0;
    for i in 0..s.listed {
        let e = usize::from(s.entries[i]);
        if !may_name(places, s, usize::from(s.level[n]), e) {
            return Err(Refusal {
                reason: Reason::WrongEntry,
                at: i,
            });
        }
        n = moved(s, n, i + 1);
    }
    Ok(())
}
