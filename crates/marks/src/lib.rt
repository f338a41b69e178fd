// The shape of a lent tree held against rule 24: nothing is named twice.
#![tactic(auto)]

ghost use Rattle.std.specs.Prelude.{◌≡◌, [], ◌∷◌, ◌<◌, false, replicate};
ghost use Rattle.verdict.specs.Rules.{Holds, AllHold, said, verdict};
ghost use Rattle.tree.specs.Rules.{rules22, rule23, rule24};
ghost use Rattle.tree.specs.Lent;
ghost use Rattle.tree.specs.Lent.{Decides, Columns};

use tree::Shape;
use verdict::{Reason, Refusal};

// Rule 24: nothing is named twice. The index i stands in the run of n, and j in the run of m.
fn repeats(s: &Shape) -> Result<(), Refusal>
    requires columns { Columns s.now }
    requires all_hold { AllHold (rules22 s.now) }
    ensures { said result ≡ verdict (rule24 s.now ∷ []) }
{
    let mut repeated = None;
    let mut n: usize = 0;
    'search: for i in 0..s.listed {
        let e = s.entries[i];
        let leaf = s.level[n] == 1;
        let mut m: usize = 0;
        for j in 0..i {
            if s.entries[j] == e && (s.level[m] == 1) == leaf {
                repeated = Some(i);
                break 'search;
            }
            m = shapes::moved(s, m, j + 1);
        }
        n = shapes::moved(s, n, i + 1);
    }
    match repeated {
        Some(at) => Err(Refusal {
            reason: Reason::NamedTwice,
            at,
        }),
        None => Ok(()),
    }
}

// The mark of a thing: places first, then nodes.
fn mark_of(leaf: bool, e: usize) -> usize
    requires { e < 4096 }
    ensures { result ≡ Lent.mark_of leaf e }
{
    if leaf { e } else { 4096 + e }
}

// Is nothing named twice? One pass, with a mark for each thing.
fn marked_once(s: &Shape, seen: &mut [bool]) -> bool
    requires columns { Columns s.now }
    requires all_hold { AllHold (rules22 s.now) }
    requires holds { Holds (rule23 4096 s.now) }
    requires seen_value { seen.old ≡ replicate 6144 false }
    ensures { Decides result (Holds (rule24 s.now)) }
{
    let mut n: usize = 0;
    for i in 0..s.listed {
        let k = mark_of(s.level[n] == 1, usize::from(s.entries[i]));
        if seen[k] {
            return false;
        }
        seen[k] = true;
        n = shapes::moved(s, n, i + 1);
    }
    true
}

// Rule 24 in linear work: is nothing named twice?
fn named_once(s: &Shape) -> bool
    requires columns { Columns s.now }
    requires all_hold { AllHold (rules22 s.now) }
    requires holds { Holds (rule23 4096 s.now) }
    ensures { Decides result (Holds (rule24 s.now)) }
{
    let mut seen = [false; 6144];
    marked_once(s, &mut seen)
}

// Internal: rule 24: the marks say whether anything is named twice, and the nested loops where.
pub fn distinct(s: &Shape) -> Result<(), Refusal>
    requires columns { Columns s.now }
    requires all_hold { AllHold (rules22 s.now) }
    requires holds { Holds (rule23 4096 s.now) }
    ensures { said result ≡ verdict (rule24 s.now ∷ []) }
{
    if named_once(s) { Ok(()) } else { repeats(s) }
}
