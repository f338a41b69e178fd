// The check of a tree: its columns are lent and not trusted; they are held against every rule.
#![tactic(auto)]

ghost use Rattle.std.specs.Prelude.{◌≡◌, [], ◌∷◌, ◌≤◌, length};
ghost use Rattle.table.specs.Table.{Even, places};
ghost use Rattle.verdict.specs.Rules.{Holds, AllHold, said, verdict};
ghost use Rattle.tree.specs.Rules.{lengths, rule21, rules22, rule23, rule25, rule26, tree_rules, check_rules};
ghost use Rattle.tree.specs.Lent.{Columns};

use table::Table;
use tree::Tree;
use verdict::{Reason, Refusal};

// Rule 21, of a tree that is lent whole.
fn counted(places: usize, tree: &Tree) -> Result<(), Refusal>
    requires { places ≤ 4096 }
    ensures { said result ≡ verdict (rule21 places tree.now.shape.nodes tree.now.shape.listed (lengths tree.now) ∷ []) }
{
    let s = &tree.shape;
    shapes::counted(places, s.nodes, s.listed, tree.lengths())
}

// Rule 25: each node's box is the tightest around its entries.
fn boxes(t: &Table, tree: &Tree) -> Result<(), Refusal>
    requires columns { Columns tree.now.shape }
    requires all_hold { AllHold (rules22 tree.now.shape) }
    requires holds { Holds (rule23 (places t.now) tree.now.shape) }
    requires y_len { length t.now.y ≡ places t.now }
    requires x_lo_len { tree.now.shape.nodes ≤ length tree.now.sides.x_lo }
    requires x_hi_len { tree.now.shape.nodes ≤ length tree.now.sides.x_hi }
    requires y_lo_len { tree.now.shape.nodes ≤ length tree.now.sides.y_lo }
    requires y_hi_len { tree.now.shape.nodes ≤ length tree.now.sides.y_hi }
    ensures { said result ≡ verdict (rule25 t.now tree.now.sides tree.now.shape ∷ []) }
{
    let s = &tree.shape;
    let b = &tree.sides;
    for n in 0..s.nodes {
        let from = usize::from(s.start[n]);
        let count = usize::from(s.count[n]);
        let due = tree::run_box(s.level[n] == 1, t, b, s.entries, from, count);
        if b.box_at(n) != due {
            return Err(Refusal {
                reason: Reason::WrongBox,
                at: n,
            });
        }
    }
    Ok(())
}

// Rule 26: each node's kit word is the or of its entries'.
fn kit_words(t: &Table, tree: &Tree) -> Result<(), Refusal>
    requires columns { Columns tree.now.shape }
    requires all_hold { AllHold (rules22 tree.now.shape) }
    requires holds { Holds (rule23 (length t.now.kit) tree.now.shape) }
    requires kits_len { tree.now.shape.nodes ≤ length tree.now.kits }
    ensures { said result ≡ verdict (rule26 t.now tree.now.kits tree.now.shape ∷ []) }
{
    let s = &tree.shape;
    for n in 0..s.nodes {
        let from = usize::from(s.start[n]);
        let count = usize::from(s.count[n]);
        let due = tree::run_kit(s.level[n] == 1, t, tree.kits, s.entries, from, count);
        if tree.kits[n] != due {
            return Err(Refusal {
                reason: Reason::WrongKit,
                at: n,
            });
        }
    }
    Ok(())
}

// The rules 21 to 26, over a table whose columns are even.
fn check_tree(t: &Table, tree: &Tree) -> Result<(), Refusal>
    requires { Even t.now }
    ensures { said result ≡ verdict (tree_rules t.now tree.now) }
{
    let places = t.places();
    let s = tree.shape();
    counted(places, tree)?;
    shapes::runs(s)?;
    shapes::names(places, s)?;
    marks::distinct(s)?;
    boxes(t, tree)?;
    kit_words(t, tree)
}

// Whether a tree meets every rule over a table: 11, 12, 21 to 26, the lowest broken one at its lowest place.
pub fn check(t: &Table, tree: &Tree) -> Result<(), Refusal>
    ensures { said result ≡ verdict (check_rules t.now tree.now) }
{
    table::check(t)?;
    check_tree(t, tree)
}
