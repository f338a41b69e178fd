// The library for C: every call over numbers and slices. An answer of several words is written at the start of a lent array, and the
// call gives how many words that is; where the array is shorter it gives 0 and does nothing.
#![tactic(auto)]

ghost use Rattle.std.specs.Prelude.{◌≡◌, [], ◌∷◌};
ghost use Rattle.plane.specs.Plane.{measured, told};
ghost use Rattle.plane.specs.Root.{Root};
ghost use Rattle.verdict.specs.Families.{family_of};
ghost use Rattle.verdict.specs.Rules.{said, verdict};
ghost use Rattle.build.specs.Lent.{counts};
ghost use Rattle.table.specs.Table.{table};
ghost use Rattle.tree.specs.Rules.{check_rules};
ghost use Rattle.tree.specs.Lent.{shape, sides, tree};
ghost use Rattle.found.specs.Search.{searched};
ghost use Rattle.rows.specs.Sheet.{asked};
ghost use Rattle.scan.specs.Read;
ghost use Rattle.scan.specs.Read.{reading, sheet_of, column_after};
ghost use Rattle.answer.specs.Lent.{laid, holding};
ghost use Rattle.reply.specs.Reply.{printed};
ghost use Rattle.words.specs.Words.{family_number, measured_words, verdict_words, found_words, sheet_words};
ghost use Rattle.boundary.specs.Kept.{given, build_leaves, build_words, columns, write_leaves, write_words};
ghost use Rattle.words.specs.Lines.{lines_of};

use build::{Built, Columns};
use scan::Sheet;
use table::Table;
use tree::{Shape, Sides, Tree};
use verdict::Refusal;

// The words of a call that gives one number.
fn number_words(r: Result<u64, Refusal>) -> [u64; 3]
    ensures { result ≡ measured_words (told r) }
{
    match r {
        Ok(number) => [0, 0, number],
        Err(e) => [u64::from(e.reason.code()), e.at as u64, 0],
    }
}

// The words of a check.
fn check_words(r: Result<(), Refusal>) -> [u64; 2]
    ensures { result ≡ verdict_words (said r) }
{
    match r {
        Ok(()) => [0, 0],
        Err(e) => [u64::from(e.reason.code()), e.at as u64],
    }
}

// The words of a sheet that was read.
fn read_words(r: Result<Sheet, Refusal>) -> [u64; 5]
    ensures { result ≡ sheet_words (Read.told r) }
{
    match r {
        Ok(s) => [0, 0, s.places as u64, s.want, u64::from(s.budget)],
        Err(e) => [u64::from(e.reason.code()), e.at as u64, 0, 0, 0],
    }
}

// The words of what the builder gives.
fn built_words(r: Result<Built, Refusal>) -> [u64; 4]
    ensures { result ≡ (said r).code ∷ (said r).at ∷ (counts r).0 ∷ (counts r).1 ∷ [] }
{
    match r {
        Ok(b) => [0, 0, b.nodes as u64, b.listed as u64],
        Err(e) => [u64::from(e.reason.code()), e.at as u64, 0, 0],
    }
}

// The tree that C lends column by column.
fn tree_of<'a>(
    level: &'a [u8],
    start: &'a [u16],
    count: &'a [u8],
    x_lo: &'a [i32],
    x_hi: &'a [i32],
    y_lo: &'a [i32],
    y_hi: &'a [i32],
    kits: &'a [u64],
    entries: &'a [u16],
    nodes: usize,
    listed: usize,
) -> Tree<'a>
    ensures { result ≡ tree (shape nodes listed level.now start.now count.now entries.now) (sides x_lo.now x_hi.now y_lo.now y_hi.now) kits.now }
{
    Tree {
        shape: Shape {
            nodes,
            listed,
            level,
            start,
            count,
            entries,
        },
        sides: Sides {
            x_lo,
            x_hi,
            y_lo,
            y_hi,
        },
        kits,
    }
}

// The greatest whole number whose square is not above n.
#[unsafe(no_mangle)]
pub extern "C" fn longhorbi_root(n: u64) -> u64
    ensures { Root n result }
{
    plane::root(n)
}

// The number of the family of a refusal number: 0 none, 1 query, 2 table, 3 tree, 4 search, 5 room, 6 sheet.
#[tactic(auto, unfolding(words::specs::Words::family_number))]
#[unsafe(no_mangle)]
pub extern "C" fn longhorbi_family(code: u8) -> u8
    ensures { result ≡ family_number (family_of code) }
{
    match verdict::family(code) {
        verdict::From::NoRefusal => 0,
        verdict::From::Query => 1,
        verdict::From::Table => 2,
        verdict::From::Tree => 3,
        verdict::From::Search => 4,
        verdict::From::Room => 5,
        verdict::From::Sheet => 6,
    }
}

// The squared distance of two points, in 3 words: code, at, squared.
#[unsafe(no_mangle)]
pub extern "C" fn longhorbi_squared(ax: i32, ay: i32, bx: i32, by: i32, answer: &mut [u64]) -> usize
    ensures value { result ≡ laid (measured_words (measured ax ay bx by)) answer.old }
    ensures answer_after { answer.new ≡ holding (measured_words (measured ax ay bx by)) answer.old }
{
    if answer.len() < 3 {
        return 0;
    }
    words::lay(&number_words(plane::squared(ax, ay, bx, by)), answer)
}

// The check of a tree against its table, in 2 words: code, at.
#[unsafe(no_mangle)]
pub extern "C" fn longhorbi_check(
    x: &[i32],
    y: &[i32],
    kit: &[u64],
    level: &[u8],
    start: &[u16],
    count: &[u8],
    x_lo: &[i32],
    x_hi: &[i32],
    y_lo: &[i32],
    y_hi: &[i32],
    kits: &[u64],
    entries: &[u16],
    nodes: usize,
    listed: usize,
    answer: &mut [u64],
) -> usize
    ensures value { result ≡ laid (verdict_words (verdict (check_rules (table x.now y.now kit.now) (tree (shape nodes listed level.now start.now count.now entries.now) (sides x_lo.now x_hi.now y_lo.now y_hi.now) kits.now)))) answer.old }
    ensures answer_after { answer.new ≡ holding (verdict_words (verdict (check_rules (table x.now y.now kit.now) (tree (shape nodes listed level.now start.now count.now entries.now) (sides x_lo.now x_hi.now y_lo.now y_hi.now) kits.now)))) answer.old }
{
    if answer.len() < 2 {
        return 0;
    }
    let t = Table { x, y, kit };
    let tree = tree_of(
        level, start, count, x_lo, x_hi, y_lo, y_hi, kits, entries, nodes, listed,
    );
    words::lay(&check_words(inspect::check(&t, &tree)), answer)
}

// Builds the tree of a table in lent columns, in 4 words: code, at, nodes, listed.
#[unsafe(no_mangle)]
pub extern "C" fn longhorbi_build(
    x: &[i32],
    y: &[i32],
    kit: &[u64],
    level: &mut [u8],
    start: &mut [u16],
    count: &mut [u8],
    x_lo: &mut [i32],
    x_hi: &mut [i32],
    y_lo: &mut [i32],
    y_hi: &mut [i32],
    kits: &mut [u64],
    entries: &mut [u16],
    answer: &mut [u64],
) -> usize
    ensures value { result ≡ laid (build_words (table x.now y.now kit.now) (tree (shape 0 0 level.old start.old count.old entries.old) (sides x_lo.old x_hi.old y_lo.old y_hi.old) kits.old)) answer.old }
    ensures answer_after { answer.new ≡ holding (build_words (table x.now y.now kit.now) (tree (shape 0 0 level.old start.old count.old entries.old) (sides x_lo.old x_hi.old y_lo.old y_hi.old) kits.old)) answer.old }
    ensures kits_after { tree (shape 0 0 level.new start.new count.new entries.new) (sides x_lo.new x_hi.new y_lo.new y_hi.new) kits.new ≡ columns (given 4 answer.old (build_leaves (table x.now y.now kit.now) (tree (shape 0 0 level.old start.old count.old entries.old) (sides x_lo.old x_hi.old y_lo.old y_hi.old) kits.old)) (tree (shape 0 0 level.old start.old count.old entries.old) (sides x_lo.old x_hi.old y_lo.old y_hi.old) kits.old)) }
{
    if answer.len() < 4 {
        return 0;
    }
    let t = Table { x, y, kit };
    let into = Columns {
        level,
        start,
        count,
        x_lo,
        x_hi,
        y_lo,
        y_hi,
        kits,
        entries,
    };
    words::lay(&built_words(build::build(&t, into)), answer)
}

// The places that together hold a wanted kit and lie closest, in 13 words: code, at, eight places, squared, steps, known.
#[unsafe(no_mangle)]
pub extern "C" fn longhorbi_search(
    x: &[i32],
    y: &[i32],
    kit: &[u64],
    level: &[u8],
    start: &[u16],
    count: &[u8],
    x_lo: &[i32],
    x_hi: &[i32],
    y_lo: &[i32],
    y_hi: &[i32],
    kits: &[u64],
    entries: &[u16],
    nodes: usize,
    listed: usize,
    want: u64,
    allowance: u32,
    answer: &mut [u64],
) -> usize
    ensures value { result ≡ laid (found_words (searched (table x.now y.now kit.now) (tree (shape nodes listed level.now start.now count.now entries.now) (sides x_lo.now x_hi.now y_lo.now y_hi.now) kits.now) want allowance)) answer.old }
    ensures answer_after { answer.new ≡ holding (found_words (searched (table x.now y.now kit.now) (tree (shape nodes listed level.now start.now count.now entries.now) (sides x_lo.now x_hi.now y_lo.now y_hi.now) kits.now) want allowance)) answer.old }
{
    if answer.len() < 13 {
        return 0;
    }
    let t = Table { x, y, kit };
    let tree = tree_of(
        level, start, count, x_lo, x_hi, y_lo, y_hi, kits, entries, nodes, listed,
    );
    let found = search::search(&t, &tree, want, allowance);
    words::lay(&words::found_words(found), answer)
}

// Writes the sheet of a table, a want and a budget at the start of a lent buffer, in 3 words: code, at, bytes.
#[unsafe(no_mangle)]
pub extern "C" fn longhorbi_write(
    x: &[i32],
    y: &[i32],
    kit: &[u64],
    want: u64,
    budget: u32,
    out: &mut [u8],
    answer: &mut [u64],
) -> usize
    ensures value { result ≡ laid (write_words (asked (table x.now y.now kit.now) want budget) out.old) answer.old }
    ensures answer_after { answer.new ≡ holding (write_words (asked (table x.now y.now kit.now) want budget) out.old) answer.old }
    ensures out_after { out.new ≡ given 3 answer.old (write_leaves (asked (table x.now y.now kit.now) want budget) out.old).1 out.old }
{
    if answer.len() < 3 {
        return 0;
    }
    let t = Table { x, y, kit };
    let written = sheet::write(&t, want, budget, out).map(|bytes| bytes as u64);
    words::lay(&number_words(written), answer)
}

// Reads a sheet into lent columns, in 5 words: code, at, places, want, budget.
#[unsafe(no_mangle)]
pub extern "C" fn longhorbi_read(
    src: &[u8],
    x: &mut [i32],
    y: &mut [i32],
    kit: &mut [u64],
    answer: &mut [u64],
) -> usize
    ensures value { result ≡ laid (sheet_words (sheet_of (reading src.now x.old y.old kit.old))) answer.old }
    ensures answer_after { answer.new ≡ holding (sheet_words (sheet_of (reading src.now x.old y.old kit.old))) answer.old }
    ensures x_after { x.new ≡ given 5 answer.old (column_after (λ h. h.table.x) (reading src.now x.old y.old kit.old) x.old) x.old }
    ensures y_after { y.new ≡ given 5 answer.old (column_after (λ h. h.table.y) (reading src.now x.old y.old kit.old) y.old) y.old }
    ensures kit_after { kit.new ≡ given 5 answer.old (column_after (λ h. h.table.kit) (reading src.now x.old y.old kit.old) kit.old) kit.old }
{
    if answer.len() < 5 {
        return 0;
    }
    let into = scan::Columns { x, y, kit };
    words::lay(&read_words(sheet::read(src, into)), answer)
}

// The lines for the words of a search of a want, at the start of a lent buffer; gives how many bytes they are.
// Where a word is missing or out of range, or the buffer is shorter, it gives 0 and changes nothing.
#[unsafe(no_mangle)]
pub extern "C" fn longhorbi_lines(found: &[u64], want: u64, out: &mut [u8]) -> usize
    ensures value { result ≡ laid (lines_of found.now want) out.old }
    ensures out_after { out.new ≡ holding (lines_of found.now want) out.old }
{
    if !words::is_found(found) {
        return 0;
    }
    answer::lines(words::found_of(found), want, out)
}

// What the program prints for its input, at the start of a lent buffer; gives how many bytes that is.
#[unsafe(no_mangle)]
pub extern "C" fn longhorbi_reply(input: &[u8], out: &mut [u8]) -> usize
    ensures value { result ≡ laid (printed input.now) out.old }
    ensures out_after { out.new ≡ holding (printed input.now) out.old }
{
    reply::reply(input, out)
}
