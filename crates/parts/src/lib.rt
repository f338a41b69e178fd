// The lines of a place sheet, read one part after the other.
#![tactic(auto)]

ghost use Rattle.std.specs.Prelude.{◌≤◌, ◌<◌, length, drop, IfSome};
ghost use Rattle.readers.specs.Readers.{Reads, ReadsAs};
ghost use Rattle.rows.specs.Sheet.{place_part, query_part};
ghost use Rattle.parts.specs.Parts.{head_part, row, pair, PlaceReads};

use readers::Line;
use verdict::{Reason, Refusal};

// A place on a sheet.
#[derive(Clone, Copy)]
pub struct Place {
    pub x: i32,
    pub y: i32,
    pub kit: u64,
}

// What follows the places.
#[derive(Clone, Copy)]
pub struct Query {
    pub want: u64,
    pub budget: u32,
}

// Internal: the lines 1 and 2, which begin at `at`: the place count.
pub fn head_at(src: &[u8], at: usize) -> Result<Line<usize>, Refusal>
    requires { at ≤ length src.now }
    ensures { Reads src.now (head_part.read 1 (drop at src.now)) result }
{
    let sheet = readers::line_word(src, at, 1, b"sheet=", b"1")?;
    let places = readers::line_number(src, sheet.next, 2, b"places=", 4096)?;
    Ok(Line {
        next: places.next,
        value: places.value as usize,
    })
}

// Internal: the query, whose first line is number `line` and begins at `at`.
pub fn query_at(src: &[u8], at: usize, line: usize) -> Result<Line<Query>, Refusal>
    requires { (at ≤ length src.now) × (line ≤ 16390) }
    ensures { ReadsAs pair src.now (query_part.read line (drop at src.now)) result }
{
    let want = readers::line_bits(src, at, line, b"want=")?;
    let budget = readers::line_number(src, want.next, line + 1, b"budget=", u32::MAX)?;
    let end = readers::line_word(src, budget.next, line + 2, b"end=", b"sheet")?;
    Ok(Line {
        next: end.next,
        value: Query {
            want: want.value,
            budget: budget.value,
        },
    })
}

// Place i, whose lines begin at `at`, if they are read in one go: nearly all are.
fn quick_place(src: &[u8], at: usize, i: usize) -> Option<Line<Place>>
    requires { (at ≤ length src.now) × (i < 4096) }
    ensures { IfSome result (λ l. PlaceReads src.now at i l.next (row l.value)) }
{
    let number = quick::quick_number(&src[at..], b"place=", 4095)?;
    if number.value as usize != i {
        return None;
    }
    let east = at + number.count;
    let x = quick::quick_coordinate(&src[east..], b"x=")?;
    let north = east + x.count;
    let y = quick::quick_coordinate(&src[north..], b"y=")?;
    let word = north + y.count;
    let kit = quick::quick_bits(&src[word..], b"kit=")?;
    Some(Line {
        next: word + kit.count,
        value: Place {
            x: x.value,
            y: y.value,
            kit: kit.value,
        },
    })
}

// The same, line by line: what is refused, and where.
fn careful_place(src: &[u8], at: usize, i: usize, line: usize) -> Result<Line<Place>, Refusal>
    requires { (at ≤ length src.now) × ((i < 4096) × (line ≤ 16390)) }
    ensures { ReadsAs row src.now ((place_part i).read line (drop at src.now)) result }
{
    let number = readers::line_number(src, at, line, b"place=", 4095)?;
    if number.value as usize != i {
        return Err(Refusal {
            reason: Reason::NotInForm,
            at: line,
        });
    }
    let x = readers::line_coordinate(src, number.next, line + 1, b"x=")?;
    let y = readers::line_coordinate(src, x.next, line + 2, b"y=")?;
    let kit = readers::line_bits(src, y.next, line + 3, b"kit=")?;
    Ok(Line {
        next: kit.next,
        value: Place {
            x: x.value,
            y: y.value,
            kit: kit.value,
        },
    })
}

// Internal: place i, whose first line is number `line` and begins at `at`.
pub fn place_at(src: &[u8], at: usize, i: usize, line: usize) -> Result<Line<Place>, Refusal>
    requires { (at ≤ length src.now) × ((i < 4096) × (line ≤ 16390)) }
    ensures { ReadsAs row src.now ((place_part i).read line (drop at src.now)) result }
{
    match quick_place(src, at, i) {
        Some(place) => Ok(place),
        None => careful_place(src, at, i, line),
    }
}
