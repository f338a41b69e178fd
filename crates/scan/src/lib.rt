// The passes over a place sheet: one that only reads, and one that stores its places.
#![tactic(auto)]

ghost use Rattle.std.specs.Prelude.{◌≡◌, List, ℕ, ◌≤◌, length, drop};
ghost use Rattle.lines.specs.Line.{got};
ghost use Rattle.lines.specs.Part.{several};
ghost use Rattle.readers.specs.Readers.{Reads};
ghost use Rattle.rows.specs.Sheet.{place_part, read_sheet};
ghost use Rattle.parts.specs.Parts.{head_part};
ghost use Rattle.scan.specs.Lent.{lent, left, Room};
ghost use Rattle.scan.specs.Read.{passed, Stored, sheet_of, told};

use readers::Line;
use verdict::{Reason, Refusal};

// What a sheet holds beside the places: how many they are, want and budget.
#[derive(Clone, Copy)]
pub struct Sheet {
    pub places: usize,
    pub want: u64,
    pub budget: u32,
}

// The first pass over the places, which begin at `at` and line 3: nothing is stored.
fn places_at(src: &[u8], at: usize, places: usize) -> Result<Line<()>, Refusal>
    requires { (at ≤ length src.now) × (places ≤ 4096) }
    ensures { Reads src.now (passed ((several place_part places 0).read 3 (drop at src.now))) result }
{
    let mut next = at;
    for i in 0..places {
        let place = parts::place_at(src, next, i, 3 + 4 * i)?;
        next = place.next;
    }
    Ok(Line { next, value: () })
}

// The columns that are lent for the places of a sheet.
#[derive(Drop)]
pub struct Columns<'a> {
    pub x: &'a mut [i32],
    pub y: &'a mut [i32],
    pub kit: &'a mut [u64],
}

// Internal: a pass over the places that stores each of them, up to a refusal.
pub fn fill(src: &[u8], at: usize, places: usize, into: Columns) -> Result<Line<()>, Refusal>
    requires at_in_bounds { (at ≤ length src.now) × (places ≤ 4096) }
    requires places_in_bounds { Room places (lent into) }
    ensures read { Reads src.now (passed ((several place_part places 0).read 3 (drop at src.now))) result }
    ensures stored { Stored ((several place_part places 0).read 3 (drop at src.now)) (lent into.entry) (left into.exit) }
{
    let Columns { x, y, kit } = into;
    let mut next = at;
    for i in 0..places {
        let place = parts::place_at(src, next, i, 3 + 4 * i)?;
        x[i] = place.value.x;
        y[i] = place.value.y;
        kit[i] = place.value.kit;
        next = place.next;
    }
    Ok(Line { next, value: () })
}

// Internal: all that follows the places, of which p tells: nothing may follow the query.
pub fn ending(src: &[u8], p: Result<Line<()>, Refusal>, places: usize) -> Result<Sheet, Refusal>
    requires { (r : List ℕ) × ((head_part.read 1 src.now ≡ got places r) × Reads src.now (passed ((several place_part places 0).read 3 r)) p) }
    ensures { told result ≡ sheet_of (read_sheet src.now) }
{
    let next = p?.next;
    let query = parts::query_at(src, next, 3 + 4 * places)?;
    if query.next < src.len() {
        let line = 6 + 4 * places;
        return Err(Refusal {
            reason: Reason::BytesLeft,
            at: line,
        });
    }
    Ok(Sheet {
        places,
        want: query.value.want,
        budget: query.value.budget,
    })
}

// All that follows the head, which ends at `at` and says how many places there are: nothing is stored.
fn rest_at(src: &[u8], at: usize, places: usize) -> Result<Sheet, Refusal>
    requires { (at ≤ length src.now) × (head_part.read 1 src.now ≡ got places (drop at src.now)) }
    ensures { told result ≡ sheet_of (read_sheet src.now) }
{
    ending(src, places_at(src, at, places), places)
}

// The sheet reader: the caller's bytes, and how far it has come.
#[derive(Drop)]
pub struct Reader<'a> {
    pub src: &'a [u8],
    pub at: usize,
}

impl<'a> Reader<'a> {
    // Internal: a reader that stands at the start.
    pub fn new(src: &'a [u8]) -> Reader<'a>
        ensures { (result.src ≡ src.entry) × (result.at ≡ 0) }
    {
        Reader { src, at: 0 }
    }

    // Internal: the reader, come as far as `at`.
    pub fn moved(self, at: usize) -> Reader<'a>
        ensures { (result.src ≡ self.entry.src) × (result.at ≡ at) }
    {
        Reader { src: self.src, at }
    }

    // The head, where the reader stands.
    fn head(self) -> Result<Line<usize>, Refusal>
        requires { self.at ≤ length self.src.now }
        ensures { Reads self.entry.src.now (head_part.read 1 (drop self.entry.at self.entry.src.now)) result }
    {
        parts::head_at(self.src, self.at)
    }

    // All that follows the head, where the reader stands.
    fn rest(self, places: usize) -> Result<Sheet, Refusal>
        requires { (self.at ≤ length self.src.now) × (head_part.read 1 self.src.now ≡ got places (drop self.at self.src.now)) }
        ensures { told result ≡ sheet_of (read_sheet self.entry.src.now) }
    {
        rest_at(self.src, self.at, places)
    }
}

// Internal: the head of a sheet.
pub fn head_of(src: &[u8]) -> Result<Line<usize>, Refusal>
    ensures { Reads src.now (head_part.read 1 src.now) result }
{
    Reader::new(src).head()
}

// All that follows the head of a sheet.
fn rest_of(src: &[u8], at: usize, places: usize) -> Result<Sheet, Refusal>
    requires { (at ≤ length src.now) × (head_part.read 1 src.now ≡ got places (drop at src.now)) }
    ensures { told result ≡ sheet_of (read_sheet src.now) }
{
    Reader::new(src).moved(at).rest(places)
}

// Internal: all of a sheet, of which nothing is stored.
pub fn scan(src: &[u8]) -> Result<Sheet, Refusal>
    ensures { told result ≡ sheet_of (read_sheet src.now) }
{
    let head = head_of(src)?;
    rest_of(src, head.next, head.value)
}
