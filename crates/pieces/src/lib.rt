// The lines of a place sheet, written into a lent buffer one piece after the other.
#![tactic(auto)]

ghost use Rattle.std.specs.Prelude.{◌≡◌, List, ℕ, ◌≤◌, length};
ghost use Rattle.table.specs.Table.{table, places, Even};
ghost use Rattle.print.specs.Puts.{Puts};
ghost use Rattle.print.specs.Wrote.{HasRoom, Wrote};
ghost use Rattle.rows.specs.Sheet.{asked, sheet_bytes};
ghost use Rattle.rows.specs.Pieces.{head_text, place_text, places_text, query_text};

use print::{Bits, Number, Page};
use table::Table;

// The bytes of a place's four lines: 34 beside its three numbers, whatever its kit word.
fn place_size(i: usize, x: i32, y: i32) -> usize
    ensures { (kit : ℕ) → result ≡ length (place_text i x y kit) }
{
    34 + (i as u64).width() + x.width() + y.width()
}

// Internal: the bytes of a sheet: 56 beside its places and two numbers, whatever the kit words and the want.
pub fn size_of(t: &Table, budget: u32) -> usize
    requires { (length t.now.y ≡ places t.now) × (places t.now ≤ 4096) }
    ensures { (kit : List ℕ) (want : ℕ) → length kit ≡ places t.now → result ≡ length (sheet_bytes (asked (table t.now.x t.now.y kit) want budget)) }
{
    let mut size = 56 + (t.x.len() as u64).width() + u64::from(budget).width();
    for (i, x) in t.x.iter().enumerate() {
        size += place_size(i, *x, t.y[i]);
    }
    size
}

// The first two lines.
#[tactic(auto, unfolding(rows::specs::Pieces::head_text))]
fn put_head(page: &mut Page<'_>, places: usize)
    requires { HasRoom page.old (head_text places) }
    ensures { Wrote page.old (head_text places) page.new }
{
    page.put(b"sheet=1\n");
    page.put_line(b"places=", places as u64);
}

// The four lines of place i.
#[tactic(auto, unfolding(rows::specs::Pieces::place_text, rows::specs::Sheet::place_part))]
fn put_place(page: &mut Page<'_>, i: usize, x: i32, y: i32, kit: u64)
    requires { HasRoom page.old (place_text i x y kit) }
    ensures { Wrote page.old (place_text i x y kit) page.new }
{
    page.put_line(b"place=", i as u64);
    page.put_line(b"x=", x);
    page.put_line(b"y=", y);
    page.put_line(b"kit=", Bits(kit));
}

// The lines of all places.
fn put_places(page: &mut Page<'_>, t: &Table)
    requires { Even t.now × HasRoom page.old (places_text t.now (places t.now)) }
    ensures { Wrote page.old (places_text t.now (places t.now)) page.new }
{
    for (i, x) in t.x.iter().enumerate() {
        put_place(page, i, *x, t.y[i], t.kit[i]);
    }
}

// The last three lines.
#[tactic(auto, unfolding(rows::specs::Pieces::query_text, rows::specs::Sheet::query_part))]
fn put_query(page: &mut Page<'_>, want: u64, budget: u32)
    requires { HasRoom page.old (query_text want budget) }
    ensures { Wrote page.old (query_text want budget) page.new }
{
    page.put_line(b"want=", Bits(want));
    page.put_line(b"budget=", u64::from(budget));
    page.put(b"end=sheet\n");
}

// Internal: the whole sheet at the start of a buffer that has room for it; gives how many bytes it has.
pub fn put_sheet(out: &mut [u8], t: &Table, want: u64, budget: u32) -> usize
    requires { Even t.now × (length (sheet_bytes (asked t.now want budget)) ≤ length out.old) }
    ensures { Puts out.old 0 (sheet_bytes (asked t.now want budget)) result out.new }
{
    let mut page = Page { out, at: 0 };
    put_head(&mut page, t.places());
    put_places(&mut page, t);
    put_query(&mut page, want, budget);
    page.at
}
