// The place sheet: written into a lent buffer, and read into lent columns.
#![tactic(auto)]

ghost use Rattle.std.specs.Prelude.{◌≡◌, length};
ghost use Rattle.verdict.specs.Rules.{said, verdict};
ghost use Rattle.rows.specs.Sheet.{asked, read_sheet};
ghost use Rattle.scan.specs.Lent.{lent, left, Room};
ghost use Rattle.scan.specs.Read.{reading_in, sheet_of, told, columns_after, Taken};
ghost use Rattle.sheet.specs.Write.{write_rules, written, afterwards};

use scan::{Columns, Sheet};
use table::Table;
use verdict::{Reason, Refusal};

// Writes the sheet of a table, a want and a budget at the start of a lent buffer, and gives its bytes: 11, 12, 54; in a refusal nothing is changed.
// 70 bytes and 54 for each place are always enough: 221,254 for a full table.
pub fn write(t: &Table, want: u64, budget: u32, out: &mut [u8]) -> Result<usize, Refusal>
    ensures refused { said result ≡ verdict (write_rules (asked t.now want budget) (length out.old)) }
    ensures out_after { (written result, out.new) ≡ afterwards (said result).code (asked t.now want budget) out.old }
{
    table::check(t)?;
    if out.len() < pieces::size_of(t, budget) {
        return Err(Refusal {
            reason: Reason::TooShort,
            at: 0,
        });
    }
    Ok(pieces::put_sheet(out, t, want, budget))
}

// Reads a sheet: 51 to 53 at the lowest line that is refused; then 54 where a lent column is shorter than the place count.
// A refusal changes nothing that was lent; else the first values of each column are those of the places.
pub fn read(src: &[u8], into: Columns) -> Result<Sheet, Refusal>
    ensures value { told result ≡ sheet_of (reading_in src.now (lent into.entry)) }
    ensures columns_after { left into.exit ≡ columns_after (reading_in src.now (lent into.entry)) (lent into.entry) }
{
    let sheet = scan::scan(src)?;
    let Columns { x, y, kit } = into;
    if x.len().min(y.len().min(kit.len())) < sheet.places {
        return Err(Refusal {
            reason: Reason::TooShort,
            at: 0,
        });
    }
    let head = scan::head_of(src).unwrap();
    let _ = scan::fill(src, head.next, head.value, Columns { x, y, kit });
    Ok(sheet)
}

// Internal: reads a sheet in one pass, into columns with room for every table that nobody looks at after a refusal.
pub fn take_in(src: &[u8], into: Columns) -> Result<Sheet, Refusal>
    requires { Room 4096 (lent into) }
    ensures value { told result ≡ sheet_of (read_sheet src.now) }
    ensures columns_taken { Taken (read_sheet src.now) (lent into.entry) (left into.exit) }
{
    let head = scan::head_of(src)?;
    let Columns { x, y, kit } = into;
    let p = scan::fill(src, head.next, head.value, Columns { x, y, kit });
    scan::ending(src, p, head.value)
}
