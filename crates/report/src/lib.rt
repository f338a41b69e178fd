// The lines of an answer, piece by piece.
#![tactic(auto)]

ghost use Rattle.std.specs.Prelude.{◌≡◌};
ghost use Rattle.verdict.specs.Families.{family_of};
ghost use Rattle.kit.specs.Kit.{kinds};
ghost use Rattle.print.specs.Wrote.{HasRoom, Wrote};
ghost use Rattle.report.specs.Answer.{word_line, need_lines, group_lines, measure_lines, family_word};
ghost use Rattle.report.specs.Distance.{root_of};

use print::Page;

// A kind and the place that stands for it.
fn put_need(page: &mut Page<'_>, kind: u64, place: u64)
    requires { HasRoom page.old (need_lines kind place) }
    ensures { Wrote page.old (need_lines kind place) page.new }
{
    page.put_line(b"need=", kind);
    page.put_line(b"place=", place);
}

// Internal: each kind of a want with its place, as far as there are places.
pub fn put_group(page: &mut Page<'_>, want: u64, places: &[u16])
    requires { HasRoom page.old (group_lines (kinds want) places.now) }
    ensures { Wrote page.old (group_lines (kinds want) places.now) page.new }
{
    for (kind, place) in (0..64).filter(|kind| kit::holds(want, *kind)).zip(places) {
        put_need(page, kind as u64, u64::from(*place));
    }
}

// The distance shown for a squared diameter.
fn distance(squared: u64) -> u64
    ensures { result ≡ root_of squared }
{
    plane::root(squared)
}

// Internal: the squared diameter of a group, the distance and the steps.
pub fn put_measure(page: &mut Page<'_>, squared: u64, steps: u32)
    requires { HasRoom page.old (measure_lines squared steps) }
    ensures { Wrote page.old (measure_lines squared steps) page.new }
{
    page.put_line(b"squared=", squared);
    page.put_line(b"distance=", distance(squared));
    page.put_line(b"steps=", u64::from(steps));
}

// The word of a family.
fn word(from: verdict::From) -> &'static [u8]
    ensures { result.now ≡ family_word from }
{
    match from {
        verdict::From::Query => b"query",
        verdict::From::Table => b"table",
        verdict::From::Tree => b"tree",
        verdict::From::Search => b"search",
        verdict::From::Room => b"room",
        verdict::From::Sheet => b"sheet",
        verdict::From::NoRefusal => b"none",
    }
}

// Internal: the family of a refusal.
pub fn put_family(page: &mut Page<'_>, code: u8)
    requires { HasRoom page.old (word_line "from=" (family_word (family_of code))) }
    ensures { Wrote page.old (word_line "from=" (family_word (family_of code))) page.new }
{
    page.put_line(b"from=", word(verdict::family(code)));
}
