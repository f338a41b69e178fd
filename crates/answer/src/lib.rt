// The printed answer of a search.
#![tactic(auto)]

ghost use Rattle.std.specs.Prelude.{◌≡◌, ◌+◌, ◌≤◌, length};
ghost use Rattle.kit.specs.Kit.{kinds};
ghost use Rattle.print.specs.Wrote.{HasRoom, Wrote};
ghost use Rattle.report.specs.Answer.{end_line, found_lines, stopped_lines, refused_lines, answer_lines};
ghost use Rattle.answer.specs.Lent.{laid, holding};

use print::Page;

// The last line of every answer.
fn put_end(page: &mut Page<'_>)
    requires { HasRoom page.old end_line }
    ensures { Wrote page.old end_line page.new }
{
    page.put(b"end=answer\n");
}

// A group that was found.
#[tactic(auto, unfolding(report::specs::Answer::found_lines))]
fn put_found(page: &mut Page<'_>, squared: u64, steps: u32, want: u64, places: &[u16])
    requires { HasRoom page.old (found_lines squared steps (kinds want) places.now) }
    ensures { Wrote page.old (found_lines squared steps (kinds want) places.now) page.new }
{
    page.put(b"answer=found\n");
    report::put_measure(page, squared, steps);
    report::put_group(page, want, places);
    put_end(page);
}

// None, or spent.
#[tactic(auto, unfolding(report::specs::Answer::stopped_lines))]
fn put_stopped(page: &mut Page<'_>, word: &[u8], steps: u32)
    requires { HasRoom page.old (stopped_lines word.now steps) }
    ensures { Wrote page.old (stopped_lines word.now steps) page.new }
{
    page.put_line(b"answer=", word);
    page.put_line(b"steps=", u64::from(steps));
    put_end(page);
}

// A refusal.
#[tactic(auto, unfolding(report::specs::Answer::refused_lines))]
fn put_refused(page: &mut Page<'_>, code: u8, at: usize)
    requires { HasRoom page.old (refused_lines code at) }
    ensures { Wrote page.old (refused_lines code at) page.new }
{
    page.put(b"answer=refused\n");
    page.put_line(b"code=", u64::from(code));
    report::put_family(page, code);
    page.put_line(b"at=", at as u64);
    put_end(page);
}

// The answer onto a page that has room for every answer.
fn put_answer(page: &mut Page<'_>, found: &found::Found, want: u64)
    requires { page.old.at + 534 ≤ length page.old.out.now }
    ensures { Wrote page.old (answer_lines found.now want) page.new }
{
    match found.code {
        0 => put_found(page, found.squared, found.steps, want, &found.places),
        31 => put_stopped(page, b"none", found.steps),
        32 => put_stopped(page, b"spent", found.steps),
        _ => put_refused(page, found.code, found.at),
    }
}

// Internal: what is given, at the start of a lent buffer; gives how many elements that are.
// Where the buffer is shorter it gives 0 and changes nothing.
pub fn lay<T: Copy>(given: &[T], out: &mut [T]) -> usize
    ensures value { result ≡ laid given.now out.old }
    ensures out_after { out.new ≡ holding given.now out.old }
{
    let n = given.len();
    if out.len() < n {
        return 0;
    }
    out[..n].copy_from_slice(given);
    n
}

// The lines for what the search of a want gave, at the start of a lent buffer; gives how many bytes they are.
// Where the buffer is shorter it gives 0 and changes nothing. 534 bytes are enough for every answer.
pub fn lines(found: found::Found, want: u64, out: &mut [u8]) -> usize
    ensures value { result ≡ laid (answer_lines found want) out.old }
    ensures out_after { out.new ≡ holding (answer_lines found want) out.old }
{
    let mut text = [0u8; 534];
    let mut page = Page {
        out: &mut text,
        at: 0,
    };
    put_answer(&mut page, &found, want);
    let n = page.at;
    lay(&text[..n], out)
}
