// Calls of the library, asked by words on standard input and answered by lines on standard output (docs/TRIALS.md).
#![tactic(auto)]

use cases::show::Page;
use cases::words::{BadCase, Words};
use columns::{Room, put_column, read_column};
use verdict::Refusal;

mod columns;

// The calls, in the order of their numbers.
#[derive(Clone, Copy, Debug, PartialEq, Eq)]
enum Call {
    Squared,
    Root,
    Check,
    Build,
    Search,
    Write,
    Read,
}

impl TryFrom<u64> for Call {
    type Error = BadCase;

    fn try_from(number: u64) -> Result<Call, BadCase> {
        match number {
            1 => Ok(Call::Squared),
            2 => Ok(Call::Root),
            3 => Ok(Call::Check),
            4 => Ok(Call::Build),
            5 => Ok(Call::Search),
            6 => Ok(Call::Write),
            7 => Ok(Call::Read),
            _ => Err(BadCase),
        }
    }
}

fn squared_case(words: &mut Words, page: &mut Page) -> Result<(), BadCase> {
    let ax = words.read()?;
    let ay = words.read()?;
    let bx = words.read()?;
    let by = words.read()?;
    let measured = plane::squared(ax, ay, bx, by);
    put_refusal(page, measured.err());
    page.put_next(measured.unwrap_or(0));
    Ok(())
}

fn root_case(words: &mut Words, page: &mut Page) -> Result<(), BadCase> {
    let n = words.read()?;
    page.put_number(plane::root(n));
    Ok(())
}

// What a call refuses, or 0 at 0.
fn put_refusal(page: &mut Page, refusal: Option<Refusal>) {
    match refusal {
        Some(r) => page.put_verdict(r.reason.code(), r.at),
        None => page.put_verdict(0, 0),
    }
}

fn check_case(words: &mut Words, page: &mut Page, room: &mut Room) -> Result<(), BadCase> {
    let table = room.table.read(words)?;
    let tree = room.tree.read(words)?;
    let nodes = words.read()?;
    let listed = words.read()?;
    let checked = inspect::check(&table.lent(), &tree.lent(nodes, listed));
    put_refusal(page, checked.err());
    Ok(())
}

fn build_case(words: &mut Words, page: &mut Page, room: &mut Room) -> Result<(), BadCase> {
    let table = room.table.read(words)?;
    let mut tree = room.tree.read(words)?;
    let built = tree.build(&table.lent());
    put_refusal(page, built.err());
    page.put_next(built.map_or(0, |b| b.nodes));
    page.put_next(built.map_or(0, |b| b.listed));
    tree.put(page);
    Ok(())
}

fn search_case(words: &mut Words, page: &mut Page, room: &mut Room) -> Result<(), BadCase> {
    let table = room.table.read(words)?;
    let tree = room.tree.read(words)?;
    let nodes = words.read()?;
    let listed = words.read()?;
    let want = words.read()?;
    let allowance = words.read()?;
    let f = search::search(&table.lent(), &tree.lent(nodes, listed), want, allowance);
    put_found(page, &f);
    Ok(())
}

fn put_found(page: &mut Page, f: &found::Found) {
    page.put_verdict(f.code, f.at);
    for place in f.places {
        page.put_next(place);
    }
    page.put_next(f.squared);
    page.put_next(f.steps);
    page.put_next(u8::from(f.known));
}

fn write_case(words: &mut Words, page: &mut Page, room: &mut Room) -> Result<(), BadCase> {
    let table = room.table.read(words)?;
    let want = words.read()?;
    let budget = words.read()?;
    let out = read_column(words, &mut room.bytes)?;
    let written = sheet::write(&table.lent(), want, budget, out);
    put_refusal(page, written.err());
    page.put_next(written.unwrap_or(0));
    put_column(page, out);
    Ok(())
}

fn read_case(words: &mut Words, page: &mut Page, room: &mut Room) -> Result<(), BadCase> {
    let src = read_column(words, &mut room.bytes)?;
    let mut table = room.table.read(words)?;
    let sheet = table.read_sheet(src);
    put_refusal(page, sheet.err());
    page.put_next(sheet.map_or(0, |s| s.places));
    page.put_next(sheet.map_or(0, |s| s.want));
    page.put_next(sheet.map_or(0, |s| s.budget));
    table.put(page);
    Ok(())
}

// The answer of a case. No other number of a call is known.
fn answer(words: &mut Words, page: &mut Page, room: &mut Room) -> Result<(), BadCase> {
    let number: u64 = words.read()?;
    match Call::try_from(number)? {
        Call::Squared => squared_case(words, page),
        Call::Root => root_case(words, page),
        Call::Check => check_case(words, page, room),
        Call::Build => build_case(words, page, room),
        Call::Search => search_case(words, page, room),
        Call::Write => write_case(words, page, room),
        Call::Read => read_case(words, page, room),
    }
}

// A line for each case, up to the end of the input or a bad case. A proved loop has to end: it counts the cases, of which
// no input has so many.
fn answer_all(words: &mut Words, page: &mut Page, room: &mut Room) {
    for _ in 0..u64::MAX {
        if words.is_at_end() {
            return;
        }
        if answer(words, page, room).is_err() {
            page.put(b"bad case\n");
            return;
        }
        page.put_byte(b'\n');
    }
}

fn main() {
    let mut words = Words::new();
    let mut page = Page::new();
    let mut room = Room::new();
    answer_all(&mut words, &mut page, &mut room);
    page.flush();
}
