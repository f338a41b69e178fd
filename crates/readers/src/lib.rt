// Lines of a sheet, `key=value`: found, compared, and their values read. No function changes what it was lent.
#![tactic(auto)]

ghost use Rattle.std.specs.Prelude.{◌≡◌, ℕ, ◌≤◌, length, drop, ◌↔◌, IsTrue, SomeIff};
ghost use Rattle.lines.specs.Text.{NoZero, unglyph, Digit};
ghost use Rattle.lines.specs.Form.{Form, natural, coordinate, bits, word};
ghost use Rattle.lines.specs.Line.{read_line};
ghost use Rattle.readers.specs.Readers.{Ends, Due, Parses, Reads};

use verdict::{Reason, Refusal};

// A line, or some in a row, that was read: its value, and where the next begins.
#[derive(Drop)]
pub struct Line<T> {
    pub next: usize,
    pub value: T,
}

// Internal: a form of values, as `lines` has them, that can be read.
pub trait ValueForm {
    type Value;

    ghost form: { Self → Form Self.Value };

    // The value of a text that is in form.
    fn parse(&self, t: &[u8]) -> Option<Self::Value>
        ensures { Parses (form self.now) t.now result };
}

// How many bytes the line has that a text begins with; none where no line feed stands within 40 bytes.
fn line_end(t: &[u8]) -> Option<usize>
    ensures { Ends t.now result }
{
    let near = t.len().min(41);
    t[..near].iter().position(|c| *c == b'\n')
}

// The value of the line at `at`, if the line has the key.
fn value_at<'a>(s: &'a [u8], at: usize, key: &[u8]) -> Option<Line<&'a [u8]>>
    requires { at ≤ length s.now }
    ensures { Due s.now at key.now result }
{
    let rest = &s[at..];
    let n = line_end(rest)?;
    let value = rest[..n].strip_prefix(key)?;
    Some(Line {
        next: at + n + 1,
        value,
    })
}

// Internal: line number `line`, which begins at `at`, due with a key and a value of a form.
pub fn read<F: ValueForm>(
    s: &[u8],
    at: usize,
    line: usize,
    key: &[u8],
    form: &F,
) -> Result<Line<F::Value>, Refusal>
    requires { at ≤ length s.now }
    ensures { Reads s.now (read_line key.now (F.form form.now) line (drop at s.now)) result }
{
    let Some(found) = value_at(s, at, key) else {
        return Err(Refusal {
            reason: Reason::NoLine,
            at: line,
        });
    };
    let Some(value) = form.parse(found.value) else {
        return Err(Refusal {
            reason: Reason::NotInForm,
            at: line,
        });
    };
    Ok(Line {
        next: found.next,
        value,
    })
}

// Internal: whether a text has something, and no zero in front of more.
pub fn led(t: &[u8]) -> bool
    ensures { IsTrue result ↔ NoZero t.now }
{
    match t {
        [] => false,
        [_] => true,
        [first, ..] => *first != b'0',
    }
}

// A decimal number of at most `most`.
#[derive(Clone, Copy)]
pub struct Natural {
    pub most: u32,
}

impl ValueForm for Natural {
    type Value = u32;

    ghost form = { λ f. natural f.most };

    // Digit by digit, so that none wraps round.
    fn parse(&self, t: &[u8]) -> Option<u32> {
        let most = u64::from(self.most);
        if !led(t) {
            return None;
        }
        let mut a: u64 = 0;
        for c in t {
            if !c.is_ascii_digit() {
                return None;
            }
            a = a * 10 + u64::from(*c - b'0');
            if most < a {
                return None;
            }
        }
        Some(a as u32)
    }
}

// What a hexadecimal digit stands for.
fn hex_digit(c: u8) -> Option<u64>
    ensures { SomeIff result (Digit 16 c) (unglyph c) }
{
    match c {
        b'0'..=b'9' => Some(u64::from(c - b'0')),
        b'a'..=b'f' => Some(u64::from(c - 87)),
        _ => None,
    }
}

// 64 bits, sixteen hexadecimal digits.
#[derive(Clone, Copy)]
pub struct Bits;

impl ValueForm for Bits {
    type Value = u64;

    ghost form = { λ _. bits };

    fn parse(&self, t: &[u8]) -> Option<u64> {
        if t.len() != 16 {
            return None;
        }
        let mut a: u64 = 0;
        for c in t {
            a = a * 16 + hex_digit(*c)?;
        }
        Some(a)
    }
}

// A coordinate, from -1,000,000 to 1,000,000.
#[derive(Clone, Copy)]
pub struct Coordinate;

impl ValueForm for Coordinate {
    type Value = i32;

    ghost form = { λ _. coordinate 1000000 };

    fn parse(&self, t: &[u8]) -> Option<i32> {
        let most = Natural { most: 1000000 };
        let Some(digits) = t.strip_prefix(b"-") else {
            return Some(most.parse(t)? as i32);
        };
        let n = most.parse(digits)?;
        if n == 0 {
            return None;
        }
        Some(-(n as i32))
    }
}

// One word.
#[derive(Clone, Copy)]
pub struct Word<'a> {
    pub text: &'a [u8],
}

impl<'a> ValueForm for Word<'a> {
    type Value = ();

    ghost form = { λ f. word f.text.now };

    fn parse(&self, t: &[u8]) -> Option<()> {
        if t == self.text { Some(()) } else { None }
    }
}

// Internal: the line due with a key and a decimal number of at most `most`.
pub fn line_number(
    s: &[u8],
    at: usize,
    line: usize,
    key: &[u8],
    most: u32,
) -> Result<Line<u32>, Refusal>
    requires { at ≤ length s.now }
    ensures { Reads s.now (read_line key.now (natural most) line (drop at s.now)) result }
{
    read(s, at, line, key, &Natural { most })
}

// Internal: the line due with a key and 64 bits.
pub fn line_bits(s: &[u8], at: usize, line: usize, key: &[u8]) -> Result<Line<u64>, Refusal>
    requires { at ≤ length s.now }
    ensures { Reads s.now (read_line key.now bits line (drop at s.now)) result }
{
    read(s, at, line, key, &Bits)
}

// Internal: the line due with a key and a coordinate.
pub fn line_coordinate(s: &[u8], at: usize, line: usize, key: &[u8]) -> Result<Line<i32>, Refusal>
    requires { at ≤ length s.now }
    ensures { Reads s.now (read_line key.now (coordinate 1000000) line (drop at s.now)) result }
{
    read(s, at, line, key, &Coordinate)
}

// Internal: the line due with a key and a word.
pub fn line_word(
    s: &[u8],
    at: usize,
    line: usize,
    key: &[u8],
    text: &[u8],
) -> Result<Line<()>, Refusal>
    requires { at ≤ length s.now }
    ensures { Reads s.now (read_line key.now (word text.now) line (drop at s.now)) result }
{
    read(s, at, line, key, &Word { text })
}
