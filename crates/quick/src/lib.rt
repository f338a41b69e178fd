// Lines of a sheet read in one go, where they read well; all others are left to `readers`. No function changes what it was lent.
#![tactic(auto)]

ghost use Rattle.std.specs.Prelude.{◌≡◌, T, ◌≤◌, length, IfSome};
ghost use Rattle.lines.specs.Form.{natural, coordinate, bits};
ghost use Rattle.lines.specs.Line.{fair};
ghost use Rattle.quick.specs.Quick.{with_sign, Leads, Follows, ReadsWell};

use readers::{Bits, Coordinate, Natural, ValueForm};

// What was read in one go, without looking for the line feed first: how many bytes it takes with its line feed, and its value.
#[derive(Drop)]
pub struct Run<T> {
    pub count: usize,
    pub value: T,
}

// Internal: a form of values that can be read in one go. Where nothing is read, no fault is found: the line may be good.
pub trait QuickForm: ValueForm {
    // A value, up to a line feed.
    fn to_feed(&self, t: &[u8]) -> Option<Run<Self::Value>>
        ensures { IfSome result (λ r. Follows (Self.form self.now) t.now r.count r.value) };
}

// A decimal number of at most `most`, up to a line feed.
fn number_to_feed(t: &[u8], most: u32) -> Option<Run<u32>>
    ensures { IfSome result (λ r. Leads (natural most) t.now r.count r.value) }
{
    let most = u64::from(most);
    let mut a: u64 = 0;
    for (i, c) in t.iter().enumerate() {
        if *c == b'\n' {
            if !readers::led(&t[..i]) {
                return None;
            }
            return Some(Run {
                count: i + 1,
                value: a as u32,
            });
        }
        if !c.is_ascii_digit() {
            return None;
        }
        a = a * 10 + u64::from(*c - b'0');
        if most < a {
            return None;
        }
    }
    None
}

impl QuickForm for Natural {
    fn to_feed(&self, t: &[u8]) -> Option<Run<u32>> {
        number_to_feed(t, self.most)
    }
}

impl QuickForm for Bits {
    fn to_feed(&self, t: &[u8]) -> Option<Run<u64>> {
        if t.len() < 17 || t[16] != b'\n' {
            return None;
        }
        let value = self.parse(&t[..16])?;
        Some(Run { count: 17, value })
    }
}

fn with_sign(minus: bool, n: u32) -> i32
    requires { n ≤ 1000000 }
    ensures { result ≡ with_sign minus n }
{
    let z = n as i32;
    if minus { -z } else { z }
}

impl QuickForm for Coordinate {
    // Both signs go one way, since a branch on the sign is guessed wrong half of the time.
    fn to_feed(&self, t: &[u8]) -> Option<Run<i32>> {
        let minus = t.starts_with(b"-");
        let skip = usize::from(minus);
        let n = number_to_feed(&t[skip..], 1000000)?;
        if n.value < u32::from(minus) {
            return None;
        }
        Some(Run {
            count: skip + n.count,
            value: with_sign(minus, n.value),
        })
    }
}

// Internal: the line that a text begins with, due with a key and a value of a form, where it is read in one go.
pub fn read<F: QuickForm>(t: &[u8], key: &[u8], form: &F) -> Option<Run<F::Value>>
    requires { T (fair key.now) }
    ensures { IfSome result (λ r. ReadsWell key.now (F.form form.now) t.now r.count r.value) }
{
    let rest = t.strip_prefix(key)?;
    let taken = form.to_feed(rest)?;
    Some(Run {
        count: key.len() + taken.count,
        value: taken.value,
    })
}

// Internal: the same for a decimal number of at most `most`.
pub fn quick_number(t: &[u8], key: &[u8], most: u32) -> Option<Run<u32>>
    requires { T (fair key.now) }
    ensures { IfSome result (λ r. ReadsWell key.now (natural most) t.now r.count r.value) }
{
    read(t, key, &Natural { most })
}

// Internal: the same for 64 bits.
pub fn quick_bits(t: &[u8], key: &[u8]) -> Option<Run<u64>>
    requires { T (fair key.now) }
    ensures { IfSome result (λ r. ReadsWell key.now bits t.now r.count r.value) }
{
    read(t, key, &Bits)
}

// Internal: the same for a coordinate.
pub fn quick_coordinate(t: &[u8], key: &[u8]) -> Option<Run<i32>>
    requires { T (fair key.now) }
    ensures { IfSome result (λ r. ReadsWell key.now (coordinate 1000000) t.now r.count r.value) }
{
    read(t, key, &Coordinate)
}
