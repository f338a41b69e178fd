// Whole numbers in the plane: spans, boxes, how far apart they are, and the whole-number root.
#![tactic(auto)]

ghost use Rattle.std.specs.Prelude.{◌≡◌, ◌≤◌, false, ◌||◌, nat_abs, ◌-ℤ◌};
ghost use Rattle.plane.specs.Plane.{outside, square, squared_of, rise, gap, Ranged, apart, join_spans, join_boxes, measured, told};
ghost use Rattle.plane.specs.Root.{Root};

use verdict::{Reason, Refusal};

// The coordinates from `lo` to `hi`.
#[derive(Clone, Copy, PartialEq, Eq)]
pub struct Span {
    pub lo: i32,
    pub hi: i32,
}

impl Span {
    // The stretch between two spans.
    fn gap(self, t: Span) -> u64
        ensures { result ≡ gap self t }
    {
        rise_of(self.hi, t.lo) + rise_of(t.hi, self.lo)
    }

    // The tightest span around two.
    fn join(self, t: Span) -> Span
        ensures { result ≡ join_spans self t }
    {
        Span {
            lo: self.lo.min(t.lo),
            hi: self.hi.max(t.hi),
        }
    }
}

// A box is two spans; a point's spans have equal ends.
#[derive(Clone, Copy, PartialEq, Eq)]
pub struct Box {
    pub x: Span,
    pub y: Span,
}

// Internal: is a coordinate out of range?
pub fn is_outside(z: i32) -> bool
    ensures { result ≡ outside z }
{
    !(-1000000..=1000000).contains(&z)
}

// Internal: is a point out of range?
pub fn is_off(x: i32, y: i32) -> bool
    ensures { result ≡ (outside x || outside y) }
{
    is_outside(x) || is_outside(y)
}

// The square of the signed difference of two coordinates in range.
fn axis(a: i32, b: i32) -> u64
    requires { (outside a ≡ false) × (outside b ≡ false) }
    ensures value { result ≡ square (nat_abs (a -ℤ b)) }
    ensures bound { result ≤ 4000000000000 }
{
    let d = i64::from(a) - i64::from(b);
    (d * d) as u64
}

fn squared_within(ax: i32, ay: i32, bx: i32, by: i32) -> u64
    requires { ((outside ax || outside ay) ≡ false) × ((outside bx || outside by) ≡ false) }
    ensures { result ≡ squared_of ax ay bx by }
{
    axis(ax, bx) + axis(ay, by)
}

// The squared distance of two points; out of range at the first that is.
#[tactic(auto, unfolding(crate::specs::Plane::measured))]
pub fn squared(ax: i32, ay: i32, bx: i32, by: i32) -> Result<u64, Refusal>
    ensures { told result ≡ measured ax ay bx by }
{
    if is_off(ax, ay) {
        return Err(Refusal {
            reason: Reason::OutOfRange,
            at: 0,
        });
    }
    if is_off(bx, by) {
        return Err(Refusal {
            reason: Reason::OutOfRange,
            at: 1,
        });
    }
    Ok(squared_within(ax, ay, bx, by))
}

// How far b stands above a; 0 where it does not.
fn rise_of(a: i32, b: i32) -> u64
    ensures value { result ≡ rise a b }
    ensures bound { result ≤ 4294967296 }
{
    if a < b { u64::from(b.abs_diff(a)) } else { 0 }
}

// Internal: the squared distance of two boxes, between their nearest points.
pub fn apart_of(b: Box, c: Box) -> u64
    requires { Ranged b × Ranged c }
    ensures { result ≡ apart b c }
{
    let x = b.x.gap(c.x);
    let y = b.y.gap(c.y);
    x * x + y * y
}

// Internal: the tightest box around two.
pub fn box_join(b: Box, c: Box) -> Box
    ensures { result ≡ join_boxes b c }
{
    Box {
        x: b.x.join(c.x),
        y: b.y.join(c.y),
    }
}

// The greatest whole number whose square is not above n.
pub fn root(n: u64) -> u64
    ensures { Root n result }
{
    n.isqrt()
}
