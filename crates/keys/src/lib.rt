// The builder's key, and the words of a table's places.
#![tactic(auto)]

ghost use Rattle.std.specs.Prelude.{◌≡◌, false, ◌++◌, ◌+◌, ◌^◌, ◌≤◌, ◌<◌, length, drop};
ghost use Rattle.plane.specs.Plane.{outside};
ghost use Rattle.order.specs.Key.{shifted, interleaved, key};
ghost use Rattle.order.specs.Order.{Plotted, words_of};

// A coordinate in range, plus 1,000,000.
fn shift(z: i32) -> u64
    requires { outside z ≡ false }
    ensures value { result ≡ shifted z }
    ensures bound { result < 2 ^ 21 }
{
    (z + 1000000) as u64
}

// The bits of v, bit k at 2 * k: its runs of 16 bits are drawn apart, then the runs of 8 in each, and so on down to single bits.
fn spread(v: u64) -> u64
    requires { v < 2 ^ 21 }
    ensures value { result ≡ interleaved 21 v 0 }
    ensures bound { result < 4 ^ 21 }
{
    let sixteens = (v | v << 16) & 0x0000ffff0000ffff;
    let eights = (sixteens | sixteens << 8) & 0x00ff00ff00ff00ff;
    let fours = (eights | eights << 4) & 0x0f0f0f0f0f0f0f0f;
    let pairs = (fours | fours << 2) & 0x3333333333333333;
    (pairs | pairs << 1) & 0x5555555555555555
}

// Two numbers below 2 to the power of 21, interleaved.
fn interleave(a: u64, b: u64) -> u64
    requires { (a < 2 ^ 21) × (b < 2 ^ 21) }
    ensures value { result ≡ interleaved 21 a b }
    ensures bound { result < 4 ^ 21 }
{
    spread(a) + 2 * spread(b)
}

// The key of a position.
fn key_of(x: i32, y: i32) -> u64
    requires { (outside x ≡ false) × (outside y ≡ false) }
    ensures value { result ≡ key x y }
    ensures bound { result < 4 ^ 21 }
{
    interleave(shift(x), shift(y))
}

// Internal: the words of all places, written to a slice from its start on.
pub fn pack(x: &[i32], y: &[i32], to: &mut [u64])
    requires { Plotted x.now y.now × (length x.now ≤ length to.old) }
    ensures { to.new ≡
        words_of x.now y.now ++ drop (length x.now) to.old }
{
    for (p, (x, y)) in x.iter().zip(y).enumerate() {
        to[p] = key_of(*x, *y) * 4096 + p as u64;
    }
}
