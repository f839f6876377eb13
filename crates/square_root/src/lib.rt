// The square root of an `f64`, rounded to the nearest `f64`. Its digits come from sums, differences, shifts and
// comparisons alone, for cores without a wide multiplier; tools/root_instructions looks for others in the object code.
#![tactic(auto)]

ghost use Rattle.std.specs.Prelude.{◌+◌, ◌*◌, ◌^◌, ◌<◌, ◌≤◌, ◌≡◌};
ghost use Rattle.std.specs.Float.{binary64};
ghost use Rattle.std.specs.Float.Ieee.{of_bits};
ghost use Rattle.square_root.specs.Root.{WholeRoot, Radicand, Further, Pair, takes, rooted, sqrt_of};
ghost use Rattle.square_root.specs.Nearest.{IsRoot};

// A root, and what it takes: how much its square is above that of the root before, over the last place.
#[derive(Clone, Copy)]
struct Step {
    root: u64,
    takes: u64,
}

// The step to `root` where what it takes is left, and else the one that was the best.
fn further(best: Step, left: u64, root: u64, takes: u64) -> Step
    ensures { Further best.root best.takes left root takes result.root result.takes }
{
    if takes <= left {
        Step { root, takes }
    } else {
        best
    }
}

// The root with two digits more, of which the second stands at `place`: 01, 10 and 11 are tried. All three are compared,
// as a branch would be mispredicted every other time.
fn pair(root: u64, left: u64, place: u64) -> Step
    requires { (root < 2 ^ 54) × (place ≤ 2 ^ 52) × (left < takes root place 4) }
    ensures { Pair root left place result.root result.takes }
{
    let one = root + place;
    let two = root + (place << 1);
    let none = Step { root, takes: 0 };
    let takes = (root << 1) + place;
    let first = further(none, left, one, takes);
    let second = further(first, left, two, one << 2);
    further(second, left, two + place, takes + (two << 2))
}

// The 54 digits of the root of m * 2 ^ 54, for an m below 2 ^ 54: two at a time, each in its place, until nothing is
// left or all are found. `left` is what the square of `root` leaves of m * 2 ^ 54, over `place`.
fn digits(m: u64) -> u64
    requires { m < 2 ^ 54 }
    ensures { WholeRoot (m * 2 ^ 54) result }
{
    let mut root: u64 = 0;
    let mut left = m;
    let mut place: u64 = 0x0040_0000_0000_0000;
    // A while: the place is quartered each time, so that it is no counter.
    while place > 1 {
        if left == 0 {
            return root;
        }
        place = place >> 2;
        left = left << 2;
        let next = pair(root, left, place);
        root = next.root;
        left = left - next.takes;
    }
    root
}

// The bit pattern of the root, rounded, of a value that is m * 2 ^ t in units of 2 ^ -2148, with 2 ^ 52 <= m < 2 ^ 53:
// the digits of m's root, or of 2 * m's where t is odd, and half of the exponent.
fn assembled(m: u64, t: u64) -> u64
    requires { Radicand m t }
    ensures { (of_bits binary64 result ≡ rooted binary64 (m * 2 ^ t)) × (result < 2047 * 2 ^ 52) }
{
    let r = digits(m << (t & 1));
    (((t >> 1) - 26) << 52) + ((r + 1) >> 1)
}

// The bit pattern of the root of the value, finite and above zero, whose bit pattern is b. The leading zeros of a
// subnormal significand tell how far it is shifted, so that it has 53 digits as every other.
fn pattern(b: u64) -> u64
    requires { (0 < b) × (b < 2047 * 2 ^ 52) }
    ensures { (of_bits binary64 result ≡ sqrt_of binary64 (of_bits binary64 b)) × (result < 2047 * 2 ^ 52) }
{
    if b < 0x0010_0000_0000_0000 {
        let z = (u64::leading_zeros(b) as u64) - 11;
        assembled(b << z, 1074 - z)
    } else {
        assembled(
            (b & 0x000f_ffff_ffff_ffff) + 0x0010_0000_0000_0000,
            (b >> 52) + 1073,
        )
    }
}

// The square root of x: each zero and +infinity are their own, a NaN and what is below zero have a NaN, and every other
// x has the `f64` that is nearest to its root.
pub fn sqrt(x: f64) -> f64
    ensures { IsRoot x result }
{
    if x > 0.0 {
        let b = f64::to_bits(x);
        if b < 0x7ff0_0000_0000_0000 {
            f64::from_bits(pattern(b))
        } else {
            x
        }
    } else if x == 0.0 {
        x // with its sign
    } else {
        0.0 / 0.0
    }
}
