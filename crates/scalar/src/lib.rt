// Absolute value, smaller, larger and clamp of an `f64`, for every bit pattern.
#![tactic(auto)]

ghost use Rattle.std.specs.Prelude.{◌≡◌};
ghost use Rattle.scalar.specs.Scalar.{abs_of, smaller_of, larger_of, clamp_of, minus_zero, ahead};

// The absolute value of x: the sign of a zero and of an infinity is cleared, a NaN stays.
pub fn abs(x: f64) -> f64
    ensures { result ≡ abs_of x }
{
    if x < 0.0 {
        -x
    } else if x == 0.0 {
        0.0
    } else {
        x
    }
}

// Whether x is -0.0.
fn is_minus_zero(x: f64) -> bool
    ensures { result ≡ minus_zero x }
{
    x == 0.0 && f64::to_bits(x) != 0
}

// Whether a comes before b: it is smaller, or it is -0.0 and b is +0.0.
pub fn is_ahead(a: f64, b: f64) -> bool
    ensures { result ≡ ahead a b }
{
    a < b || (is_minus_zero(a) && is_minus_zero(-b))
}

// The smaller of a and b, -0.0 being below +0.0. Of a NaN and a number it is the number.
pub fn smaller(a: f64, b: f64) -> f64
    ensures { result ≡ smaller_of a b }
{
    if a != a {
        b
    } else if b != b {
        a
    } else if is_ahead(b, a) {
        b
    } else {
        a
    }
}

// The larger of a and b, in the same order.
pub fn larger(a: f64, b: f64) -> f64
    ensures { result ≡ larger_of a b }
{
    if a != a {
        b
    } else if b != b {
        a
    } else if is_ahead(a, b) {
        b
    } else {
        a
    }
}

// lo where x is below it, else hi where x is above it, else x itself: -0.0 and NaN stay.
pub fn clamp(x: f64, lo: f64, hi: f64) -> f64
    ensures { result ≡ clamp_of x lo hi }
{
    if x < lo {
        lo
    } else if x > hi {
        hi
    } else {
        x
    }
}
