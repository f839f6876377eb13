// Numbers: for every bit pattern an answer, and no refusal.
ghost use Rattle.std.specs.Prelude.{◌≡◌};
ghost use Rattle.scalar.specs.Scalar.{abs_of, smaller_of, larger_of, clamp_of};
ghost use Rattle.square_root.specs.Nearest.{IsRoot};

// The absolute value of x.
#[unsafe(no_mangle)]
pub extern "C" fn byr_abs(x: f64) -> f64
    ensures { result ≡ abs_of x }
{
    scalar::abs(x)
}

// The smaller of a and b: of a NaN and a number the number, and -0.0 below +0.0.
#[unsafe(no_mangle)]
pub extern "C" fn byr_smaller(a: f64, b: f64) -> f64
    ensures { result ≡ smaller_of a b }
{
    scalar::smaller(a, b)
}

// The larger of a and b, by the same order.
#[unsafe(no_mangle)]
pub extern "C" fn byr_larger(a: f64, b: f64) -> f64
    ensures { result ≡ larger_of a b }
{
    scalar::larger(a, b)
}

// lo if x is below it, else hi if x is above it, else x itself.
#[unsafe(no_mangle)]
pub extern "C" fn byr_clamp(x: f64, lo: f64, hi: f64) -> f64
    ensures { result ≡ clamp_of x lo hi }
{
    scalar::clamp(x, lo, hi)
}

// The f64 nearest to the root of x.
#[unsafe(no_mangle)]
pub extern "C" fn byr_sqrt(x: f64) -> f64
    ensures { IsRoot x result }
{
    square_root::sqrt(x)
}
