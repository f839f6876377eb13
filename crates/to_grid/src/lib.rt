// Puts a float on a grid, of so many units in 1: the whole number nearest to that many times the float, exactly, by its digits.
#![tactic(auto)]

pub mod calls;

ghost use Rattle.std.specs.Prelude.{ℕ, ◌*◌, ◌-◌, ◌/◌, ◌^◌, ◌<◌, ◌≤◌, ◌≡◌, true, length, map};
ghost use Rattle.square_root.specs.Nearest.{val};
ghost use Rattle.refusals.specs.Bounds.{every};
ghost use Rattle.ring.specs.Room.{laid};
ghost use Rattle.to_grid.specs.Calls.{units_ok};
ghost use Rattle.to_grid.specs.Grid.{nearest_to, nearest, OnGrid, fits_grid, Most};

// Whether a grid may have so many units in 1.
pub fn are_units(units: u32) -> bool
    ensures { result ≡ units_ok units }
{
    if 1 <= units { units <= 1000000 } else { false }
}

// By how many places the halves of units are cut: all of them where a float is below 2 ^ -44, and so nearest to 0.
fn places(exponent: u64) -> u64
    requires { exponent ≤ 1042 }
    ensures { (exponent < 979 → result ≡ 63) × (979 ≤ exponent → result ≡ 1042 - exponent) }
{
    if exponent < 979 { 63 } else { 1042 - exponent }
}

// Units times the digits, cut by 2 ^ 32. They have more than 64 together, so the upper and the lower ones are taken apart.
fn halves(digits: u64, units: u64) -> u64
    requires { (digits < 2 ^ 53) × (units ≤ 1000000) }
    ensures { result ≡ units * digits / 4294967296 }
{
    units * (digits / 4294967296) + units * (digits % 4294967296) / 4294967296
}

// The whole number nearest to units times the value, below 2 ^ 20, whose bit pattern is b. With its exponent that is digits * 2 ^
// (exponent - 1075); what is below the half of a unit is cut off in two steps.
fn steps(b: u64, units: u64) -> u64
    requires { (b < 1043 * 2 ^ 52) × (units ≤ 1000000) }
    ensures { (result ≡ nearest_to (units * val b) (2 ^ 1074)) × (result < 2 ^ 42) }
{
    let digits = b % 4503599627370496 + 4503599627370496;
    let cut = halves(digits, units) >> places(b / 4503599627370496);
    (cut + 1) / 2
}

// The whole number nearest to units times x.
pub fn on_grid(x: f64, units: u32) -> i32
    requires { (fits_grid units x ≡ true) × (1 ≤ units) × (units ≤ 1000000) }
    ensures { OnGrid units x result }
{
    let b = f64::to_bits(x);
    let size = steps(b % 9223372036854775808, units as u64) as i32;
    if b < 9223372036854775808 {
        size
    } else {
        0 - size
    }
}

// The largest float that times units is at most 1,000,000: a million divided by units, to 53 digits. The first 32 after the point
// are there at once, and the leading zeros tell how many more there are to be.
pub fn most(units: u32) -> f64
    requires { (1 ≤ units) × (units ≤ 1000000) }
    ensures { Most units result }
{
    let by = units as u64;
    let first = 4294967296000000 / by;
    let left = 4294967296000000 % by;
    let more = (u64::leading_zeros(first) as u64) - 11;
    let digits = (first << more) + (left << more) / by;
    f64::from_bits((1042 - more) * 4503599627370496 + digits)
}

// Whether x is at most so much in size.
pub fn is_within(x: f64, most: f64) -> bool
    ensures { (units : ℕ) → Most units most → result ≡ fits_grid units x }
{
    if x <= most { -most <= x } else { false }
}

// Whether each number of a list, times units, is at most 1,000,000 in size.
pub fn are_within(list: &[f64], units: u32) -> bool
    requires { (1 ≤ units) × (units ≤ 1000000) }
    ensures { result ≡ every (fits_grid units) list.now }
{
    let most = most(units);
    list.iter().all(|&x| is_within(x, most))
}

// Each number of a list on the grid, at the front of the room.
pub fn lay(list: &[f64], units: u32, room: &mut [i32])
    requires list_value { (every (fits_grid units) list.now ≡ true) × (1 ≤ units) × (units ≤ 1000000) }
    requires list_in_bounds { length list.now ≤ length room.old }
    ensures { room.new ≡ laid (map (nearest units) list.now) room.old }
{
    for (i, &x) in list.iter().enumerate() {
        room[i] = on_grid(x, units);
    }
}
