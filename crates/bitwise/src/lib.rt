// Whether two numbers, or two points, are the same, bit for bit.
#![tactic(auto)]

ghost use Rattle.bitwise.specs.Same.{Same};

use plane::Point;

// Whether two numbers are the same, bit for bit. A NaN is not.
pub fn same_number(a: f64, b: f64) -> bool
    ensures { Same result a b }
{
    if a == a && b == b {
        return f64::to_bits(a) == f64::to_bits(b);
    }
    false
}

// Whether two points are the same, bit for bit. One with a NaN is not.
pub fn same_point(a: Point, b: Point) -> bool
    ensures { Same result a b }
{
    same_number(a.x, b.x) && same_number(a.y, b.y)
}
