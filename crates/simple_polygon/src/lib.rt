// Whether a ring is simple: `is_simple_polygon` of `polygon_ops.rs`.
#![tactic(auto)]

pub mod calls;

ghost use Rattle.std.specs.Prelude.{not, ◌||◌, ◌≡◌, ◌<◌};
ghost use Rattle.plane.specs.Vector.{turn_of};
ghost use Rattle.ring.specs.Ring.{count};
ghost use Rattle.segments.specs.Segments.{intersect_of};
ghost use Rattle.simple_polygon.specs.Sides.{aside, same_side};
ghost use Rattle.simple_polygon.specs.Simple.{adjacent_of, clear_row, is_simple};

use plane::Point;
use plane::vector::turn;
use ring::{next, point_at};

// Whether the edges i and j, i before j, of n share a vertex.
pub fn adjacent(i: usize, j: usize, n: usize) -> bool
    requires { (i < j) × (j < n) }
    ensures { result ≡ adjacent_of i j n }
{
    if j == i + 1 {
        true
    } else if i == 0 {
        j == n - 1
    } else {
        false
    }
}

// Whether a turn is not collinear.
fn is_aside(d: f64) -> bool
    ensures { result ≡ aside d }
{
    if d > 1e-9 { true } else { d < -1e-9 }
}

// Whether two turns are both counter-clockwise or both clockwise.
fn same_side(d: f64, e: f64) -> bool
    ensures { result ≡ same_side d e }
{
    if d > 1e-9 {
        return e > 1e-9;
    }
    if d < -1e-9 {
        if e > 1e-9 { false } else { e < -1e-9 }
    } else {
        false
    }
}

// Whether two edges do not meet, by the turns d3 and d4 of b1 and b2 about a1 a2.
fn clear(a1: Point, a2: Point, b1: Point, b2: Point, d3: f64, d4: f64) -> bool
    requires { (d3 ≡ turn_of a1 a2 b1) × (d4 ≡ turn_of a1 a2 b2) }
    ensures { result ≡ not (intersect_of a1 a2 b1 b2) }
{
    if same_side(d3, d4) {
        if is_aside(turn(b1, b2, a1)) {
            if is_aside(turn(b1, b2, a2)) {
                return true;
            }
        }
    }
    !segments::segments_intersect(a1, a2, b1, b2)
}

// Whether two edges share a vertex, as is told, or do not meet.
fn clear_pair(shared: bool, a1: Point, a2: Point, b1: Point, b2: Point, d3: f64, d4: f64) -> bool
    requires { (d3 ≡ turn_of a1 a2 b1) × (d4 ≡ turn_of a1 a2 b2) }
    ensures { result ≡ (shared || not (intersect_of a1 a2 b1 b2)) }
{
    if shared {
        return true;
    }
    clear(a1, a2, b1, b2, d3, d4)
}

// Whether the edge i is clear of each later one.
fn clear_row(ring: &[f64], i: usize) -> bool
    requires { i < count ring.now }
    ensures { result ≡ clear_row ring.now i }
{
    let n = ring.len() / 2;
    let a1 = point_at(ring, i);
    let a2 = point_at(ring, next(i, n));
    let mut b1 = a2;
    let mut d3 = turn(a1, a2, b1);
    for j in i + 1..n {
        let b2 = point_at(ring, next(j, n));
        let d4 = turn(a1, a2, b2);
        if clear_pair(adjacent(i, j, n), a1, a2, b1, b2, d3, d4) {
            b1 = b2;
            d3 = d4;
        } else {
            return false;
        }
    }
    true
}

// Whether a ring of three vertices or more has no two edges that meet but those that share a vertex.
fn is_simple_polygon(ring: &[f64]) -> bool
    ensures { result ≡ is_simple ring.now }
{
    let n = ring.len() / 2;
    if n < 3 {
        return false;
    }
    for i in 0..n {
        if !clear_row(ring, i) {
            return false;
        }
    }
    true
}
