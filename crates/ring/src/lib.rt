// A ring is lent as x, y alternating: its vertices, the one after and the one before each; a room that holds points; a ring moved into it.
#![tactic(auto)]

pub mod moving;
pub mod room;

ghost use Rattle.std.specs.Prelude.{◌≡◌, ◌<◌};
ghost use Rattle.ring.specs.Ring.{count, point_at, next_of, previous_vertex};

use plane::Point;

// Vertex i.
pub fn point_at(ring: &[f64], i: usize) -> Point
    requires { i < count ring.now }
    ensures { result ≡ point_at ring.now i }
{
    Point {
        x: ring[2 * i],
        y: ring[2 * i + 1],
    }
}

// The vertex after i of n.
pub fn next(i: usize, n: usize) -> usize
    requires { i < n }
    ensures { (result ≡ next_of i n) × (result < n) }
{
    if i + 1 < n { i + 1 } else { 0 }
}

// The vertex before i of n.
pub fn previous(i: usize, n: usize) -> usize
    requires { i < n }
    ensures { (result ≡ previous_vertex i n) × (result < n) }
{
    if i == 0 { n - 1 } else { i - 1 }
}
