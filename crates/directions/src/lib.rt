// The unit vectors along a ring's edges, worked out once: each takes a root.
#![tactic(auto)]

ghost use Rattle.std.specs.Prelude.{◌≡◌, ◌*◌, ◌≤◌, ◌<◌, length};
ghost use Rattle.plane.specs.Vector.{normalize_of};
ghost use Rattle.ring.specs.Ring.{count};
ghost use Rattle.directions.specs.Directions.{edge_of, Directed};

use bitwise::same_point;
use plane::Point;
use plane::vector::{minus, normalize};
use ring::room::put;
use ring::{next, point_at};

// The edge i of a ring, as a vector.
fn edge(ring: &[f64], i: usize) -> Point
    requires { i < count ring.now }
    ensures { result ≡ edge_of ring.now i }
{
    minus(point_at(ring, next(i, ring.len() / 2)), point_at(ring, i))
}

// The direction of each edge of a ring, at the front of the room.
pub fn fill(ring: &[f64], room: &mut [f64])
    requires { 2 * count ring.now ≤ length room.old }
    ensures { Directed room.new ring.now }
{
    let n = ring.len() / 2;
    for i in 0..n {
        put(room, i, normalize(edge(ring, i)));
    }
}

// The unit vector along v; where v is the edge i of a ring whose directions are at hand, bit for bit, it is not worked out.
pub fn unit(v: Point, ring: &[f64], dirs: &[f64], i: usize) -> Point
    requires i_bound { i < count ring.now }
    requires directed { Directed dirs.now ring.now }
    ensures { result ≡ normalize_of v }
{
    if same_point(v, edge(ring, i)) {
        point_at(dirs, i)
    } else {
        normalize(v)
    }
}
