// A polygon made counter-clockwise, written to an array that the caller lends: `ensure_ccw` of `nfp_sliding.rs`.
#![tactic(auto)]

ghost use Rattle.std.specs.Prelude.{◌≡◌, ◌%◌, ◌<◌, ◌≤◌, length};
ghost use Rattle.ring.specs.Ring.{count};
ghost use Rattle.ring.specs.Room.{laid};
ghost use Rattle.ring.specs.Points.{points};
ghost use Rattle.winding.specs.Winding.{area_added, area_of, ordered_vertex, ccw_of};

use plane::Point;
use ring::room::put;
use ring::{next, point_at};

// An area sum with the edge from p to q: one product added, the other subtracted.
fn added(area: f64, p: Point, q: Point) -> f64
    ensures { result ≡ area_added area p q }
{
    area + p.x * q.y - q.x * p.y
}

// The signed area, as the sliding works it out.
fn signed_area(polygon: &[f64]) -> f64
    ensures { result ≡ area_of polygon.now }
{
    let n = polygon.len() / 2;
    let mut area = 0.0;
    for i in 0..n {
        area = added(area, point_at(polygon, i), point_at(polygon, next(i, n)));
    }
    area / 2.0
}

// Vertex i, from the end where the order is reversed.
fn vertex(polygon: &[f64], reverse: bool, i: usize) -> Point
    requires { i < count polygon.now }
    ensures { result ≡ ordered_vertex polygon.now reverse i }
{
    if reverse {
        point_at(polygon, polygon.len() / 2 - 1 - i)
    } else {
        point_at(polygon, i)
    }
}

// The vertices in their order or in reverse, at the front of the room.
fn ordered(polygon: &[f64], reverse: bool, room: &mut [f64])
    requires { length polygon.now ≤ length room.old }
    ensures { room.new ≡ laid (points (ordered_vertex polygon.now reverse) (count polygon.now))
        room.old }
{
    let n = polygon.len() / 2;
    for i in 0..n {
        put(room, i, vertex(polygon, reverse, i));
    }
}

// The polygon counter-clockwise, at the front of the room: reversed where its area is below zero.
pub fn ensure_ccw(polygon: &[f64], room: &mut [f64])
    requires polygon_len { length polygon.now % 2 ≡ 0 }
    requires polygon_in_bounds { length polygon.now ≤ length room.old }
    ensures { room.new ≡ laid (ccw_of polygon.now) room.old }
{
    ordered(polygon, signed_area(polygon) < 0.0, room);
}
