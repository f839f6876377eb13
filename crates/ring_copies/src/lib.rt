// A ring mirrored in the y axis, and a ring without its closing repeat, each written to a room that the caller lends:
// `mirror_polygon` and `open_ring` of `polygon_ops.rs`.
#![tactic(auto)]

pub mod calls;

ghost use Rattle.std.specs.Prelude.{◌≡◌, ◌%◌, ◌≤◌, length};
ghost use Rattle.ring.specs.Room.{laid};
ghost use Rattle.ring_copies.specs.Copies.{mirrored, open_count};

use plane::Point;
use plane::vector::same;
use ring::point_at;
use ring::room::put;

// The vertices in reverse order, each x negated, at the front of the room.
fn mirror(ring: &[f64], room: &mut [f64])
    requires ring_len { length ring.now % 2 ≡ 0 }
    requires ring_in_bounds { length ring.now ≤ length room.old }
    ensures { room.new ≡ laid (mirrored ring.now) room.old }
{
    let n = ring.len() / 2;
    for i in 0..n {
        let p = point_at(ring, n - 1 - i);
        put(room, i, Point { x: -p.x, y: p.y });
    }
}

// How many vertices a ring has once a closing repeat is dropped. Of three vertices or fewer none is dropped.
fn open_count(ring: &[f64]) -> usize
    ensures { result ≡ open_count ring.now }
{
    let n = ring.len() / 2;
    if n <= 3 {
        return n;
    }
    if same(point_at(ring, 0), point_at(ring, n - 1)) {
        n - 1
    } else {
        n
    }
}
