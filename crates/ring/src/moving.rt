// A ring moved by a point, written to an array that the caller lends.
ghost use Rattle.std.specs.Prelude.{◌≡◌, ◌≤◌, length};
ghost use Rattle.ring.specs.Room.{laid};
ghost use Rattle.ring.specs.Moved.{moved_of};

use crate::point_at;
use crate::room::put;
use plane::Point;
use plane::vector::plus;

// Each vertex of a ring plus a point, at the front of the room.
pub fn move_ring(ring: &[f64], by: Point, room: &mut [f64])
    requires { length ring.now ≤ length room.old }
    ensures { room.new ≡ laid (moved_of ring.now by) room.old }
{
    let n = ring.len() / 2;
    for i in 0..n {
        put(room, i, plus(point_at(ring, i), by));
    }
}
