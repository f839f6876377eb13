// What is written to a room that the caller lends: a point as one of its vertices, and the front of a list.
ghost use Rattle.std.specs.Prelude.{◌≡◌, ◌+◌, ◌*◌, ◌<◌, ◌≤◌, length, take};
ghost use Rattle.ring.specs.Room.{laid, put_at};

use plane::Point;

// A point, written to a room as its vertex i.
pub fn put(room: &mut [f64], i: usize, p: Point)
    requires { 2 * i + 1 < length room.old }
    ensures { room.new ≡ put_at room.old i p }
{
    room[2 * i] = p.x;
    room[2 * i + 1] = p.y;
}

// The first len numbers of a list, at the front of the room.
pub fn copy(list: &[f64], len: usize, room: &mut [f64])
    requires { (len ≤ length list.now) × (len ≤ length room.old) }
    ensures { room.new ≡ laid (take len list.now) room.old }
{
    // A loop, since `copy_from_slice` needs C's memmove, which the archive may not need.
    for i in 0..len {
        room[i] = list[i];
    }
}
