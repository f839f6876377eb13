// What a file holds, loaded into a room.
ghost use Rattle.std.specs.Prelude.{◌≡◌, ◌+◌, ◌*◌, ◌≤◌, length, true};
ghost use Rattle.ring.specs.Room.{laid};
ghost use Rattle.refusals.specs.Refusals.{passed};
ghost use Rattle.wkb_layout.specs.Layout.{open_vertices};
ghost use Rattle.wkb_layout.specs.Faults.{wkb_check};
ghost use Rattle.wkb_layout.specs.Reader.{open_ring};

use crate::check::{number, points};
use wkb_layout::{HEAD_BYTES, NUMBER_BYTES};

// The opened ring of a file that passes the checks, at the room's front. Answers how many vertices it has.
pub fn load(f: &[u8], room: &mut [f64]) -> usize
    requires f_value { passed (wkb_check f.now) ≡ true }
    requires f_in_bounds { 2 * open_vertices f.now ≤ length room.old }
    ensures value { result ≡ open_vertices f.now }
    ensures room_after { room.new ≡ laid (open_ring f.now) room.old }
{
    let n = points(f) as usize - 1;
    for j in 0..2 * n {
        room[j] = number(f, HEAD_BYTES + NUMBER_BYTES * j);
    }
    n
}
