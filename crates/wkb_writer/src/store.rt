// The bytes of a drawing, stored in a room.
ghost use Rattle.std.specs.Prelude.{◌≡◌, map, ◌+◌, ◌*◌, ◌%◌, ◌≤◌, length};
ghost use Rattle.std.proofs.lemmas.List.Edits.{sets};
ghost use Rattle.std.specs.Float.{binary64};
ghost use Rattle.std.specs.Float.Ieee.{to_bits};
ghost use Rattle.ring.specs.Room.{laid};
ghost use Rattle.wkb_layout.specs.Layout.{number_bytes, head_bytes, numbers_as, head_of};
ghost use Rattle.wkb_layout.specs.Writer.{drawing_of, drawing_size};
ghost use Rattle.wkb_layout.specs.declared.Order.TheVariants.{Little};

use number_bytes::{bits_of, put};
use wkb_layout::{
    CODE_BYTES, HEAD_BYTES, NUMBER_BYTES, POINTS_AT, POLYGON_TYPE, RINGS_AT, TYPE_AT,
};

// The fields before so many points, at the room's front.
fn put_head(points: u64, room: &mut [u8])
    requires { head_bytes ≤ length room.old }
    ensures { room.new ≡ sets room.old 0 (head_of Little points) }
{
    put(room, 0, TYPE_AT, 1);
    put(room, TYPE_AT, CODE_BYTES, POLYGON_TYPE);
    put(room, RINGS_AT, CODE_BYTES, 1);
    put(room, POINTS_AT, CODE_BYTES, points);
}

// The numbers of a list, from room[at] on.
fn put_numbers(xs: &[f64], room: &mut [u8], at: usize)
    requires { (at + number_bytes * length xs.now ≤ length room.old) × (length xs.now ≤ 512) }
    ensures { room.new ≡ sets room.old at (numbers_as Little (map (to_bits binary64) xs.now)) }
{
    for (j, &x) in xs.iter().enumerate() {
        put(room, at + NUMBER_BYTES * j, NUMBER_BYTES, bits_of(x));
    }
}

// The drawing of a ring, at the room's front, and how many bytes it has. The rest of the room stays.
pub fn put_drawing(xs: &[f64], room: &mut [u8]) -> usize
    requires xs_len { (length xs.now % 2 ≡ 0) × (6 ≤ length xs.now) × (length xs.now ≤ 512) }
    requires xs_in_bounds { drawing_size xs.now ≤ length room.old }
    ensures value { result ≡ drawing_size xs.now }
    ensures room_after { room.new ≡ laid (drawing_of xs.now) room.old }
{
    let n = xs.len();
    let last = HEAD_BYTES + NUMBER_BYTES * n;
    put_head((n / 2 + 1) as u64, room);
    put_numbers(xs, room, HEAD_BYTES);
    put_numbers(&xs[0..2], room, last);
    last + 2 * NUMBER_BYTES
}
