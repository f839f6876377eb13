// Drawings in well-known binary.
ghost use Rattle.std.specs.Prelude.{◌≡◌, length};
ghost use Rattle.wkb_layout.specs.Reader.{read_wkb_call, read_wkb_room};
ghost use Rattle.wkb_layout.specs.Writer.{write_wkb_call, write_wkb_room};
ghost use Rattle.handed.specs.Handed.{returned, told, told_place, itself};

use handed::refusal::hand_refusal;
use handed::value::hand_count;

// The ring of a drawing, without its closing point, in the room: how many vertices it has, or the place of the first fault.
#[unsafe(no_mangle)]
pub extern "C" fn byr_read_wkb(
    wkb: &[u8],
    room: &mut [f64],
    vertices: &mut u64,
    place: &mut u64,
) -> u32
    ensures value { result ≡ returned (read_wkb_call wkb.now (length room.old)) }
    ensures vertices_after { vertices.new ≡ told itself (read_wkb_call wkb.now (length room.old)) vertices.old }
    ensures place_after { place.new ≡ told_place (read_wkb_call wkb.now (length room.old)) place.old }
    ensures room_after { room.new ≡ read_wkb_room wkb.now room.old }
{
    hand_refusal(
        hand_count(wkb_reader::calls::read_wkb(wkb, room), vertices),
        place,
    )
}

// The drawing of a ring, little-endian and closed by its first vertex, at the front of the room: how many bytes it has.
#[unsafe(no_mangle)]
pub extern "C" fn byr_write_wkb(
    ring: &[f64],
    room: &mut [u8],
    bytes: &mut u64,
    place: &mut u64,
) -> u32
    ensures value { result ≡ returned (write_wkb_call ring.now (length room.old)) }
    ensures bytes_after { bytes.new ≡ told itself (write_wkb_call ring.now (length room.old)) bytes.old }
    ensures place_after { place.new ≡ told_place (write_wkb_call ring.now (length room.old)) place.old }
    ensures room_after { room.new ≡ write_wkb_room ring.now room.old }
{
    hand_refusal(
        hand_count(wkb_writer::calls::write_wkb(ring, room), bytes),
        place,
    )
}
