// Discs from the table.
ghost use Rattle.std.specs.Prelude.{◌≡◌, length};
ghost use Rattle.plane.specs.Vector.{point};
ghost use Rattle.handed.specs.Handed.{returned, told, itself};
ghost use Rattle.discs.specs.Calls.{disc_call, disc_room};

use handed::refusal::refusal_number;
use handed::value::hand_count;
use plane::Point;

// A disc of 4m vertices, counter-clockwise, in the room: how many vertices it has.
#[unsafe(no_mangle)]
pub extern "C" fn byr_make_disc(
    cx: f64,
    cy: f64,
    radius: f64,
    m: u64,
    room: &mut [f64],
    vertices: &mut u64,
) -> u32
    ensures value { result ≡ returned (disc_call (point cx cy) radius m (length room.old)) }
    ensures vertices_after { vertices.new ≡ told itself (disc_call (point cx cy) radius m (length room.old)) vertices.old }
    ensures room_after { room.new ≡ disc_room (point cx cy) radius m room.old }
{
    let centre = Point { x: cx, y: cy };
    refusal_number(hand_count(
        discs::calls::make_disc(centre, radius, m as usize, room),
        vertices,
    ))
}
