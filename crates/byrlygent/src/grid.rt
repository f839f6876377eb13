// Floats on a grid of whole numbers.
ghost use Rattle.std.specs.Prelude.{◌≡◌, length};
ghost use Rattle.handed.specs.Handed.{returned, told, told_place, itself};
ghost use Rattle.to_grid.specs.Calls.{to_grid_call, to_grid_room};

use handed::refusal::hand_refusal;
use handed::value::hand_count;

// The points on a grid of so many units in 1, in the room: how many points were written.
#[unsafe(no_mangle)]
pub extern "C" fn byr_to_grid(
    points: &[f64],
    units: u32,
    room: &mut [i32],
    count: &mut u64,
    place: &mut u64,
) -> u32
    ensures fact { let o = to_grid_call points.now units (length room.old) in
        (result ≡ returned o)
        × (count.new ≡ told itself o count.old)
        × (place.new ≡ told_place o place.old) }
    ensures room_after { room.new ≡ to_grid_room points.now units room.old }
{
    hand_refusal(
        hand_count(to_grid::calls::to_grid(points, units, room), count),
        place,
    )
}
