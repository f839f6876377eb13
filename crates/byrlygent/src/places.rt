// Places of a path to inspect.
ghost use Rattle.std.specs.Prelude.{◌≡◌, length};
ghost use Rattle.inspection.specs.Calls.{next_places_call, next_places_room};
ghost use Rattle.handed.specs.Handed.{returned, told};
ghost use Rattle.handed.specs.Places.{places_in, following_in};

use handed::places::hand_inspected;
use handed::refusal::refusal_number;

// The next k places of a path of n, or all where n is smaller, from the start on, in the room: how many they are; the start becomes the following one.
#[unsafe(no_mangle)]
pub extern "C" fn byr_next_places(
    n: u64,
    k: u64,
    start: &mut u64,
    room: &mut [u64],
    count: &mut u64,
) -> u32
    ensures value { result ≡ returned (next_places_call n k start.old (length room.old)) }
    ensures start_after { start.new ≡ told following_in (next_places_call n k start.old (length room.old))
        start.old }
    ensures count_after { count.new ≡ told places_in (next_places_call n k start.old (length room.old))
        count.old }
    ensures room_after { room.new ≡ next_places_room n k start.old room.old }
{
    let from = *start;
    refusal_number(hand_inspected(
        inspection::calls::next_places(n, k, from, room),
        start,
        count,
    ))
}
