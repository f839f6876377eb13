// The reason that nothing lay in between, for whole coordinates.
ghost use Rattle.std.specs.Prelude.{◌≡◌, length};
ghost use Rattle.handed.specs.Handed.{returned, told, told_found, told_place, itself};
ghost use Rattle.handed.specs.Clear.{move_ground, edge_in, leg_ground, leg_in, leg_edge_in};
ghost use Rattle.clear_calls.specs.Calls.{clear_move_call, clear_move_room, check_reason_call};
ghost use Rattle.clear_path.specs.Calls.{clear_path_call};

use handed::clear::{hand_judged, hand_path_judged};
use handed::refusal::hand_refusal;

// Whether a move is clear, and then the reason: p.x p.y q.x q.y for each stationary edge. Else the first edge that no line of the search parts, or that the
// way is enclosed.
#[unsafe(no_mangle)]
pub extern "C" fn byr_whole_clear_move(
    stationary: &[i32],
    orbiting: &[i32],
    dx: i32,
    dy: i32,
    reason: &mut [i32],
    ground: &mut u32,
    edge: &mut u64,
    place: &mut u64,
) -> u32
    ensures value { result ≡ returned (clear_move_call stationary.now orbiting.now dx dy (length reason.old)) }
    ensures ground_after { ground.new ≡ told move_ground
        (clear_move_call stationary.now orbiting.now dx dy (length reason.old))
        ground.old }
    ensures edge_after { edge.new ≡ told_found itself
        (edge_in (clear_move_call stationary.now orbiting.now dx dy (length reason.old)))
        edge.old }
    ensures place_after { place.new ≡ told_place
        (clear_move_call stationary.now orbiting.now dx dy (length reason.old))
        place.old }
    ensures reason_after { reason.new ≡ clear_move_room stationary.now orbiting.now dx dy reason.old }
{
    hand_refusal(
        hand_judged(
            clear_calls::calls::clear_move(stationary, orbiting, dx, dy, reason),
            ground,
            edge,
        ),
        place,
    )
}

// Whether a reason that is lent holds. Else the first edge whose line does not part it, or that they are not balanced.
#[unsafe(no_mangle)]
pub extern "C" fn byr_whole_check_reason(
    stationary: &[i32],
    orbiting: &[i32],
    dx: i32,
    dy: i32,
    reason: &[i32],
    ground: &mut u32,
    edge: &mut u64,
    place: &mut u64,
) -> u32
    ensures value { result ≡ returned (check_reason_call stationary.now orbiting.now dx dy reason.now) }
    ensures ground_after { ground.new ≡ told move_ground
        (check_reason_call stationary.now orbiting.now dx dy reason.now)
        ground.old }
    ensures edge_after { edge.new ≡ told_found itself
        (edge_in (check_reason_call stationary.now orbiting.now dx dy reason.now))
        edge.old }
    ensures place_after { place.new ≡ told_place
        (check_reason_call stationary.now orbiting.now dx dy reason.now)
        place.old }
{
    hand_refusal(
        hand_judged(
            clear_calls::calls::check_reason(stationary, orbiting, dx, dy, reason),
            ground,
            edge,
        ),
        place,
    )
}

// Whether every leg of a path is clear, that from the last point to the first included. Else the first that is not, with its ground and the edge.
#[unsafe(no_mangle)]
pub extern "C" fn byr_whole_clear_path(
    stationary: &[i32],
    orbiting: &[i32],
    path: &[i32],
    ground: &mut u32,
    leg: &mut u64,
    edge: &mut u64,
    place: &mut u64,
) -> u32
    ensures value { result ≡ returned (clear_path_call stationary.now orbiting.now path.now) }
    ensures ground_after { ground.new ≡ told leg_ground
        (clear_path_call stationary.now orbiting.now path.now) ground.old }
    ensures leg_after { leg.new ≡ told_found itself
        (leg_in (clear_path_call stationary.now orbiting.now path.now)) leg.old }
    ensures edge_after { edge.new ≡ told_found itself
        (leg_edge_in (clear_path_call stationary.now orbiting.now path.now)) edge.old }
    ensures place_after { place.new ≡ told_place
        (clear_path_call stationary.now orbiting.now path.now) place.old }
{
    hand_refusal(
        hand_path_judged(
            clear_path::calls::clear_path(stationary, orbiting, path),
            ground,
            leg,
            edge,
        ),
        place,
    )
}
