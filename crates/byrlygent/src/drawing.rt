// Whether nothing lay in between in a drawing, to a depth.
ghost use Rattle.std.specs.Prelude.{◌≡◌, eqb, length, not};
ghost use Rattle.plane.specs.Vector.{point};
ghost use Rattle.handed.specs.Handed.{returned, told, told_found, told_place, itself};
ghost use Rattle.handed_drawn.specs.Drawn.{part_in, least_ground, least_depth, least_put, least_edge};
ghost use Rattle.handed_drawn.specs.Drawn.{path_ground, path_depth, path_leg, path_edge};
ghost use Rattle.clear_drawn.specs.Calls.{clear_move_call, clear_move_room, check_reason_call};
ghost use Rattle.clear_drawn_path.specs.Calls.{clear_path_call};

use handed::refusal::hand_refusal;
use handed_drawn::{hand_checked, hand_judged, hand_path_judged};
use plane::Point;

// Whether the disc, as drawn, moved to (fx, fy) and going straight on to (tx, ty), is clear but for a depth, and then the reason:
// p.x p.y q.x q.y for each stationary edge, of the grid. Else the first edge that is not parted with the disc as it is, or that
// the way is enclosed.
#[unsafe(no_mangle)]
pub extern "C" fn byr_clear_move(
    stationary: &[f64],
    orbiting: &[f64],
    fx: f64,
    fy: f64,
    tx: f64,
    ty: f64,
    units: u32,
    reason: &mut [i32],
    ground: &mut u32,
    depth: &mut u32,
    how: &mut u32,
    edge: &mut u64,
    place: &mut u64,
) -> u32
    ensures fact { let o = clear_move_call stationary.now orbiting.now (point fx fy) (point tx ty) units
        (length reason.old) in
        (result ≡ returned o)
        × (ground.new ≡ told least_ground o ground.old)
        × (depth.new ≡ told_found itself (part_in least_depth o) depth.old)
        × (how.new ≡ told_found itself (part_in least_put o) how.old)
        × (edge.new ≡ told_found itself (part_in least_edge o) edge.old)
        × (place.new ≡ told_place o place.old) }
    ensures reason_after { reason.new ≡ clear_move_room stationary.now orbiting.now (point fx fy) (point tx ty)
        units reason.old }
{
    let from = Point { x: fx, y: fy };
    let to = Point { x: tx, y: ty };
    hand_refusal(
        hand_judged(
            clear_drawn::calls::clear_move(stationary, orbiting, from, to, units, reason),
            ground,
            depth,
            how,
            edge,
        ),
        place,
    )
}

// Whether a reason that is lent holds, for the disc put by `how`. Else the first edge whose line does not part it, or that they are
// not balanced.
#[unsafe(no_mangle)]
pub extern "C" fn byr_check_reason(
    stationary: &[f64],
    orbiting: &[f64],
    fx: f64,
    fy: f64,
    tx: f64,
    ty: f64,
    units: u32,
    how: u32,
    reason: &[i32],
    ground: &mut u32,
    depth: &mut u32,
    edge: &mut u64,
    place: &mut u64,
) -> u32
    ensures { let o = check_reason_call stationary.now orbiting.now (point fx fy) (point tx ty) units how
        reason.now in
        (result ≡ returned o)
        × (ground.new ≡ told least_ground o ground.old)
        × (depth.new ≡ told_found itself (part_in least_depth o) depth.old)
        × (edge.new ≡ told_found itself (part_in least_edge o) edge.old)
        × (place.new ≡ told_place o place.old) }
{
    let from = Point { x: fx, y: fy };
    let to = Point { x: tx, y: ty };
    hand_refusal(
        hand_checked(
            clear_drawn::calls::check_reason(stationary, orbiting, from, to, units, how, reason),
            ground,
            depth,
            edge,
        ),
        place,
    )
}

// Whether every leg of a path is clear but for a depth, where `closed` is not 0 that from the last point to the first too. Else
// the first that is not, with its ground and the edge.
#[unsafe(no_mangle)]
pub extern "C" fn byr_clear_path(
    stationary: &[f64],
    orbiting: &[f64],
    path: &[f64],
    closed: u32,
    units: u32,
    ground: &mut u32,
    depth: &mut u32,
    leg: &mut u64,
    edge: &mut u64,
    place: &mut u64,
) -> u32
    ensures { let o = clear_path_call stationary.now orbiting.now path.now (not (eqb closed 0))
        units in
        (result ≡ returned o)
        × (ground.new ≡ told path_ground o ground.old)
        × (depth.new ≡ told_found itself (part_in path_depth o) depth.old)
        × (leg.new ≡ told_found itself (part_in path_leg o) leg.old)
        × (edge.new ≡ told_found itself (part_in path_edge o) edge.old)
        × (place.new ≡ told_place o place.old) }
{
    hand_refusal(
        hand_path_judged(
            clear_drawn_path::calls::clear_path(stationary, orbiting, path, closed != 0, units),
            ground,
            depth,
            leg,
            edge,
        ),
        place,
    )
}
