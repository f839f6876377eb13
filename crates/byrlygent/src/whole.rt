// Segments and rings in whole coordinates: the calls of the engine that reckons in integers.
ghost use Rattle.std.specs.Prelude.{◌≡◌};
ghost use Rattle.handed.specs.Handed.{returned, told, told_place, itself, flag};
ghost use Rattle.whole_engine.specs.Calls.{whole_turn_call, whole_orientation_call, whole_on_segment_call, whole_intersect_call};
ghost use Rattle.whole_engine.specs.Calls.{whole_simple_call, whole_area2_call};

use handed::refusal::{hand_refusal, refusal_number};
use handed::value::{hand_truth, hand_turn};
use handed::whole::hand_integer;

// The turn of a, b, c: 1 counter-clockwise, -1 clockwise, 0 collinear.
#[unsafe(no_mangle)]
pub extern "C" fn byr_whole_turn(
    ax: i32,
    ay: i32,
    bx: i32,
    by: i32,
    cx: i32,
    cy: i32,
    turn: &mut i32,
) -> u32
    ensures value { result ≡ returned (whole_turn_call ax ay bx by cx cy) }
    ensures turn_after { turn.new ≡ told itself (whole_turn_call ax ay bx by cx cy) turn.old }
{
    refusal_number(hand_turn(whole_engine::calls::turn(ax, ay, bx, by, cx, cy), turn))
}

// The orientation of a, b, c, which is their turn.
#[unsafe(no_mangle)]
pub extern "C" fn byr_whole_orientation(
    ax: i32,
    ay: i32,
    bx: i32,
    by: i32,
    cx: i32,
    cy: i32,
    turn: &mut i32,
) -> u32
    ensures value { result ≡ returned (whole_orientation_call ax ay bx by cx cy) }
    ensures turn_after { turn.new ≡ told itself (whole_orientation_call ax ay bx by cx cy) turn.old }
{
    refusal_number(hand_turn(
        whole_engine::calls::orientation(ax, ay, bx, by, cx, cy),
        turn,
    ))
}

// Whether p, known to be collinear with the segment a b, lies on it.
#[unsafe(no_mangle)]
pub extern "C" fn byr_whole_on_segment(
    ax: i32,
    ay: i32,
    bx: i32,
    by: i32,
    px: i32,
    py: i32,
    on: &mut u32,
) -> u32
    ensures value { result ≡ returned (whole_on_segment_call ax ay bx by px py) }
    ensures on_after { on.new ≡ told flag (whole_on_segment_call ax ay bx by px py) on.old }
{
    refusal_number(hand_truth(whole_engine::calls::on_segment(ax, ay, bx, by, px, py), on))
}

// Whether the closed segments 1 2 and 3 4 meet.
#[unsafe(no_mangle)]
pub extern "C" fn byr_whole_segments_intersect(
    x1: i32,
    y1: i32,
    x2: i32,
    y2: i32,
    x3: i32,
    y3: i32,
    x4: i32,
    y4: i32,
    meet: &mut u32,
) -> u32
    ensures value { result ≡ returned (whole_intersect_call x1 y1 x2 y2 x3 y3 x4 y4) }
    ensures meet_after { meet.new ≡ told flag (whole_intersect_call x1 y1 x2 y2 x3 y3 x4 y4) meet.old }
{
    refusal_number(hand_truth(
        whole_engine::calls::segments_intersect(x1, y1, x2, y2, x3, y3, x4, y4),
        meet,
    ))
}

// Whether a ring is simple. Fewer than three vertices are not.
#[unsafe(no_mangle)]
pub extern "C" fn byr_whole_is_simple_polygon(
    ring: &[i32],
    simple: &mut u32,
    place: &mut u64,
) -> u32
    ensures value { result ≡ returned (whole_simple_call ring.now) }
    ensures simple_after { simple.new ≡ told flag (whole_simple_call ring.now) simple.old }
    ensures place_after { place.new ≡ told_place (whole_simple_call ring.now) place.old }
{
    hand_refusal(
        hand_truth(whole_engine::calls::is_simple_polygon(ring), simple),
        place,
    )
}

// Twice the signed area of a ring: above 0 where its order is counter-clockwise.
#[unsafe(no_mangle)]
pub extern "C" fn byr_whole_signed_area2(ring: &[i32], area2: &mut i64, place: &mut u64) -> u32
    ensures value { result ≡ returned (whole_area2_call ring.now) }
    ensures area2_after { area2.new ≡ told itself (whole_area2_call ring.now) area2.old }
    ensures place_after { place.new ≡ told_place (whole_area2_call ring.now) place.old }
{
    hand_refusal(
        hand_integer(whole_engine::calls::signed_area2(ring), area2),
        place,
    )
}
