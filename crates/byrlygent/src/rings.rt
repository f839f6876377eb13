// Segments and rings: the calls of `polygon_ops.rs` and `robust.rs`.
ghost use Rattle.std.specs.Prelude.{◌≡◌, length};
ghost use Rattle.plane.specs.Vector.{point};
ghost use Rattle.handed.specs.Handed.{returned, told, told_place, itself, flag};
ghost use Rattle.handed.specs.Mends.{remaining_in, dropped_in};
ghost use Rattle.mending.specs.Calls.{mend_call, mend_room, mend_dropped, mend_points};
ghost use Rattle.segments.specs.Calls.{orientation_call, on_segment_call, intersect_call};
ghost use Rattle.ring_copies.specs.Calls.{mirror_call, mirror_room, open_call, open_room};
ghost use Rattle.simple_polygon.specs.Calls.{is_simple_call};
ghost use Rattle.ring_distance.specs.Calls.{segment_distance_call, ring_distance_call};
ghost use Rattle.signed_area.specs.Calls.{area2_call, robust_call};

use handed::mended::hand_mended;
use handed::refusal::{hand_refusal, refusal_number};
use handed::value::{hand_count, hand_number, hand_truth, hand_turn};
use plane::Point;

// The turn of a, b, c: 1 counter-clockwise, -1 clockwise, 0 collinear.
#[unsafe(no_mangle)]
pub extern "C" fn byr_orientation(
    ax: f64,
    ay: f64,
    bx: f64,
    by: f64,
    cx: f64,
    cy: f64,
    turn: &mut i32,
) -> u32
    ensures value { result ≡ returned (orientation_call (point ax ay) (point bx by) (point cx cy)) }
    ensures turn_after { turn.new ≡ told itself (orientation_call (point ax ay) (point bx by) (point cx cy)) turn.old }
{
    let a = Point { x: ax, y: ay };
    let b = Point { x: bx, y: by };
    let c = Point { x: cx, y: cy };
    refusal_number(hand_turn(segments::calls::orientation(a, b, c), turn))
}

// Whether p, known to be collinear with the segment a b, lies on it.
#[unsafe(no_mangle)]
pub extern "C" fn byr_on_segment(
    ax: f64,
    ay: f64,
    bx: f64,
    by: f64,
    px: f64,
    py: f64,
    on: &mut u32,
) -> u32
    ensures value { result ≡ returned (on_segment_call (point ax ay) (point bx by) (point px py)) }
    ensures on_after { on.new ≡ told flag (on_segment_call (point ax ay) (point bx by) (point px py)) on.old }
{
    let a = Point { x: ax, y: ay };
    let b = Point { x: bx, y: by };
    let p = Point { x: px, y: py };
    refusal_number(hand_truth(segments::calls::on_segment(a, b, p), on))
}

// Whether the closed segments 1 2 and 3 4 meet.
#[unsafe(no_mangle)]
pub extern "C" fn byr_segments_intersect(
    x1: f64,
    y1: f64,
    x2: f64,
    y2: f64,
    x3: f64,
    y3: f64,
    x4: f64,
    y4: f64,
    meet: &mut u32,
) -> u32
    ensures value { result ≡ returned (intersect_call (point x1 y1) (point x2 y2) (point x3 y3) (point x4 y4)) }
    ensures meet_after { meet.new ≡ told flag (intersect_call (point x1 y1) (point x2 y2) (point x3 y3) (point x4 y4)) meet.old }
{
    let p1 = Point { x: x1, y: y1 };
    let p2 = Point { x: x2, y: y2 };
    let p3 = Point { x: x3, y: y3 };
    let p4 = Point { x: x4, y: y4 };
    refusal_number(hand_truth(segments::calls::segments_intersect(p1, p2, p3, p4), meet))
}

// The distance of p from the segment a b.
#[unsafe(no_mangle)]
pub extern "C" fn byr_point_segment_distance(
    px: f64,
    py: f64,
    ax: f64,
    ay: f64,
    bx: f64,
    by: f64,
    distance: &mut f64,
) -> u32
    ensures value { result ≡ returned (segment_distance_call (point px py) (point ax ay) (point bx by)) }
    ensures distance_after { distance.new ≡ told itself (segment_distance_call (point px py) (point ax ay) (point bx by)) distance.old }
{
    let p = Point { x: px, y: py };
    let a = Point { x: ax, y: ay };
    let b = Point { x: bx, y: by };
    refusal_number(hand_number(
        ring_distance::calls::point_segment_distance(p, a, b),
        distance,
    ))
}

// The ring mirrored in the y axis, its order reversed, in the room: how many vertices it has.
#[unsafe(no_mangle)]
pub extern "C" fn byr_mirror_polygon(
    ring: &[f64],
    room: &mut [f64],
    vertices: &mut u64,
    place: &mut u64,
) -> u32
    ensures value { result ≡ returned (mirror_call ring.now (length room.old)) }
    ensures vertices_after { vertices.new ≡ told itself (mirror_call ring.now (length room.old)) vertices.old }
    ensures place_after { place.new ≡ told_place (mirror_call ring.now (length room.old))
        place.old }
    ensures room_after { room.new ≡ mirror_room ring.now room.old }
{
    hand_refusal(
        hand_count(ring_copies::calls::mirror_polygon(ring, room), vertices),
        place,
    )
}

// The ring without its closing repeat, in the room: how many vertices it has.
#[unsafe(no_mangle)]
pub extern "C" fn byr_open_ring(
    ring: &[f64],
    room: &mut [f64],
    vertices: &mut u64,
    place: &mut u64,
) -> u32
    ensures value { result ≡ returned (open_call ring.now (length room.old)) }
    ensures vertices_after { vertices.new ≡ told itself (open_call ring.now (length room.old)) vertices.old }
    ensures place_after { place.new ≡ told_place (open_call ring.now (length room.old))
        place.old }
    ensures room_after { room.new ≡ open_room ring.now room.old }
{
    hand_refusal(
        hand_count(ring_copies::calls::open_ring(ring, room), vertices),
        place,
    )
}

// The ring mended in the room, and how many vertices remain; per dropped vertex its old index and why, 0 for one of a run and 1 for a trailing one,
// in `dropped`, x and y in `points`, and how many were dropped.
#[unsafe(no_mangle)]
pub extern "C" fn byr_mend_ring(
    ring: &[f64],
    room: &mut [f64],
    dropped: &mut [u64],
    points: &mut [f64],
    vertices: &mut u64,
    count: &mut u64,
    place: &mut u64,
) -> u32
    ensures value { result ≡ returned
        (mend_call ring.now (length room.old) (length dropped.old) (length points.old)) }
    ensures vertices_after { vertices.new ≡ told remaining_in
        (mend_call ring.now (length room.old) (length dropped.old) (length points.old))
        vertices.old }
    ensures count_after { count.new ≡ told dropped_in
        (mend_call ring.now (length room.old) (length dropped.old) (length points.old))
        count.old }
    ensures place_after { place.new ≡ told_place
        (mend_call ring.now (length room.old) (length dropped.old) (length points.old))
        place.old }
    ensures room_after { room.new ≡ mend_room ring.now room.old dropped.old points.old }
    ensures dropped_after { dropped.new ≡ mend_dropped ring.now room.old dropped.old points.old }
    ensures points_after { points.new ≡ mend_points ring.now room.old dropped.old points.old }
{
    hand_refusal(
        hand_mended(
            mending::calls::mend_ring(ring, room, dropped, points),
            vertices,
            count,
        ),
        place,
    )
}

// Whether a ring is simple. Fewer than three vertices are not.
#[unsafe(no_mangle)]
pub extern "C" fn byr_is_simple_polygon(ring: &[f64], simple: &mut u32, place: &mut u64) -> u32
    ensures value { result ≡ returned (is_simple_call ring.now) }
    ensures simple_after { simple.new ≡ told flag (is_simple_call ring.now) simple.old }
    ensures place_after { place.new ≡ told_place (is_simple_call ring.now) place.old }
{
    hand_refusal(
        hand_truth(simple_polygon::calls::is_simple_polygon(ring), simple),
        place,
    )
}

// The shortest distance between the edges of two rings, +infinity where one has no vertex.
#[unsafe(no_mangle)]
pub extern "C" fn byr_ring_distance(
    a: &[f64],
    b: &[f64],
    distance: &mut f64,
    place: &mut u64,
) -> u32
    ensures value { result ≡ returned (ring_distance_call a.now b.now) }
    ensures distance_after { distance.new ≡ told itself (ring_distance_call a.now b.now) distance.old }
    ensures place_after { place.new ≡ told_place (ring_distance_call a.now b.now) place.old }
{
    hand_refusal(
        hand_number(ring_distance::calls::ring_distance(a, b), distance),
        place,
    )
}

// Twice the signed area of a ring: above 0 where its order is counter-clockwise.
#[unsafe(no_mangle)]
pub extern "C" fn byr_signed_area2(ring: &[f64], area2: &mut f64, place: &mut u64) -> u32
    ensures value { result ≡ returned (area2_call ring.now) }
    ensures area2_after { area2.new ≡ told itself (area2_call ring.now) area2.old }
    ensures place_after { place.new ≡ told_place (area2_call ring.now) place.old }
{
    hand_refusal(
        hand_number(signed_area::calls::signed_area2(ring), area2),
        place,
    )
}

// The signed area of a ring by a compensated sum, 0.0 below three vertices.
#[unsafe(no_mangle)]
pub extern "C" fn byr_signed_area_robust(ring: &[f64], area: &mut f64, place: &mut u64) -> u32
    ensures value { result ≡ returned (robust_call ring.now) }
    ensures area_after { area.new ≡ told itself (robust_call ring.now) area.old }
    ensures place_after { place.new ≡ told_place (robust_call ring.now) place.old }
{
    hand_refusal(
        hand_number(signed_area::calls::signed_area_robust(ring), area),
        place,
    )
}
