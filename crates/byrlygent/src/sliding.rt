// Sliding one polygon around another: the calls of `nfp_sliding.rs`.
ghost use Rattle.std.specs.Prelude.{◌≡◌, length};
ghost use Rattle.plane.specs.Vector.{point};
ghost use Rattle.handed.specs.Handed.{returned, told, told_found, place_of, told_place, itself, flag, is_found, x_of, y_of, parameter_in, foot_in, hit_distance, hit_kind, hit_stationary, hit_orbiting};
ghost use Rattle.projection.specs.Calls.{project_call, distance_call, near_call};
ghost use Rattle.contacts_call.specs.Calls.{find_call, find_which, find_points};
ghost use Rattle.vectors_call.specs.Calls.{vectors_call, vectors_room, sources_room, fit_call, fit_room, fit_sources};
ghost use Rattle.selection.specs.Calls.{select_call};
ghost use Rattle.collision.specs.Calls.{collision_call};
ghost use Rattle.grounds.specs.Calls.{explain_call};
ghost use Rattle.handed.specs.Explanations.{hit_in, others_told, ground_in, near_in, between_in, far_in};
ghost use Rattle.interlocking.specs.Calls.{interlock_call};
ghost use Rattle.recovery.specs.Calls.{recover_call};
ghost use Rattle.overlap.specs.Calls.{overlap_call, overlap_with_call};
ghost use Rattle.start_position.specs.Calls.{start_call};
ghost use Rattle.nfp_sliding.specs.Calls.{refusal_of, trace_call, trace_work, trace_result};
ghost use Rattle.handed.specs.Traces.{points_told, stored_told, passes_told, stop_told};
ghost use Rattle.simplify.specs.Calls.{simplify_call, simplify_room};
ghost use Rattle.byrlygent.specs.Lent.{previous_of, settings_of};

use handed::explained::hand_explained;
use handed::found::{hand_checked, hand_position, hand_selected};
use handed::refusal::{hand_refusal, refusal_number};
use handed::trace::hand_traced;
use handed::value::{hand_count, hand_number, hand_projected, hand_start, hand_truth};
use plane::Point;
use refusals::Settings;

// The parameter of the foot of p on the segment a b, 0 at a and 1 at b, and where the foot sits.
#[unsafe(no_mangle)]
pub extern "C" fn byr_project_point_to_segment(
    px: f64,
    py: f64,
    ax: f64,
    ay: f64,
    bx: f64,
    by: f64,
    parameter: &mut f64,
    foot: &mut u32,
) -> u32
    ensures value { result ≡ returned (project_call (point px py) (point ax ay) (point bx by)) }
    ensures parameter_after { parameter.new ≡ told parameter_in (project_call (point px py) (point ax ay) (point bx by)) parameter.old }
    ensures foot_after { foot.new ≡ told foot_in (project_call (point px py) (point ax ay) (point bx by)) foot.old }
{
    let p = Point { x: px, y: py };
    let a = Point { x: ax, y: ay };
    let b = Point { x: bx, y: by };
    refusal_number(hand_projected(
        projection::calls::project_point_to_segment(p, a, b),
        parameter,
        foot,
    ))
}

// The distance of p from the segment a b.
#[unsafe(no_mangle)]
pub extern "C" fn byr_point_to_segment_distance(
    px: f64,
    py: f64,
    ax: f64,
    ay: f64,
    bx: f64,
    by: f64,
    distance: &mut f64,
) -> u32
    ensures value { result ≡ returned (distance_call (point px py) (point ax ay) (point bx by)) }
    ensures distance_after { distance.new ≡ told itself (distance_call (point px py) (point ax ay) (point bx by)) distance.old }
{
    let p = Point { x: px, y: py };
    let a = Point { x: ax, y: ay };
    let b = Point { x: bx, y: by };
    refusal_number(hand_number(
        projection::calls::point_to_segment_distance(p, a, b),
        distance,
    ))
}

// Whether p is nearer to the segment a b than the tolerance.
#[unsafe(no_mangle)]
pub extern "C" fn byr_point_on_segment(
    px: f64,
    py: f64,
    ax: f64,
    ay: f64,
    bx: f64,
    by: f64,
    tolerance: f64,
    on: &mut u32,
) -> u32
    ensures value { result ≡ returned (near_call (point px py) (point ax ay) (point bx by) tolerance) }
    ensures on_after { on.new ≡ told flag (near_call (point px py) (point ax ay) (point bx by) tolerance) on.old }
{
    let p = Point { x: px, y: py };
    let a = Point { x: ax, y: ay };
    let b = Point { x: bx, y: by };
    refusal_number(hand_truth(projection::calls::point_on_segment(p, a, b, tolerance), on))
}

// The contacts of two polygons, and how many there are: per contact kind, stationary index, orbiting index and foot in `which`, x and y in
// `points`.
#[unsafe(no_mangle)]
pub extern "C" fn byr_find_contacts(
    stationary: &[f64],
    orbiting: &[f64],
    tolerance: f64,
    which: &mut [u64],
    points: &mut [f64],
    count: &mut u64,
    place: &mut u64,
) -> u32
    ensures value { result ≡ returned
        (find_call stationary.now orbiting.now tolerance (length which.old) (length points.old)) }
    ensures count_after { count.new ≡ told itself
        (find_call stationary.now orbiting.now tolerance (length which.old) (length points.old))
        count.old }
    ensures place_after { place.new ≡ told_place
        (find_call stationary.now orbiting.now tolerance (length which.old)
        (length points.old))
        place.old }
    ensures which_after { which.new ≡ find_which stationary.now orbiting.now tolerance which.old
        points.old }
    ensures points_after { points.new ≡ find_points stationary.now orbiting.now tolerance which.old
        points.old }
{
    hand_refusal(
        hand_count(
            contacts_call::calls::find_contacts(stationary, orbiting, tolerance, which, points),
            count,
        ),
        place,
    )
}

// The vectors of those contacts, and how many there are: per vector its direction and its distance in `vectors`, its contact's index in `sources`.
#[unsafe(no_mangle)]
pub extern "C" fn byr_compute_translation_vectors(
    stationary: &[f64],
    orbiting: &[f64],
    tolerance: f64,
    vectors: &mut [f64],
    sources: &mut [u64],
    count: &mut u64,
    place: &mut u64,
) -> u32
    ensures value { result ≡ returned
        (vectors_call stationary.now orbiting.now tolerance (length vectors.old) (length sources.old)) }
    ensures count_after { count.new ≡ told itself
        (vectors_call stationary.now orbiting.now tolerance (length vectors.old) (length sources.old))
        count.old }
    ensures place_after { place.new ≡ told_place
        (vectors_call stationary.now orbiting.now tolerance (length vectors.old)
        (length sources.old))
        place.old }
    ensures vectors_after { vectors.new ≡ vectors_room stationary.now orbiting.now tolerance vectors.old
        sources.old }
    ensures sources_after { sources.new ≡ sources_room stationary.now orbiting.now tolerance vectors.old
        sources.old }
{
    hand_refusal(
        hand_count(
            vectors_call::calls::compute_translation_vectors(
                stationary, orbiting, tolerance, vectors, sources,
            ),
            count,
        ),
        place,
    )
}

// Those of them that lead from the reference (rx, ry) to no visited position.
#[unsafe(no_mangle)]
pub extern "C" fn byr_handle_perfect_fit(
    stationary: &[f64],
    orbiting: &[f64],
    rx: f64,
    ry: f64,
    visited: &[f64],
    tolerance: f64,
    vectors: &mut [f64],
    sources: &mut [u64],
    count: &mut u64,
    place: &mut u64,
) -> u32
    ensures value { result ≡ returned
        (fit_call stationary.now orbiting.now (point rx ry) visited.now tolerance (length vectors.old) (length sources.old)) }
    ensures count_after { count.new ≡ told itself
        (fit_call stationary.now orbiting.now (point rx ry) visited.now tolerance (length vectors.old) (length sources.old))
        count.old }
    ensures place_after { place.new ≡ told_place
        (fit_call stationary.now orbiting.now (point rx ry) visited.now tolerance
        (length vectors.old) (length sources.old))
        place.old }
    ensures vectors_after { vectors.new ≡ fit_room stationary.now orbiting.now (point rx ry) visited.now
        tolerance vectors.old sources.old }
    ensures sources_after { sources.new ≡ fit_sources stationary.now orbiting.now (point rx ry) visited.now
        tolerance vectors.old sources.old }
{
    let reference = Point { x: rx, y: ry };
    hand_refusal(
        hand_count(
            vectors_call::calls::handle_perfect_fit(
                stationary, orbiting, reference, visited, tolerance, vectors, sources,
            ),
            count,
        ),
        place,
    )
}

// A previous direction: none where `has` is 0.
fn previous(has: u32, x: f64, y: f64) -> Option<Point>
    ensures { result ≡ previous_of has x y }
{
    if has == 0 { None } else { Some(Point { x, y }) }
}

// The index of the vector to slide along, or nothing for an empty list, by the previous direction (px, py) where `has` is not 0, the centroid (cx, cy) and the
// position (x, y). All bit patterns are taken.
#[unsafe(no_mangle)]
pub extern "C" fn byr_select_translation_vector(
    vectors: &[f64],
    has: u32,
    px: f64,
    py: f64,
    cx: f64,
    cy: f64,
    x: f64,
    y: f64,
    found: &mut u32,
    index: &mut u64,
    place: &mut u64,
) -> u32
    ensures value { result ≡ returned (select_call vectors.now (previous_of has px py) (point cx cy) (point x y)) }
    ensures found_after { found.new ≡ told is_found (select_call vectors.now (previous_of has px py) (point cx cy) (point x y))
        found.old }
    ensures index_after { index.new ≡ told_found itself (select_call vectors.now (previous_of has px py) (point cx cy) (point x y))
        index.old }
    ensures place_after { place.new ≡ told_place (select_call vectors.now (previous_of has px py) (point cx cy) (point x y))
        place.old }
{
    let before = previous(has, px, py);
    let centroid = Point { x: cx, y: cy };
    let position = Point { x, y };
    hand_refusal(
        hand_selected(
            selection::calls::select_translation_vector(vectors, before, centroid, position),
            found,
            index,
        ),
        place,
    )
}

// What orbiting, moved by (dx, dy), runs into first: nothing, or the hit's distance, its kind and both indices.
#[unsafe(no_mangle)]
pub extern "C" fn byr_check_translation_collision(
    stationary: &[f64],
    orbiting: &[f64],
    dx: f64,
    dy: f64,
    tolerance: f64,
    found: &mut u32,
    distance: &mut f64,
    kind: &mut u32,
    si: &mut u64,
    oi: &mut u64,
    place: &mut u64,
) -> u32
    ensures value { result ≡ returned (collision_call stationary.now orbiting.now (point dx dy) tolerance) }
    ensures found_after { found.new ≡ told is_found (collision_call stationary.now orbiting.now (point dx dy) tolerance)
        found.old }
    ensures distance_after { distance.new ≡ told_found hit_distance
        (collision_call stationary.now orbiting.now (point dx dy) tolerance) distance.old }
    ensures kind_after { kind.new ≡ told_found hit_kind
        (collision_call stationary.now orbiting.now (point dx dy) tolerance) kind.old }
    ensures si_after { si.new ≡ told_found hit_stationary
        (collision_call stationary.now orbiting.now (point dx dy) tolerance) si.old }
    ensures oi_after { oi.new ≡ told_found hit_orbiting
        (collision_call stationary.now orbiting.now (point dx dy) tolerance) oi.old }
    ensures place_after { place.new ≡ told_place (collision_call stationary.now orbiting.now (point dx dy) tolerance)
        place.old }
{
    let translation = Point { x: dx, y: dy };
    let answer = collision::calls::check_translation_collision(
        stationary,
        orbiting,
        translation,
        tolerance,
    );
    hand_refusal(hand_checked(answer, found, distance, kind, si, oi), place)
}

// What orbiting, moved by (dx, dy), runs into first, or why into nothing: ground 0 and the hit with the other pairs at its distance, or ground
// 1 to 5; and how many hits are too near, between and too far.
#[unsafe(no_mangle)]
pub extern "C" fn byr_explain_collision(
    stationary: &[f64],
    orbiting: &[f64],
    dx: f64,
    dy: f64,
    tolerance: f64,
    ground: &mut u32,
    distance: &mut f64,
    kind: &mut u32,
    si: &mut u64,
    oi: &mut u64,
    others: &mut u64,
    near: &mut u64,
    between: &mut u64,
    far: &mut u64,
    place: &mut u64,
) -> u32
    ensures value { result ≡ returned (explain_call stationary.now orbiting.now (point dx dy) tolerance) }
    ensures ground_after { ground.new ≡ told ground_in (explain_call stationary.now orbiting.now (point dx dy) tolerance)
        ground.old }
    ensures distance_after { distance.new ≡ told_found hit_distance
        (hit_in (explain_call stationary.now orbiting.now (point dx dy) tolerance)) distance.old }
    ensures kind_after { kind.new ≡ told_found hit_kind
        (hit_in (explain_call stationary.now orbiting.now (point dx dy) tolerance)) kind.old }
    ensures si_after { si.new ≡ told_found hit_stationary
        (hit_in (explain_call stationary.now orbiting.now (point dx dy) tolerance)) si.old }
    ensures oi_after { oi.new ≡ told_found hit_orbiting
        (hit_in (explain_call stationary.now orbiting.now (point dx dy) tolerance)) oi.old }
    ensures others_after { others.new ≡ others_told (explain_call stationary.now orbiting.now (point dx dy) tolerance)
        others.old }
    ensures near_after { near.new ≡ told near_in (explain_call stationary.now orbiting.now (point dx dy) tolerance)
        near.old }
    ensures between_after { between.new ≡ told between_in (explain_call stationary.now orbiting.now (point dx dy) tolerance)
        between.old }
    ensures far_after { far.new ≡ told far_in (explain_call stationary.now orbiting.now (point dx dy) tolerance)
        far.old }
    ensures place_after { place.new ≡ told_place (explain_call stationary.now orbiting.now (point dx dy) tolerance)
        place.old }
{
    let translation = Point { x: dx, y: dy };
    let answer = grounds::calls::explain_collision(stationary, orbiting, translation, tolerance);
    hand_refusal(
        hand_explained(
            answer, ground, distance, kind, si, oi, others, near, between, far,
        ),
        place,
    )
}

// The first position toward a concave vertex at which the orbiting polygon, lent as drawn, does not overlap, or nothing; (x, y) is where it is now.
#[unsafe(no_mangle)]
pub extern "C" fn byr_detect_interlocking_opportunity(
    stationary: &[f64],
    orbiting: &[f64],
    x: f64,
    y: f64,
    tolerance: f64,
    found: &mut u32,
    tox: &mut f64,
    toy: &mut f64,
    place: &mut u64,
) -> u32
    ensures value { result ≡ returned (interlock_call stationary.now orbiting.now (point x y) tolerance) }
    ensures found_after { found.new ≡ told is_found (interlock_call stationary.now orbiting.now (point x y) tolerance)
        found.old }
    ensures tox_after { tox.new ≡ told_found x_of (interlock_call stationary.now orbiting.now (point x y) tolerance)
        tox.old }
    ensures toy_after { toy.new ≡ told_found y_of (interlock_call stationary.now orbiting.now (point x y) tolerance)
        toy.old }
    ensures place_after { place.new ≡ told_place (interlock_call stationary.now orbiting.now (point x y) tolerance)
        place.old }
{
    let current = Point { x, y };
    let answer = interlocking::calls::detect_interlocking_opportunity(
        stationary, orbiting, current, tolerance,
    );
    hand_refusal(hand_position(answer, found, tox, toy), place)
}

// Where the orbiting polygon, lent where it is, is moved to from its position (x, y) to touch the stationary one again, or nothing.
#[unsafe(no_mangle)]
pub extern "C" fn byr_recover_contact(
    stationary: &[f64],
    orbiting: &[f64],
    x: f64,
    y: f64,
    tolerance: f64,
    found: &mut u32,
    tox: &mut f64,
    toy: &mut f64,
    place: &mut u64,
) -> u32
    ensures value { result ≡ returned (recover_call stationary.now orbiting.now (point x y) tolerance) }
    ensures found_after { found.new ≡ told is_found (recover_call stationary.now orbiting.now (point x y) tolerance)
        found.old }
    ensures tox_after { tox.new ≡ told_found x_of (recover_call stationary.now orbiting.now (point x y) tolerance)
        tox.old }
    ensures toy_after { toy.new ≡ told_found y_of (recover_call stationary.now orbiting.now (point x y) tolerance)
        toy.old }
    ensures place_after { place.new ≡ told_place (recover_call stationary.now orbiting.now (point x y) tolerance)
        place.old }
{
    let current = Point { x, y };
    let recovered = recovery::calls::recover_contact(stationary, orbiting, current, tolerance);
    hand_refusal(hand_position(recovered, found, tox, toy), place)
}

// Whether two polygons overlap, or lie no more than 1e-6 apart.
#[unsafe(no_mangle)]
pub extern "C" fn byr_polygons_overlap(
    a: &[f64],
    b: &[f64],
    overlap: &mut u32,
    place: &mut u64,
) -> u32
    ensures value { result ≡ returned (overlap_call a.now b.now) }
    ensures overlap_after { overlap.new ≡ told flag (overlap_call a.now b.now) overlap.old }
    ensures place_after { place.new ≡ told_place (overlap_call a.now b.now) place.old }
{
    hand_refusal(
        hand_truth(overlap::calls::polygons_overlap(a, b), overlap),
        place,
    )
}

// The same with a lent tolerance.
#[unsafe(no_mangle)]
pub extern "C" fn byr_polygons_overlap_with_tolerance(
    a: &[f64],
    b: &[f64],
    tolerance: f64,
    overlap: &mut u32,
    place: &mut u64,
) -> u32
    ensures value { result ≡ returned (overlap_with_call a.now b.now tolerance) }
    ensures overlap_after { overlap.new ≡ told flag (overlap_with_call a.now b.now tolerance) overlap.old }
    ensures place_after { place.new ≡ told_place (overlap_with_call a.now b.now tolerance)
        place.old }
{
    hand_refusal(
        hand_truth(
            overlap::calls::polygons_overlap_with_tolerance(a, b, tolerance),
            overlap,
        ),
        place,
    )
}

// The position of orbiting, as drawn, at which its highest vertex is stationary's lowest.
#[unsafe(no_mangle)]
pub extern "C" fn byr_find_start_position(
    stationary: &[f64],
    orbiting: &[f64],
    x: &mut f64,
    y: &mut f64,
    place: &mut u64,
) -> u32
    ensures value { result ≡ returned (start_call stationary.now orbiting.now) }
    ensures x_after { x.new ≡ told x_of (start_call stationary.now orbiting.now) x.old }
    ensures y_after { y.new ≡ told y_of (start_call stationary.now orbiting.now) y.old }
    ensures place_after { place.new ≡ told_place (start_call stationary.now orbiting.now)
        place.old }
{
    hand_refusal(
        hand_start(
            start_position::calls::find_start_position(stationary, orbiting),
            x,
            y,
        ),
        place,
    )
}

// The list without its collinear points, in the room: how many points it has.
#[unsafe(no_mangle)]
pub extern "C" fn byr_simplify_polygon(
    list: &[f64],
    tolerance: f64,
    room: &mut [f64],
    points: &mut u64,
    place: &mut u64,
) -> u32
    ensures value { result ≡ returned (simplify_call list.now tolerance (length room.old)) }
    ensures points_after { points.new ≡ told itself (simplify_call list.now tolerance (length room.old))
        points.old }
    ensures place_after { place.new ≡ told_place (simplify_call list.now tolerance (length room.old))
        place.old }
    ensures room_after { room.new ≡ simplify_room list.now tolerance room.old }
{
    hand_refusal(
        hand_count(
            simplify::calls::simplify_polygon(list, tolerance, room),
            points,
        ),
        place,
    )
}

// The path of the orbiting polygon around the stationary one: traced in the work room, simplified in the result room; how many points both have, the passes
// begun and why the trace stopped. The passes are told with refusal 5 too, the passes and the reason with 6.
#[unsafe(no_mangle)]
pub extern "C" fn byr_compute_nfp_sliding(
    stationary: &[f64],
    orbiting: &[f64],
    tolerance: f64,
    smallest: f64,
    limit: u64,
    work: &mut [f64],
    res: &mut [f64],
    points: &mut u64,
    stored: &mut u64,
    passes: &mut u64,
    stop: &mut u32,
    place: &mut u64,
) -> u32
    ensures value { result ≡ (refusal_of
        (trace_call stationary.now orbiting.now (settings_of tolerance smallest limit) (length work.old) (length res.old))
        ).number }
    ensures points_after { points.new ≡ points_told
        (trace_call stationary.now orbiting.now (settings_of tolerance smallest limit) (length work.old) (length res.old))
        points.old }
    ensures stored_after { stored.new ≡ stored_told
        (trace_call stationary.now orbiting.now (settings_of tolerance smallest limit) (length work.old) (length res.old))
        stored.old }
    ensures passes_after { passes.new ≡ passes_told
        (trace_call stationary.now orbiting.now (settings_of tolerance smallest limit) (length work.old) (length res.old))
        passes.old }
    ensures stop_after { stop.new ≡ stop_told
        (trace_call stationary.now orbiting.now (settings_of tolerance smallest limit) (length work.old) (length res.old))
        stop.old }
    ensures place_after { place.new ≡ place_of
        (refusal_of (trace_call stationary.now orbiting.now (settings_of tolerance smallest limit)
        (length work.old) (length res.old)))
        place.old }
    ensures work_after { work.new ≡ trace_work stationary.now orbiting.now (settings_of tolerance smallest limit)
        work.old (length res.old) }
    ensures res_after { res.new ≡ trace_result stationary.now orbiting.now (settings_of tolerance smallest limit)
        (length work.old) res.old }
{
    let settings = Settings {
        contact_tolerance: tolerance,
        min_translation: smallest,
        max_iterations: limit,
    };
    let traced = nfp_sliding::calls::compute_nfp_sliding(stationary, orbiting, settings, work, res);
    hand_refusal(hand_traced(traced, points, stored, passes, stop), place)
}
