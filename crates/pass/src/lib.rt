// One pass of the trace: the loop's body in `trace_nfp_boundary` of `nfp_sliding.rs`.
#![tactic(auto)]

pub mod slide;
pub mod stop;

ghost use Rattle.std.specs.Prelude.{◌≡◌, ◌%◌, ◌≤◌, length};
ghost use Rattle.ring.specs.Ring.{count};
ghost use Rattle.pairs.specs.Pairs.{Sides};
ghost use Rattle.directions.specs.Directions.{Directed};
ghost use Rattle.pass.specs.Pass.{scene, regain_of, unstick_of, pass_at, pass_of};

use choose::choose;
use contacts::has_contact;
use interlocking::detect_interlocking_opportunity;
use near::is_far;
use plane::Point;
use recovery::recover_contact;
use ring::moving::move_ring;
use selection::preferred;
use slide::slide;

// What a pass measures by: the contact tolerance, and the smallest move that is made and stored.
#[derive(Clone, Copy)]
pub struct Margins {
    pub tolerance: f64,
    pub smallest: f64,
}

// Where the orbiting polygon is, the direction of the slide before, and how often in a row no vector was left.
#[derive(Clone, Copy)]
pub struct Pose {
    pub position: Point,
    pub previous: Option<Point>,
    pub stuck: u32,
}

// What a pass comes to: the trace stops, with its reason; or it goes on from a pose, whose position is stored or is not.
#[derive(Clone, Copy)]
pub enum Step {
    Stop(u32),
    Stay(Pose),
    Store(Pose),
}

// Without a contact: toward the stationary polygon, where that brings one back.
fn regain(stationary: &[f64], moved: &[f64], tol: f64, pose: Pose) -> Step
    ensures { result ≡ regain_of stationary.now moved.now tol pose }
{
    let previous = pose.previous;
    match recover_contact(stationary, moved, pose.position, tol) {
        None => Step::Stop(stop::NO_CONTACT),
        Some(position) => Step::Stay(Pose {
            position,
            previous,
            stuck: pose.stuck,
        }),
    }
}

// Without a vector: to an interlocking position, three times in a row at most.
fn unstick(stationary: &[f64], orbiting: &[f64], margins: Margins, pose: Pose) -> Step
    requires orbiting_len { length orbiting.now % 2 ≡ 0 }
    requires orbiting_len_bound { length orbiting.now ≤ 512 }
    ensures { result ≡ unstick_of stationary.now orbiting.now margins pose }
{
    let stuck = pose.stuck;
    if stuck < 3 {
        let from = pose.position;
        let previous = pose.previous;
        let tol = margins.tolerance;
        match detect_interlocking_opportunity(stationary, orbiting, from, tol) {
            None => Step::Stop(stop::NO_VECTOR),
            Some(position) => {
                if is_far(position, from, margins.smallest) {
                    Step::Store(Pose {
                        position,
                        previous,
                        stuck: stuck + 1,
                    })
                } else {
                    Step::Stop(stop::NO_VECTOR)
                }
            }
        }
    } else {
        Step::Stop(stop::NO_VECTOR)
    }
}

// The pass of the orbiting polygon, as drawn and as moved to the pose's position.
fn pass_at(
    stationary: &[f64],
    dirs: &[f64],
    orbiting: &[f64],
    headings: &[f64],
    moved: &[f64],
    margins: Margins,
    centroid: Point,
    start: Point,
    path: &[f64],
    pose: Pose,
) -> Step
    requires orbiting_len { length orbiting.now % 2 ≡ 0 }
    requires orbiting_len_bound { length orbiting.now ≤ 512 }
    requires sides { Sides (count stationary.now) (count moved.now) }
    requires directed { Directed dirs.now stationary.now }
    requires moved_value { (count moved.now ≡ count orbiting.now) × Directed headings.now orbiting.now }
    ensures { result ≡ pass_at (scene stationary.now orbiting.now margins centroid start)
        moved.now path.now pose }
{
    let tol = margins.tolerance;
    let from = pose.position;
    let previous = pose.previous;
    let ccw = preferred(centroid, from);
    match choose(
        stationary, dirs, moved, orbiting, headings, tol, from, path, previous, ccw,
    ) {
        None => {
            if has_contact(stationary, moved, tol) {
                unstick(stationary, orbiting, margins, pose)
            } else {
                regain(stationary, moved, tol, pose)
            }
        }
        Some(v) => slide(stationary, moved, margins, start, path, pose, v),
    }
}

// The pass from a pose, with the path so far, the directions of both polygons' edges as drawn, and a room for the moved polygon.
pub fn pass(
    stationary: &[f64],
    dirs: &[f64],
    orbiting: &[f64],
    headings: &[f64],
    margins: Margins,
    centroid: Point,
    start: Point,
    path: &[f64],
    pose: Pose,
    room: &mut [f64],
) -> Step
    requires orbiting_len { length orbiting.now % 2 ≡ 0 }
    requires orbiting_len_bound { (length orbiting.now ≤ 512) × (length orbiting.now ≤ length room.old) }
    requires sides { Sides (count stationary.now) (count orbiting.now) }
    requires directed { Directed dirs.now stationary.now × Directed headings.now orbiting.now }
    ensures { result ≡ pass_of (scene stationary.now orbiting.now margins centroid start) path.now pose }
{
    move_ring(orbiting, pose.position, room);
    let len = orbiting.len();
    pass_at(
        stationary,
        dirs,
        orbiting,
        headings,
        &room[..len],
        margins,
        centroid,
        start,
        path,
        pose,
    )
}
