// The run of the passes: `trace_nfp_boundary` of `nfp_sliding.rs`, the path stored in a room that the caller lends.
ghost use Rattle.std.specs.Prelude.{◌≡◌, ◌*◌, ◌%◌, ◌≤◌, length};
ghost use Rattle.ring.specs.Ring.{count};
ghost use Rattle.pairs.specs.Pairs.{Sides};
ghost use Rattle.bitwise.specs.Same.{Same};
ghost use Rattle.directions.specs.Directions.{Directed};
ghost use Rattle.pass.specs.Pass.{scene};
ghost use Rattle.pass_run.specs.Run.{after_of, run_of, InRoom};

use crate::still::same_pose;
use pass::{Margins, Pose, Step, pass, stop};
use plane::Point;
use ring::room::put;

// Where the trace is, and how many points it has stored.
#[derive(Clone, Copy)]
pub struct State {
    pub pose: Pose,
    pub stored: usize,
}

// What comes after a pass: the trace stops, or the pass's point does not fit the room, or the trace goes on.
#[derive(Clone, Copy)]
pub enum After {
    Halt(u32),
    Full,
    Go(State),
}

// How a run ended: whether the room was full, the reason where it was not, the passes begun, and how many points are stored.
#[derive(Clone, Copy)]
pub struct End {
    pub full: bool,
    pub reason: u32,
    pub passes: u64,
    pub stored: usize,
}

// One pass, and its point stored; the moved polygon is worked out in the room `moved`.
fn one_pass(
    stationary: &[f64],
    dirs: &[f64],
    orbiting: &[f64],
    headings: &[f64],
    margins: Margins,
    centroid: Point,
    start: Point,
    state: State,
    room: &mut [f64],
    moved: &mut [f64],
) -> After
    requires orbiting_len { length orbiting.now % 2 ≡ 0 }
    requires orbiting_len_bound { (length orbiting.now ≤ 512) × (length orbiting.now ≤ length moved.old) }
    requires sides { Sides (count stationary.now) (count orbiting.now) }
    requires directed { Directed dirs.now stationary.now × Directed headings.now orbiting.now }
    requires stored_in_bounds { 2 * state.stored ≤ length room.old }
    ensures { (result ≡ (after_of (scene stationary.now orbiting.now margins centroid start)
        state room.old).answer)
        × (room.new ≡ (after_of (scene stationary.now orbiting.now margins centroid start)
        state room.old).room)
        × InRoom result (length room.old) }
{
    let stored = state.stored;
    let len = 2 * stored;
    let pose = state.pose;
    match pass(
        stationary,
        dirs,
        orbiting,
        headings,
        margins,
        centroid,
        start,
        &room[..len],
        pose,
        moved,
    ) {
        Step::Stop(reason) => After::Halt(reason),
        Step::Stay(next) => After::Go(State { pose: next, stored }),
        Step::Store(next) => {
            if room.len() - len < 2 {
                return After::Full;
            }
            let more = stored + 1;
            let position = next.position;
            put(room, stored, position);
            After::Go(State {
                pose: next,
                stored: more,
            })
        }
    }
}

// Whether a pass came to nothing new, so that all that follow it come to nothing new either.
fn is_still(next: State, state: State) -> bool
    ensures { Same result next state }
{
    if next.stored == state.stored {
        let p = next.pose;
        let q = state.pose;
        same_pose(p, q)
    } else {
        false
    }
}

// The passes from a state on, as many as the limit allows. The directions are those of both polygons' edges, and `moved` has room for the
// moved polygon.
pub fn run(
    stationary: &[f64],
    dirs: &[f64],
    orbiting: &[f64],
    headings: &[f64],
    margins: Margins,
    centroid: Point,
    start: Point,
    limit: u64,
    first: State,
    room: &mut [f64],
    moved: &mut [f64],
) -> End
    requires orbiting_len { length orbiting.now % 2 ≡ 0 }
    requires orbiting_len_bound { (length orbiting.now ≤ 512) × (length orbiting.now ≤ length moved.old) }
    requires sides { Sides (count stationary.now) (count orbiting.now) }
    requires directed { Directed dirs.now stationary.now × Directed headings.now orbiting.now }
    requires stored_in_bounds { 2 * first.stored ≤ length room.old }
    requires limit_bound { limit ≤ 10000 }
    ensures value { result ≡ (run_of (scene stationary.now orbiting.now margins centroid start)
        limit 0 first room.old).end }
    ensures room_after { room.new ≡ (run_of (scene stationary.now orbiting.now margins centroid start)
        limit 0 first room.old).room }
{
    let mut state = first;
    for passes in 0..limit {
        match one_pass(
            stationary, dirs, orbiting, headings, margins, centroid, start, state, room, moved,
        ) {
            After::Halt(reason) => {
                return End {
                    full: false,
                    reason,
                    passes: passes + 1,
                    stored: state.stored,
                };
            }
            After::Full => {
                return End {
                    full: true,
                    reason: 0,
                    passes: passes + 1,
                    stored: state.stored,
                };
            }
            After::Go(next) => {
                if is_still(next, state) {
                    return End {
                        full: false,
                        reason: stop::PASSES,
                        passes: limit,
                        stored: state.stored,
                    };
                }
                state = next;
            }
        }
    }
    End {
        full: false,
        reason: stop::PASSES,
        passes: limit,
        stored: state.stored,
    }
}
