// The trace of two polygons, its path in a room that the caller lends, and the path simplified.
ghost use Rattle.std.specs.Prelude.{◌≡◌, ◌*◌, ◌≤◌, length, take};
ghost use Rattle.ring.specs.Room.{laid};
ghost use Rattle.nfp_sliding.specs.Path.{ended, end_of, TraceReady, trace_from, traced_of};
ghost use Rattle.nfp_sliding.specs.Calls.{traced, came_to, result_after};

use crate::answer::{Trace, Untraced};
use centroid::centroid;
use directions::fill;
use pass::{Margins, Pose};
use pass_run::run::{End, State, run};
use refusals::Settings;
use ring::room::put;
use simplify::simplify;
use start_position::find_start_position;
use winding::ensure_ccw;

// The trace of two counter-clockwise polygons.
fn follow(stationary: &[f64], orbiting: &[f64], settings: Settings, work: &mut [f64]) -> End
    requires { TraceReady stationary.now orbiting.now settings (length work.old) }
    ensures value { result ≡ end_of (trace_from stationary.now orbiting.now settings (length work.old)) }
    ensures work_after { work.new ≡ laid
        (trace_from stationary.now orbiting.now settings (length work.old)).path work.old }
{
    let start = find_start_position(stationary, orbiting);
    let middle = centroid(stationary);
    put(work, 0, start);
    let first = State {
        pose: Pose {
            position: start,
            previous: None,
            stuck: 0,
        },
        stored: 1,
    };
    let margins = Margins {
        tolerance: settings.contact_tolerance,
        smallest: settings.min_translation,
    };
    let limit = settings.max_iterations;
    let mut dirs = [0.0; 512];
    fill(stationary, &mut dirs);
    let mut headings = [0.0; 512];
    fill(orbiting, &mut headings);
    let mut moved = [0.0; 512];
    run(
        stationary, &dirs, orbiting, &headings, margins, middle, start, limit, first, work,
        &mut moved,
    )
}

// The trace of two polygons, each made counter-clockwise.
pub fn trace(stationary: &[f64], orbiting: &[f64], settings: Settings, work: &mut [f64]) -> End
    requires { TraceReady stationary.now orbiting.now settings (length work.old) }
    ensures value { result ≡ end_of (traced_of stationary.now orbiting.now settings (length work.old)) }
    ensures work_after { work.new ≡ laid
        (traced_of stationary.now orbiting.now settings (length work.old)).path work.old }
{
    let mut s = [0.0; 512];
    let mut o = [0.0; 512];
    ensure_ccw(stationary, &mut s);
    ensure_ccw(orbiting, &mut o);
    let sn = stationary.len();
    let on = orbiting.len();
    follow(&s[..sn], &o[..on], settings, work)
}

// What a trace answers that ended so, its path at the front of the work room; the simplified path is written to the result room.
pub fn finish(end: End, tol: f64, work: &[f64], res: &mut [f64]) -> Result<Trace, Untraced>
    requires stored_in_bounds { 2 * end.stored ≤ length work.now }
    requires work_in_bounds { length work.now ≤ length res.old }
    ensures result_value { traced result ≡ came_to (ended end.full end.reason end.passes (take (2 * end.stored) work.now)) tol }
    ensures res_after { res.new ≡ result_after (ended end.full end.reason end.passes (take (2 * end.stored) work.now))
        tol res.old }
{
    let stored = end.stored;
    if end.full {
        return Err(Untraced::Full(end.passes));
    }
    if stored < 3 {
        return Err(Untraced::Short {
            passes: end.passes,
            stop: end.reason,
        });
    }
    let len = 2 * stored;
    let points = simplify(&work[..len], tol, res);
    Ok(Trace {
        points,
        stored,
        passes: end.passes,
        stop: end.reason,
    })
}
