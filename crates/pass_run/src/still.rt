// Whether a pass came to nothing new: the pose after it is the pose before it, bit for bit.
ghost use Rattle.bitwise.specs.Same.{Same};

use bitwise::same_point;
use pass::Pose;
use plane::Point;

fn same_previous(a: Option<Point>, b: Option<Point>) -> bool
    ensures { Same result a b }
{
    match (a, b) {
        (None, None) => true,
        (Some(p), Some(q)) => same_point(p, q),
        _ => false,
    }
}

// Whether two poses are the same.
pub fn same_pose(a: Pose, b: Pose) -> bool
    ensures { Same result a b }
{
    let p = a.position;
    let q = b.position;
    if same_point(p, q) {
        if a.stuck == b.stuck {
            let d = a.previous;
            let e = b.previous;
            return same_previous(d, e);
        }
    }
    false
}
