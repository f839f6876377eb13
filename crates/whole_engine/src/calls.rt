// The public calls on whole coordinates: turn, orientation, on_segment, segments_intersect, is_simple_polygon, signed_area2.
#![tactic(auto, using(refusals::proofs::Tests::refused))]

ghost use Rattle.std.specs.Prelude.{◌≡◌};
ghost use Rattle.refusals.specs.Answers.{answered, turn};
ghost use Rattle.whole_engine.specs.Calls.{whole_turn_call, whole_orientation_call, whole_on_segment_call, whole_intersect_call};
ghost use Rattle.whole_engine.specs.Calls.{whole_simple_call, whole_area2_call};

use crate::row;
use plane::Orientation;
use refusals::Refusal;
use shifted::spot_of;

// The turn of a, b, c: 1 counter-clockwise, -1 clockwise, 0 collinear.
pub fn turn(ax: i32, ay: i32, bx: i32, by: i32, cx: i32, cy: i32) -> Result<Orientation, Refusal>
    ensures { turn result ≡ whole_turn_call ax ay bx by cx cy }
{
    row::numbers(&[ax, ay, bx, by, cx, cy])?;
    Ok(crate::turn(spot_of(ax, ay), spot_of(bx, by), spot_of(cx, cy)))
}

// The same: where no margin is left, the orientation is the turn.
pub fn orientation(
    ax: i32,
    ay: i32,
    bx: i32,
    by: i32,
    cx: i32,
    cy: i32,
) -> Result<Orientation, Refusal>
    ensures { turn result ≡ whole_orientation_call ax ay bx by cx cy }
{
    turn(ax, ay, bx, by, cx, cy)
}

// Whether p, known to be collinear with the segment a b, lies on it.
pub fn on_segment(ax: i32, ay: i32, bx: i32, by: i32, px: i32, py: i32) -> Result<bool, Refusal>
    ensures { answered result ≡ whole_on_segment_call ax ay bx by px py }
{
    row::numbers(&[ax, ay, bx, by, px, py])?;
    Ok(crate::on_segment(spot_of(ax, ay), spot_of(bx, by), spot_of(px, py)))
}

// Whether the closed segments p1 p2 and p3 p4 meet.
pub fn segments_intersect(
    x1: i32,
    y1: i32,
    x2: i32,
    y2: i32,
    x3: i32,
    y3: i32,
    x4: i32,
    y4: i32,
) -> Result<bool, Refusal>
    ensures { answered result ≡ whole_intersect_call x1 y1 x2 y2 x3 y3 x4 y4 }
{
    row::numbers(&[x1, y1, x2, y2, x3, y3, x4, y4])?;
    Ok(crate::segments_intersect(
        spot_of(x1, y1),
        spot_of(x2, y2),
        spot_of(x3, y3),
        spot_of(x4, y4),
    ))
}

// Whether a ring is simple. Fewer than three vertices are not.
pub fn is_simple_polygon(ring: &[i32]) -> Result<bool, Refusal>
    ensures { answered result ≡ whole_simple_call ring.now }
{
    row::ring(ring)?;
    Ok(crate::is_simple_polygon(ring))
}

// Twice the signed area of a ring: above 0 where its order is counter-clockwise.
pub fn signed_area2(ring: &[i32]) -> Result<i64, Refusal>
    ensures { answered result ≡ whole_area2_call ring.now }
{
    row::ring(ring)?;
    Ok(crate::signed_area2(ring))
}
