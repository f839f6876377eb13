// Where the foot of a point sits on an edge: inspectors measure a contact at a corner with another gauge than one along the edge.
ghost use Rattle.std.specs.Prelude.{◌≡◌};
ghost use Rattle.projection.specs.Foot.{foot_at, foot_of, foot_code};

use plane::{Point, segment};

// At the edge's start, at its end, or between.
#[derive(Clone, Copy)]
pub enum Foot {
    Start,
    End,
    Between,
}

// The foot at a parameter: 0 is the start and 1 the end, compared as numbers.
pub fn foot_at(t: f64) -> Foot
    ensures { result ≡ foot_at t }
{
    if t == 0.0 {
        return Foot::Start;
    }
    if t == 1.0 {
        return Foot::End;
    }
    Foot::Between
}

// The foot of point on the edge p1 p2.
pub fn foot_of(point: Point, p1: Point, p2: Point) -> Foot
    ensures { result ≡ foot_of point p1 p2 }
{
    foot_at(segment::project_point_to_segment(point, p1, p2))
}

// The number by which a foot is told.
pub fn foot_code(foot: Foot) -> u32
    ensures { result ≡ foot_code foot }
{
    match foot {
        Foot::Start => 0,
        Foot::End => 1,
        Foot::Between => 2,
    }
}
