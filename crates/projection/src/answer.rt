// What project_point_to_segment answers.
use crate::foot::Foot;

// The foot's parameter, 0 at the segment's start and 1 at its end, and where it sits.
#[derive(Clone, Copy)]
pub struct Projection {
    pub parameter: f64,
    pub foot: Foot,
}
