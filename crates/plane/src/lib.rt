// Points of the plane and what the layout works out of them: plain values, no lent memory, total on all floats.
#![tactic(auto)]

pub mod segment;
pub mod vector;

// A point, or a vector.
#[derive(Clone, Copy, Debug, PartialEq)]
pub struct Point {
    pub x: f64,
    pub y: f64,
}

// Which way three points turn.
#[derive(Clone, Copy, Debug, PartialEq, Eq)]
pub enum Orientation {
    CounterClockwise,
    Clockwise,
    Collinear,
}
