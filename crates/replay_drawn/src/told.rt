// What a call on a drawing answers, as words: the refusal's number or 0, the ground, the depth, how, the leg and the edge, 0 where there is
// none, and the place that the refusal tells or 0.
use clear_aside::{Found, depth_of};
use clear_drawn_path::PathFound;
use refusals::Refusal;

#[derive(Clone, Copy, Debug, PartialEq, Eq)]
pub struct Told {
    pub number: u64,
    pub ground: u64,
    pub depth: u64,
    pub how: u64,
    pub leg: u64,
    pub edge: u64,
    pub place: u64,
}

// An answer that parts every edge: this ground, to this depth, with this how.
fn parted(ground: u64, depth: u32, how: u32) -> Told {
    Told {
        number: 0,
        ground,
        depth: depth as u64,
        how: how as u64,
        leg: 0,
        edge: 0,
        place: 0,
    }
}

// An answer that tells no depth: this ground, on this leg, at this edge.
fn stopped(ground: u64, leg: usize, edge: usize) -> Told {
    Told {
        number: 0,
        ground,
        depth: 0,
        how: 0,
        leg: leg as u64,
        edge: edge as u64,
        place: 0,
    }
}

fn refused(no: Refusal) -> Told {
    Told {
        number: no.number() as u64,
        ground: 0,
        depth: 0,
        how: 0,
        leg: 0,
        edge: 0,
        place: no.place().unwrap_or(0),
    }
}

// What is told of a move.
pub fn judged(answer: Result<Found, Refusal>) -> Told {
    match answer {
        Ok(Found::Clear(how)) => parted(0, depth_of(how), how),
        Ok(Found::Edge(edge)) => stopped(1, 0, edge),
        Ok(Found::Enclosed(how)) => parted(2, depth_of(how), how),
        Err(no) => refused(no),
    }
}

// What is told of a reason: how is lent, not told.
pub fn checked(answer: Result<Found, Refusal>) -> Told {
    match answer {
        Ok(Found::Clear(how)) => parted(0, depth_of(how), 0),
        Ok(Found::Edge(edge)) => stopped(1, 0, edge),
        Ok(Found::Enclosed(how)) => parted(2, depth_of(how), 0),
        Err(no) => refused(no),
    }
}

// What is told of a path.
pub fn gone(answer: Result<PathFound, Refusal>) -> Told {
    match answer {
        Ok(PathFound::Clear(depth)) => parted(0, depth, 0),
        Ok(PathFound::Edge { leg, edge }) => stopped(1, leg, edge),
        Ok(PathFound::Enclosed(leg)) => stopped(2, leg, 0),
        Err(no) => refused(no),
    }
}
