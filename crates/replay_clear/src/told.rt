// What a call on whole moves answers, as words: the refusal's number or 0, the ground, the leg and the edge, 0 where there is none, and the
// place that the refusal tells or 0.
use clear_path::PathGround;
use reason_check::Ground;
use refusals::Refusal;

#[derive(Clone, Copy, Debug, PartialEq, Eq)]
pub struct Told {
    pub number: u64,
    pub ground: u64,
    pub leg: u64,
    pub edge: u64,
    pub place: u64,
}

// An answer: this ground, on this leg, at this edge.
fn found(ground: u64, leg: usize, edge: usize) -> Told {
    Told {
        number: 0,
        ground,
        leg: leg as u64,
        edge: edge as u64,
        place: 0,
    }
}

fn refused(no: Refusal) -> Told {
    Told {
        number: no.number() as u64,
        ground: 0,
        leg: 0,
        edge: 0,
        place: no.place().unwrap_or(0),
    }
}

// What is told of a move, or of a reason.
pub fn judged(answer: Result<Ground, Refusal>) -> Told {
    match answer {
        Ok(Ground::Clear) => found(0, 0, 0),
        Ok(Ground::Edge(edge)) => found(1, 0, edge),
        Ok(Ground::Enclosed) => found(2, 0, 0),
        Err(no) => refused(no),
    }
}

// What is told of a path.
pub fn gone(answer: Result<PathGround, Refusal>) -> Told {
    match answer {
        Ok(PathGround::Clear) => found(0, 0, 0),
        Ok(PathGround::Edge { leg, edge }) => found(1, leg, edge),
        Ok(PathGround::Enclosed(leg)) => found(2, leg, 0),
        Err(no) => refused(no),
    }
}
