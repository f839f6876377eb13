// What a trace answers, as words: the refusal's number or 0, the points of the result and of the path, the passes and the stop reason, 0
// where one is not returned, and the place that the refusal tells or 0.
use nfp_sliding::answer::{Trace, Untraced};
use refusals::Refusal;

#[derive(Clone, Copy, Debug, PartialEq, Eq)]
pub struct Told {
    pub number: u64,
    pub points: u64,
    pub stored: u64,
    pub passes: u64,
    pub stop: u64,
    pub place: u64,
}

// A trace that was refused before it began.
fn refused(r: Refusal) -> Told {
    Told {
        number: r.number() as u64,
        points: 0,
        stored: 0,
        passes: 0,
        stop: 0,
        place: r.place().unwrap_or(0),
    }
}

// A trace that began and was then refused.
fn ended(number: u64, passes: u64, stop: u64) -> Told {
    Told {
        number,
        points: 0,
        stored: 0,
        passes,
        stop,
        place: 0,
    }
}

pub fn words(answer: Result<Trace, Untraced>) -> Told {
    match answer {
        Ok(trace) => Told {
            number: 0,
            points: trace.points as u64,
            stored: trace.stored as u64,
            passes: trace.passes,
            stop: trace.stop as u64,
            place: 0,
        },
        Err(Untraced::Refused(r)) => refused(r),
        Err(Untraced::Full(passes)) => ended(5, passes, 0),
        Err(Untraced::Short { passes, stop }) => ended(6, passes, stop as u64),
    }
}
