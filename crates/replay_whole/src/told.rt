// What a call answers as three words: the refusal's number or 0, the value or 0, and the place that the refusal tells or 0.
use crate::words::word_of;
use plane::Orientation;
use refusals::Refusal;

#[derive(Clone, Copy, Debug, PartialEq, Eq)]
pub struct Told {
    pub number: u64,
    pub value: u64,
    pub place: u64,
}

fn answered(value: u64) -> Told {
    Told {
        number: 0,
        value,
        place: 0,
    }
}

fn refused(r: Refusal) -> Told {
    Told {
        number: r.number() as u64,
        value: 0,
        place: r.place().unwrap_or(0),
    }
}

pub fn truth(answer: Result<bool, Refusal>) -> Told {
    match answer {
        Ok(b) => answered(b as u64),
        Err(r) => refused(r),
    }
}

pub fn turn(answer: Result<Orientation, Refusal>) -> Told {
    match answer {
        Ok(Orientation::CounterClockwise) => answered(1),
        Ok(Orientation::Clockwise) => answered(u64::MAX),
        Ok(Orientation::Collinear) => answered(0),
        Err(r) => refused(r),
    }
}

pub fn whole(answer: Result<i64, Refusal>) -> Told {
    match answer {
        Ok(z) => answered(word_of(z)),
        Err(r) => refused(r),
    }
}
