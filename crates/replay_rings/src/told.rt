// What a call answers as three words: the refusal's number or 0, the value or 0, and the place that the refusal tells or 0.
use mending::answer::Sizes;
use number_bytes::bits_of;
use plane::Orientation;
use projection::answer::Projection;
use projection::foot::foot_code;
use refusals::Refusal;

#[derive(Clone, Copy, Debug, PartialEq, Eq)]
pub struct Told {
    pub number: u64,
    pub value: u64,
    pub place: u64,
}

fn answered(value: u64) -> Told {
    Told {
        number: 0,
        value,
        place: 0,
    }
}

fn refused(r: Refusal) -> Told {
    Told {
        number: r.number() as u64,
        value: 0,
        place: r.place().unwrap_or(0),
    }
}

pub fn truth(answer: Result<bool, Refusal>) -> Told {
    match answer {
        Ok(b) => answered(b as u64),
        Err(r) => refused(r),
    }
}

pub fn turn(answer: Result<Orientation, Refusal>) -> Told {
    match answer {
        Ok(Orientation::CounterClockwise) => answered(1),
        Ok(Orientation::Clockwise) => answered(u64::MAX),
        Ok(Orientation::Collinear) => answered(0),
        Err(r) => refused(r),
    }
}

pub fn number(answer: Result<f64, Refusal>) -> Told {
    match answer {
        Ok(x) => answered(bits_of(x)),
        Err(r) => refused(r),
    }
}

pub fn parameter(answer: Result<Projection, Refusal>) -> Told {
    match answer {
        Ok(projection) => answered(bits_of(projection.parameter)),
        Err(r) => refused(r),
    }
}

pub fn foot(answer: Result<Projection, Refusal>) -> Told {
    match answer {
        Ok(projection) => answered(foot_code(projection.foot) as u64),
        Err(r) => refused(r),
    }
}

pub fn count(answer: Result<usize, Refusal>) -> Told {
    match answer {
        Ok(n) => answered(n as u64),
        Err(r) => refused(r),
    }
}

// Both counts in one word, the dropped ones 65,536 times.
pub fn mended(answer: Result<Sizes, Refusal>) -> Told {
    match answer {
        Ok(sizes) => {
            let vertices = sizes.vertices as u64;
            let dropped = sizes.dropped as u64;
            answered(vertices % 65536 + 65536 * (dropped % 65536))
        }
        Err(r) => refused(r),
    }
}
