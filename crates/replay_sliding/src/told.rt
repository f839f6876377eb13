// What a call of the sliding answers, as words: the refusal's number or 0, up to nine values, 0 where there is none, and the place that the
// refusal tells or 0.
use collision::Hit;
use grounds::Explanation;
use number_bytes::bits_of;
use plane::Point;
use refusals::Refusal;

#[derive(Clone, Copy, Debug, PartialEq, Eq)]
pub struct Told {
    pub number: u64,
    pub a: u64,
    pub b: u64,
    pub c: u64,
    pub d: u64,
    pub e: u64,
    pub f: u64,
    pub g: u64,
    pub h: u64,
    pub i: u64,
    pub place: u64,
}

fn values(a: u64, b: u64, c: u64, d: u64, e: u64) -> Told {
    Told {
        number: 0,
        a,
        b,
        c,
        d,
        e,
        f: 0,
        g: 0,
        h: 0,
        i: 0,
        place: 0,
    }
}

fn refused(r: Refusal) -> Told {
    Told {
        number: r.number() as u64,
        a: 0,
        b: 0,
        c: 0,
        d: 0,
        e: 0,
        f: 0,
        g: 0,
        h: 0,
        i: 0,
        place: r.place().unwrap_or(0),
    }
}

pub fn truth(answer: Result<bool, Refusal>) -> Told {
    match answer {
        Ok(b) => values(b as u64, 0, 0, 0, 0),
        Err(r) => refused(r),
    }
}

pub fn count(answer: Result<usize, Refusal>) -> Told {
    match answer {
        Ok(n) => values(n as u64, 0, 0, 0, 0),
        Err(r) => refused(r),
    }
}

pub fn position(answer: Result<Option<Point>, Refusal>) -> Told {
    match answer {
        Ok(None) => values(0, 0, 0, 0, 0),
        Ok(Some(p)) => values(1, bits_of(p.x), bits_of(p.y), 0, 0),
        Err(r) => refused(r),
    }
}

fn collision(found: Option<Hit>) -> Told {
    match found {
        None => values(0, 0, 0, 0, 0),
        Some(hit) => values(
            1,
            bits_of(hit.distance),
            hit.kind as u64,
            hit.stationary as u64,
            hit.orbiting as u64,
        ),
    }
}

pub fn checked(answer: Result<Option<Hit>, Refusal>) -> Told {
    match answer {
        Ok(found) => collision(found),
        Err(r) => refused(r),
    }
}

fn explanation(x: Explanation) -> Told {
    let ground = x.ground;
    let tally = x.tally;
    let best = tally.best;
    let hit = collision(best);
    Told {
        number: 0,
        a: ground.number() as u64,
        b: hit.b,
        c: hit.c,
        d: hit.d,
        e: hit.e,
        f: tally.others,
        g: tally.near,
        h: tally.between,
        i: tally.far,
        place: 0,
    }
}

pub fn explained(answer: Result<Explanation, Refusal>) -> Told {
    match answer {
        Ok(x) => explanation(x),
        Err(r) => refused(r),
    }
}

pub fn selected(answer: Result<Option<usize>, Refusal>) -> Told {
    match answer {
        Ok(None) => values(0, 0, 0, 0, 0),
        Ok(Some(i)) => values(1, i as u64, 0, 0, 0),
        Err(r) => refused(r),
    }
}

pub fn started(answer: Result<Point, Refusal>) -> Told {
    match answer {
        Ok(p) => values(bits_of(p.x), bits_of(p.y), 0, 0, 0),
        Err(r) => refused(r),
    }
}
