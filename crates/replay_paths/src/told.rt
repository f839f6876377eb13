// What a check of a path answers, as words: the refusal's number or 0, the fault and its index, 0 where there is none, and the place that the
// refusal tells or 0.
use path_check::Fault;
use refusals::Refusal;

#[derive(Clone, Copy, Debug, PartialEq, Eq)]
pub struct Told {
    pub number: u64,
    pub fault: u64,
    pub index: u64,
    pub place: u64,
}

// A path that was checked, with this fault at this index.
fn judged(fault: u64, index: usize) -> Told {
    Told {
        number: 0,
        fault,
        index: index as u64,
        place: 0,
    }
}

pub fn words(answer: Result<Option<Fault>, Refusal>) -> Told {
    match answer {
        Ok(None) => judged(0, 0),
        Ok(Some(Fault::Point(i))) => judged(1, i),
        Ok(Some(Fault::Leg(i))) => judged(2, i),
        Err(r) => Told {
            number: r.number() as u64,
            fault: 0,
            index: 0,
            place: r.place().unwrap_or(0),
        },
    }
}
