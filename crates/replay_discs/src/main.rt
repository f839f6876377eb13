// Replays the oracle's answers for discs: records of what the call is lent, answers and leaves, from standard input.
#![tactic(auto)]

use number_bytes::float_of;
use plane::Point;
use refusals::Refusal;
use replay::{is_same, list_length, load, word};
use std::io;
use std::io::{BufReader, Read};

// Whether an answer is what the record says: the refusal's number, the vertices. No refusal of the call tells a place.
fn told(answer: Result<usize, Refusal>, header: &[u8]) -> bool {
    match answer {
        Ok(n) => word(header, 16) == 0 && n as u64 == word(header, 24),
        Err(no) => no.number() as u64 == word(header, 16) && no.place().unwrap_or(0) == 0,
    }
}

// The call of a record.
fn make(header: &[u8], room: &mut [f64]) -> Result<usize, Refusal> {
    let centre = Point {
        x: float_of(word(header, 32)),
        y: float_of(word(header, 40)),
    };
    let radius = float_of(word(header, 48));
    discs::calls::make_disc(centre, radius, word(header, 0) as usize, room)
}

// Whether a record says what its call answers and leaves: the room at entry and at exit follows its header.
fn agrees<R: Read>(input: &mut R, header: &[u8]) -> bool {
    let rn = list_length(header, 8, 600);
    let mut room = [0.0; 600];
    let mut left = [0.0; 600];
    load(input, &mut room[..rn]);
    load(input, &mut left[..rn]);
    told(make(header, &mut room[..rn]), header) && is_same(&room[..rn], &left[..rn])
}

fn main(rt: HostRuntime) -> io::Result<()> {
    let mut input = BufReader::new(rt.alloc(), rt.reader())?;
    replay::run::<56, _, _>(&rt, &mut input, agrees)
}
