// Replays the oracle's answers for places to inspect: records of what a shift is lent, answers and leaves, from standard input.
#![tactic(auto)]

use inspection::Shift;
use refusals::Refusal;
use replay::{is_same, list_length, load, word};
use std::io;
use std::io::{BufReader, Read};

// Whether an answer is what the record says: the refusal's number, the places, the following start.
fn told(answer: Result<Shift, Refusal>, header: &[u8]) -> bool {
    match answer {
        Ok(shift) => {
            word(header, 32) == 0
                && shift.places as u64 == word(header, 40)
                && shift.following == word(header, 48)
        }
        Err(refusal) => refusal.number() as u64 == word(header, 32),
    }
}

// The shift of a record.
fn inspect(header: &[u8], room: &mut [u64]) -> Result<Shift, Refusal> {
    let n = word(header, 0);
    let k = word(header, 8);
    let start = word(header, 16);
    inspection::calls::next_places(n, k, start, room)
}

// Whether a record says what its shift answers and leaves: the room at entry and at exit follows its header.
fn agrees<R: Read>(input: &mut R, header: &[u8]) -> bool {
    let rn = list_length(header, 24, 80);
    let mut room = [0u64; 80];
    let mut left = [0u64; 80];
    load(input, &mut room[..rn]);
    load(input, &mut left[..rn]);
    told(inspect(header, &mut room[..rn]), header) && is_same(&room[..rn], &left[..rn])
}

fn main(rt: HostRuntime) -> io::Result<()> {
    let mut input = BufReader::new(rt.alloc(), rt.reader())?;
    replay::run::<56, _, _>(&rt, &mut input, agrees)
}
