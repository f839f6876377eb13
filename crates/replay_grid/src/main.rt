// Replays the oracle's answers for floats on a grid: records of what the call is lent, answers and leaves, from standard input.
#![tactic(auto)]

ghost use Rattle.std.specs.Prelude.{◌≤◌};

use refusals::Refusal;
use replay::{Item, is_same, list_length, load, word};
use std::io;
use std::io::{BufReader, Read};

// Whether an answer is what the record says: the refusal's number and its place, how many points were written.
fn told(answer: Result<usize, Refusal>, header: &[u8]) -> bool {
    match answer {
        Ok(points) => word(header, 24) == 0 && points as u64 == word(header, 40),
        Err(no) => no.number() as u64 == word(header, 24)
            && no.place().unwrap_or(0) == word(header, 32),
    }
}

// Whether a record of n numbers and a room of rn, at most N each, says what its call answers and leaves.
fn agrees_within<const N: usize, R: Read>(input: &mut R, header: &[u8], n: usize, rn: usize) -> bool
    requires { (n ≤ N) × (rn ≤ N) × (N ≤ 20100) }
{
    let mut list = [0.0; N];
    let mut room = [0i32; N];
    let mut left = [0i32; N];
    load(input, &mut list[..n]);
    load(input, &mut room[..rn]);
    load(input, &mut left[..rn]);
    let units = u32::from_word(word(header, 8));
    let answer = to_grid::calls::to_grid(&list[..n], units, &mut room[..rn]);
    told(answer, header) && is_same(&room[..rn], &left[..rn])
}

// Whether a record says what its call answers and leaves. Most are short, and arrays for the longest take their time.
fn agrees<R: Read>(input: &mut R, header: &[u8]) -> bool {
    let n = list_length(header, 0, 20100);
    let rn = list_length(header, 16, 20100);
    if n <= 80 && rn <= 80 {
        agrees_within::<80, R>(input, header, n, rn)
    } else {
        agrees_within::<20100, R>(input, header, n, rn)
    }
}

fn main(rt: HostRuntime) -> io::Result<()> {
    let mut input = BufReader::new(rt.alloc(), rt.reader())?;
    replay::run::<48, _, _>(&rt, &mut input, agrees)
}
