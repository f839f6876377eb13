// Replays the oracle's answers in whole numbers: records of a call's number, what it is lent, and what it answers, from
// standard input.
#![tactic(auto)]

mod told;
mod words;

use replay::{list_length, load, word};
use std::io;
use std::io::{BufReader, Read};
use told::Told;

// What a call on single points answers.
fn on_points(call: u64, n: &[i32; 600]) -> Told {
    match call {
        0 => told::turn(whole_engine::calls::turn(n[0], n[1], n[2], n[3], n[4], n[5])),
        1 => told::turn(whole_engine::calls::orientation(n[0], n[1], n[2], n[3], n[4], n[5])),
        2 => told::truth(whole_engine::calls::on_segment(n[0], n[1], n[2], n[3], n[4], n[5])),
        _ => told::truth(whole_engine::calls::segments_intersect(
            n[0], n[1], n[2], n[3], n[4], n[5], n[6], n[7],
        )),
    }
}

// What a call on a ring answers.
fn on_ring(call: u64, ring: &[i32]) -> Told {
    match call {
        4 => told::truth(whole_engine::calls::is_simple_polygon(ring)),
        _ => told::whole(whole_engine::calls::signed_area2(ring)),
    }
}

// What a record says is told.
fn told_in(header: &[u8]) -> Told {
    Told {
        number: word(header, 16),
        value: word(header, 24),
        place: word(header, 32),
    }
}

// Whether a record, whose list follows its header, says what its call tells.
fn agrees<R: Read>(input: &mut R, header: &[u8]) -> bool {
    let call = word(header, 0);
    let n = list_length(header, 8, 600);
    let mut list = [0i32; 600];
    load(input, &mut list[..n]);
    let told = if call < 4 {
        on_points(call, &list)
    } else {
        on_ring(call, &list[..n])
    };
    told == told_in(header)
}

fn main(rt: HostRuntime) -> io::Result<()> {
    let mut input = BufReader::new(rt.alloc(), rt.reader())?;
    replay::run::<40, _, _>(&rt, &mut input, agrees)
}
