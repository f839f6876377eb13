// Replays the oracle's traces: records of what a trace is lent, and what it answers and leaves, from standard input.
#![tactic(auto)]

mod told;

use nfp_sliding::calls::compute_nfp_sliding;
use number_bytes::float_of;
use refusals::Settings;
use replay::{is_same, list_length, load, word};
use std::io;
use std::io::{BufReader, Read};
use told::Told;

// The settings of a record.
fn settings(header: &[u8]) -> Settings {
    Settings {
        contact_tolerance: float_of(word(header, 32)),
        min_translation: float_of(word(header, 40)),
        max_iterations: word(header, 48),
    }
}

// What a record says is told.
fn told_in(header: &[u8]) -> Told {
    Told {
        number: word(header, 56),
        points: word(header, 64),
        stored: word(header, 72),
        passes: word(header, 80),
        stop: word(header, 88),
        place: word(header, 96),
    }
}

// Whether a record says what its trace tells and leaves: the polygons follow its header, and then both rooms at entry and at exit.
fn agrees<R: Read>(input: &mut R, header: &[u8]) -> bool {
    let sn = list_length(header, 0, 600);
    let on = list_length(header, 8, 600);
    let wn = list_length(header, 16, 20100);
    let rn = list_length(header, 24, 20100);
    let mut s = [0.0; 600];
    let mut o = [0.0; 600];
    let mut work = [0.0; 20100];
    let mut room = [0.0; 20100];
    let mut work_left = [0.0; 20100];
    let mut room_left = [0.0; 20100];
    load(input, &mut s[..sn]);
    load(input, &mut o[..on]);
    load(input, &mut work[..wn]);
    load(input, &mut room[..rn]);
    load(input, &mut work_left[..wn]);
    load(input, &mut room_left[..rn]);
    let traced = compute_nfp_sliding(
        &s[..sn],
        &o[..on],
        settings(header),
        &mut work[..wn],
        &mut room[..rn],
    );
    told::words(traced) == told_in(header)
        && is_same(&work[..wn], &work_left[..wn])
        && is_same(&room[..rn], &room_left[..rn])
}

fn main(rt: HostRuntime) -> io::Result<()> {
    let mut input = BufReader::new(rt.alloc(), rt.reader())?;
    replay::run::<128, _, _>(&rt, &mut input, agrees)
}
