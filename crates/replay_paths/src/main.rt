// Replays the oracle's checks of paths: records of what a check is lent and what it answers, from standard input.
#![tactic(auto)]

mod told;

use number_bytes::float_of;
use path_check::calls::check_path;
use refusals::Settings;
use replay::{list_length, load, word};
use std::io;
use std::io::{BufReader, Read};
use told::Told;

// The settings of a record.
fn settings(header: &[u8]) -> Settings {
    Settings {
        contact_tolerance: float_of(word(header, 24)),
        min_translation: float_of(word(header, 32)),
        max_iterations: word(header, 40),
    }
}

// What a record says is told.
fn told_in(header: &[u8]) -> Told {
    Told {
        number: word(header, 48),
        fault: word(header, 56),
        index: word(header, 64),
        place: word(header, 72),
    }
}

// Whether a record says what its check tells: the polygons and the path follow its header.
fn agrees<R: Read>(input: &mut R, header: &[u8]) -> bool {
    let sn = list_length(header, 0, 600);
    let on = list_length(header, 8, 600);
    let pn = list_length(header, 16, 20100);
    let mut s = [0.0; 600];
    let mut o = [0.0; 600];
    let mut path = [0.0; 20100];
    load(input, &mut s[..sn]);
    load(input, &mut o[..on]);
    load(input, &mut path[..pn]);
    let verdict = check_path(&s[..sn], &o[..on], settings(header), &path[..pn]);
    told::words(verdict) == told_in(header)
}

fn main(rt: HostRuntime) -> io::Result<()> {
    let mut input = BufReader::new(rt.alloc(), rt.reader())?;
    replay::run::<80, _, _>(&rt, &mut input, agrees)
}
