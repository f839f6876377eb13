// Replays the oracle's answers on whole moves, reasons and whole paths: records of a call's number, what it is lent, what it answers and what
// it leaves, from standard input.
#![tactic(auto)]

mod told;

use clear_calls::calls::{check_reason, clear_move};
use clear_path::calls::clear_path;
use replay::{Item, is_same, list_length, load, word};
use std::io;
use std::io::{BufReader, Read};
use told::Told;

// What a record says is told.
fn told_in(header: &[u8]) -> Told {
    Told {
        number: word(header, 48),
        ground: word(header, 56),
        leg: word(header, 64),
        edge: word(header, 72),
        place: word(header, 80),
    }
}

// Whether the search of a record is told so and leaves its room as the record says.
fn searched<R: Read>(input: &mut R, header: &[u8], s: &[i32], o: &[i32]) -> bool {
    let n = list_length(header, 24, 1100);
    let mut room = [0i32; 1100];
    let mut left = [0i32; 1100];
    load(input, &mut room[..n]);
    load(input, &mut left[..n]);
    let dx = i32::from_word(word(header, 32));
    let dy = i32::from_word(word(header, 40));
    let told = told::judged(clear_move(s, o, dx, dy, &mut room[..n]));
    told == told_in(header) && is_same(&room[..n], &left[..n])
}

// Whether the check of a record's reason is told so.
fn checked<R: Read>(input: &mut R, header: &[u8], s: &[i32], o: &[i32]) -> bool {
    let n = list_length(header, 24, 1100);
    let mut reason = [0i32; 1100];
    load(input, &mut reason[..n]);
    let dx = i32::from_word(word(header, 32));
    let dy = i32::from_word(word(header, 40));
    told::judged(check_reason(s, o, dx, dy, &reason[..n])) == told_in(header)
}

// Whether the path of a record is told so.
fn gone<R: Read>(input: &mut R, header: &[u8], s: &[i32], o: &[i32]) -> bool {
    let n = list_length(header, 24, 20100);
    let mut path = [0i32; 20100];
    load(input, &mut path[..n]);
    told::gone(clear_path(s, o, &path[..n])) == told_in(header)
}

// Whether a record says what its call tells and leaves: the polygons follow its header, and then what the call is lent besides.
fn agrees<R: Read>(input: &mut R, header: &[u8]) -> bool {
    let sn = list_length(header, 8, 600);
    let on = list_length(header, 16, 600);
    let mut s = [0i32; 600];
    let mut o = [0i32; 600];
    load(input, &mut s[..sn]);
    load(input, &mut o[..on]);
    match word(header, 0) {
        0 => searched(input, header, &s[..sn], &o[..on]),
        1 => checked(input, header, &s[..sn], &o[..on]),
        _ => gone(input, header, &s[..sn], &o[..on]),
    }
}

fn main(rt: HostRuntime) -> io::Result<()> {
    let mut input = BufReader::new(rt.alloc(), rt.reader())?;
    replay::run::<88, _, _>(&rt, &mut input, agrees)
}
