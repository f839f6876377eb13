// Replays the oracle's answers on moves and paths of a drawing: records of a call's number, what it is lent, what it answers and what it
// leaves, from standard input.
#![tactic(auto)]

mod told;

use clear_drawn::calls::{check_reason, clear_move};
use clear_drawn_path::calls::clear_path;
use number_bytes::float_of;
use plane::Point;
use replay::{Item, is_same, list_length, load, word};
use std::io;
use std::io::{BufReader, Read};
use told::Told;

// The point at two words of a record's header.
fn point(x: u64, y: u64) -> Point {
    Point {
        x: float_of(x),
        y: float_of(y),
    }
}

// What a call is lent besides its lists: the ends of a move, the units, and how, or whether a path is closed.
#[derive(Clone, Copy)]
struct Asked {
    from: Point,
    to: Point,
    units: u32,
    besides: u32,
}

fn asked_in(header: &[u8]) -> Asked {
    Asked {
        from: point(word(header, 32), word(header, 40)),
        to: point(word(header, 48), word(header, 56)),
        units: u32::from_word(word(header, 64)),
        besides: u32::from_word(word(header, 72)),
    }
}

// What a record says is told.
fn told_in(header: &[u8]) -> Told {
    Told {
        number: word(header, 80),
        ground: word(header, 88),
        depth: word(header, 96),
        how: word(header, 104),
        leg: word(header, 112),
        edge: word(header, 120),
        place: word(header, 128),
    }
}

// Whether the search of a record is told so and leaves its room as the record says.
fn searched<R: Read>(input: &mut R, header: &[u8], s: &[f64], o: &[f64]) -> bool {
    let n = list_length(header, 24, 1100);
    let mut room = [0i32; 1100];
    let mut left = [0i32; 1100];
    load(input, &mut room[..n]);
    load(input, &mut left[..n]);
    let a = asked_in(header);
    let told = told::judged(clear_move(s, o, a.from, a.to, a.units, &mut room[..n]));
    told == told_in(header) && is_same(&room[..n], &left[..n])
}

// Whether the check of a record's reason is told so.
fn checked<R: Read>(input: &mut R, header: &[u8], s: &[f64], o: &[f64]) -> bool {
    let n = list_length(header, 24, 1100);
    let mut reason = [0i32; 1100];
    load(input, &mut reason[..n]);
    let a = asked_in(header);
    let judged = check_reason(s, o, a.from, a.to, a.units, a.besides, &reason[..n]);
    told::checked(judged) == told_in(header)
}

// Whether the path of a record is told so.
fn gone<R: Read>(input: &mut R, header: &[u8], s: &[f64], o: &[f64]) -> bool {
    let n = list_length(header, 24, 20100);
    let mut path = [0.0; 20100];
    load(input, &mut path[..n]);
    let a = asked_in(header);
    told::gone(clear_path(s, o, &path[..n], a.besides != 0, a.units)) == told_in(header)
}

// Whether a record says what its call tells and leaves: the polygons follow its header, and then what the call is lent besides.
fn agrees<R: Read>(input: &mut R, header: &[u8]) -> bool {
    let sn = list_length(header, 8, 600);
    let on = list_length(header, 16, 600);
    let mut s = [0.0; 600];
    let mut o = [0.0; 600];
    load(input, &mut s[..sn]);
    load(input, &mut o[..on]);
    match word(header, 0) {
        0 => searched(input, header, &s[..sn], &o[..on]),
        1 => checked(input, header, &s[..sn], &o[..on]),
        _ => gone(input, header, &s[..sn], &o[..on]),
    }
}

fn main(rt: HostRuntime) -> io::Result<()> {
    let mut input = BufReader::new(rt.alloc(), rt.reader())?;
    replay::run::<136, _, _>(&rt, &mut input, agrees)
}
