// Replays the oracle's answers for the sliding calls: records of a call's number, what it is lent, and what it answers and
// leaves, from standard input.
#![tactic(auto)]

mod told;

use plane::Point;
use replay::{is_same, list_length, load, word};
use std::io;
use std::io::{BufReader, Read};
use told::Told;

// The previous direction of a selection: the first extra word is 0 for none.
fn previous(x: &[f64; 8]) -> Option<Point> {
    if x[0] == 0.0 {
        None
    } else {
        Some(Point { x: x[1], y: x[2] })
    }
}

// What a call that fills no room answers.
fn on_polygons(call: u64, s: &[f64], o: &[f64], v: &[f64], x: &[f64; 8]) -> Told {
    let p = Point { x: x[0], y: x[1] };
    match call {
        3 => told::selected(selection::calls::select_translation_vector(
            v,
            previous(x),
            Point { x: x[3], y: x[4] },
            Point { x: x[5], y: x[6] },
        )),
        4 => told::checked(collision::calls::check_translation_collision(s, o, p, x[2])),
        5 => told::position(interlocking::calls::detect_interlocking_opportunity(s, o, p, x[2])),
        6 => told::position(recovery::calls::recover_contact(s, o, p, x[2])),
        7 => told::truth(overlap::calls::polygons_overlap(s, o)),
        8 => told::truth(overlap::calls::polygons_overlap_with_tolerance(s, o, x[0])),
        11 => told::explained(grounds::calls::explain_collision(s, o, p, x[2])),
        _ => told::started(start_position::calls::find_start_position(s, o)),
    }
}

// What a call that fills a room of floats and one of numbers answers. The contacts' first room is the one of numbers.
fn on_rooms(
    call: u64,
    s: &[f64],
    o: &[f64],
    v: &[f64],
    x: &[f64; 8],
    room: &mut [f64],
    numbers: &mut [u64],
) -> Told {
    match call {
        0 => told::count(contacts_call::calls::find_contacts(s, o, x[0], numbers, room)),
        1 => told::count(vectors_call::calls::compute_translation_vectors(
            s, o, x[0], room, numbers,
        )),
        2 => told::count(vectors_call::calls::handle_perfect_fit(
            s,
            o,
            Point { x: x[0], y: x[1] },
            v,
            x[2],
            room,
            numbers,
        )),
        _ => told::count(simplify::calls::simplify_polygon(v, x[0], room)),
    }
}

// What a record says is told.
fn told_in(header: &[u8]) -> Told {
    Told {
        number: word(header, 56),
        a: word(header, 64),
        b: word(header, 72),
        c: word(header, 80),
        d: word(header, 88),
        e: word(header, 96),
        f: word(header, 104),
        g: word(header, 112),
        h: word(header, 120),
        i: word(header, 128),
        place: word(header, 136),
    }
}

// Whether a record of contacts says what they tell and leave: the room of numbers comes before the one of floats.
fn contacts_agree<R: Read>(
    input: &mut R,
    header: &[u8],
    s: &[f64],
    o: &[f64],
    v: &[f64],
    x: &[f64; 8],
) -> bool {
    let nn = list_length(header, 40, 4096);
    let rn = list_length(header, 48, 4096);
    let mut numbers = [0u64; 4096];
    let mut room = [0.0; 4096];
    let mut numbers_left = [0u64; 4096];
    let mut room_left = [0.0; 4096];
    load(input, &mut numbers[..nn]);
    load(input, &mut room[..rn]);
    load(input, &mut numbers_left[..nn]);
    load(input, &mut room_left[..rn]);
    let call = word(header, 0);
    let told = on_rooms(call, s, o, v, x, &mut room[..rn], &mut numbers[..nn]);
    told == told_in(header)
        && is_same(&numbers[..nn], &numbers_left[..nn])
        && is_same(&room[..rn], &room_left[..rn])
}

// Whether another record of two rooms says what its call tells and leaves: the room of floats comes first.
fn rooms_agree<R: Read>(
    input: &mut R,
    header: &[u8],
    s: &[f64],
    o: &[f64],
    v: &[f64],
    x: &[f64; 8],
) -> bool {
    let rn = list_length(header, 40, 4096);
    let nn = list_length(header, 48, 4096);
    let mut room = [0.0; 4096];
    let mut numbers = [0u64; 4096];
    let mut room_left = [0.0; 4096];
    let mut numbers_left = [0u64; 4096];
    load(input, &mut room[..rn]);
    load(input, &mut numbers[..nn]);
    load(input, &mut room_left[..rn]);
    load(input, &mut numbers_left[..nn]);
    let call = word(header, 0);
    let told = on_rooms(call, s, o, v, x, &mut room[..rn], &mut numbers[..nn]);
    told == told_in(header)
        && is_same(&numbers[..nn], &numbers_left[..nn])
        && is_same(&room[..rn], &room_left[..rn])
}

// Whether a record says what its call tells and leaves: three lists and the extra numbers follow its header, and then its rooms.
fn agrees<R: Read>(input: &mut R, header: &[u8]) -> bool {
    let sn = list_length(header, 8, 4096);
    let on = list_length(header, 16, 4096);
    let vn = list_length(header, 24, 20100);
    let xn = list_length(header, 32, 8);
    let mut s = [0.0; 4096];
    let mut o = [0.0; 4096];
    let mut v = [0.0; 20100];
    let mut x = [0.0; 8];
    load(input, &mut s[..sn]);
    load(input, &mut o[..on]);
    load(input, &mut v[..vn]);
    load(input, &mut x[..xn]);
    let s = &s[..sn];
    let o = &o[..on];
    let v = &v[..vn];
    match word(header, 0) {
        0 => contacts_agree(input, header, s, o, v, &x),
        1 | 2 | 10 => rooms_agree(input, header, s, o, v, &x),
        call => on_polygons(call, s, o, v, &x) == told_in(header),
    }
}

fn main(rt: HostRuntime) -> io::Result<()> {
    let mut input = BufReader::new(rt.alloc(), rt.reader())?;
    replay::run::<144, _, _>(&rt, &mut input, agrees)
}
