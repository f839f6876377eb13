// Replays the oracle's answers for the ring calls: records of a call's number, what it is lent, and what it answers and
// leaves, from standard input.
#![tactic(auto)]

mod told;

ghost use Rattle.std.specs.Prelude.{◌≤◌};

use mending::calls::mend_ring;
use plane::Point;
use replay::{is_same, list_length, load, load_bytes, word};
use std::io;
use std::io::{BufReader, Read};
use told::Told;

// What a call on single points answers.
fn on_points(call: u64, n: &[f64; 600]) -> Told {
    let a = Point { x: n[0], y: n[1] };
    let b = Point { x: n[2], y: n[3] };
    let c = Point { x: n[4], y: n[5] };
    let d = Point { x: n[6], y: n[7] };
    match call {
        0 => told::turn(segments::calls::orientation(a, b, c)),
        1 => told::truth(segments::calls::on_segment(a, b, c)),
        2 => told::truth(segments::calls::segments_intersect(a, b, c, d)),
        3 => told::number(ring_distance::calls::point_segment_distance(a, b, c)),
        10 => told::parameter(projection::calls::project_point_to_segment(a, b, c)),
        11 => told::number(projection::calls::point_to_segment_distance(a, b, c)),
        12 => told::truth(projection::calls::point_on_segment(a, b, c, n[6])),
        _ => told::foot(projection::calls::project_point_to_segment(a, b, c)),
    }
}

// What a call on rings answers.
fn on_rings(call: u64, a: &[f64], b: &[f64], room: &mut [f64]) -> Told {
    match call {
        4 => told::count(ring_copies::calls::mirror_polygon(a, room)),
        5 => told::count(ring_copies::calls::open_ring(a, room)),
        6 => told::truth(simple_polygon::calls::is_simple_polygon(a)),
        7 => told::number(ring_distance::calls::ring_distance(a, b)),
        8 => told::number(signed_area::calls::signed_area2(a)),
        _ => told::number(signed_area::calls::signed_area_robust(a)),
    }
}

// Whether a call is one on rings.
fn takes_rings(call: u64) -> bool {
    4 <= call && call <= 9
}

// What a record says is told.
fn told_in(header: &[u8]) -> Told {
    Told {
        number: word(header, 32),
        value: word(header, 40),
        place: word(header, 48),
    }
}

// Whether a record of any call but mending says what its call tells and leaves: two lists follow its header, and the room at entry and at exit.
fn call_agrees<R: Read>(input: &mut R, header: &[u8]) -> bool {
    let call = word(header, 0);
    let an = list_length(header, 8, 600);
    let bn = list_length(header, 16, 600);
    let rn = list_length(header, 24, 600);
    let mut a = [0.0; 600];
    let mut b = [0.0; 600];
    let mut room = [0.0; 600];
    let mut left = [0.0; 600];
    load(input, &mut a[..an]);
    load(input, &mut b[..bn]);
    load(input, &mut room[..rn]);
    load(input, &mut left[..rn]);
    let told = if takes_rings(call) {
        on_rings(call, &a[..an], &b[..bn], &mut room[..rn])
    } else {
        on_points(call, &a)
    };
    told == told_in(header) && is_same(&room[..rn], &left[..rn])
}

// The length of a room of words, which stands before it.
fn words_length<R: Read>(input: &mut R) -> usize
    ensures { result ≤ 600 }
{
    let mut bytes = [0u8; 8];
    load_bytes(input, &mut bytes);
    list_length(&bytes, 0, 600)
}

// Whether a record of mending says what it tells and leaves: its second list is the room of points, whose numbers at exit follow those of the
// ring's room, and then comes the room of indices and whys, its length before it.
fn mending_agrees<R: Read>(input: &mut R, header: &[u8]) -> bool {
    let n = list_length(header, 8, 600);
    let pn = list_length(header, 16, 600);
    let rn = list_length(header, 24, 600);
    let mut ring = [0.0; 600];
    let mut points = [0.0; 600];
    let mut room = [0.0; 600];
    let mut left = [0.0; 600];
    let mut points_left = [0.0; 600];
    load(input, &mut ring[..n]);
    load(input, &mut points[..pn]);
    load(input, &mut room[..rn]);
    load(input, &mut left[..rn]);
    load(input, &mut points_left[..pn]);
    let dn = words_length(input);
    let mut dropped = [0u64; 600];
    let mut dropped_left = [0u64; 600];
    load(input, &mut dropped[..dn]);
    load(input, &mut dropped_left[..dn]);
    let told = told::mended(mend_ring(
        &ring[..n],
        &mut room[..rn],
        &mut dropped[..dn],
        &mut points[..pn],
    ));
    told == told_in(header)
        && is_same(&dropped[..dn], &dropped_left[..dn])
        && is_same(&points[..pn], &points_left[..pn])
        && is_same(&room[..rn], &left[..rn])
}

// Whether a record, of mending or of another call, says what its call tells and leaves.
fn agrees<R: Read>(input: &mut R, header: &[u8]) -> bool {
    if word(header, 0) == 14 {
        mending_agrees(input, header)
    } else {
        call_agrees(input, header)
    }
}

fn main(rt: HostRuntime) -> io::Result<()> {
    let mut input = BufReader::new(rt.alloc(), rt.reader())?;
    replay::run::<56, _, _>(&rt, &mut input, agrees)
}
