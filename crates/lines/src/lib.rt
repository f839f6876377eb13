// The lines that the programs share: a refusal's, and those of a list's points.
#![tactic(auto)]

ghost use Rattle.std.specs.Prelude.{◌≡◌, ◌+◌, ◌*◌, ◌≤◌, length};
ghost use Rattle.print.specs.Text.{Put};
ghost use Rattle.lines.specs.Lines.{number_line, place_line, refusal_line, point_lines};
ghost use Rattle.refusals.specs.Answers.{tells};

use number_bytes::bits_of;
use print::{put_decimal, put_pair, put_text};
use refusals::Refusal;
use ring::point_at;

// A refusal's number alone.
pub fn put_number(number: u32, out: &mut [u8]) -> usize
    requires { 100 ≤ length out.old }
    ensures { Put out.old 0 (number_line number) out.new result }
{
    let at = put_text(out, 0, b"refused ");
    let end = put_decimal(out, at, number as u64);
    put_text(out, end, b"\n")
}

// A refusal's number and its place.
fn put_place(number: u32, place: u64, out: &mut [u8]) -> usize
    requires { 100 ≤ length out.old }
    ensures { Put out.old 0 (place_line number place) out.new result }
{
    let at = put_text(out, 0, b"refused ");
    let blank = put_decimal(out, at, number as u64);
    let next = put_text(out, blank, b" ");
    let end = put_decimal(out, next, place);
    put_text(out, end, b"\n")
}

// A refusal: its number, and its place where it tells one.
#[tactic(auto, unfolding(crate::specs::Lines::refusal_line))]
pub fn put_refusal(no: Refusal, out: &mut [u8]) -> usize
    requires { 100 ≤ length out.old }
    ensures { Put out.old 0 (refusal_line (tells no)) out.new result }
{
    match no.place() {
        Some(place) => put_place(no.number(), place, out),
        None => put_number(no.number(), out),
    }
}

// The first n points of a list, a line each, by their bit patterns, from out[at] on.
pub fn put_points(xs: &[f64], n: usize, out: &mut [u8], at: usize) -> usize
    requires { (2 * n ≤ length xs.now) × (at + 34 * n ≤ length out.old) }
    ensures put { Put out.old at (point_lines xs.now n) out.new result }
    ensures value { result ≡ at + 34 * n }
{
    let mut next = at;
    for i in 0..n {
        let p = point_at(xs, i);
        next = put_pair(out, next, bits_of(p.x), bits_of(p.y));
    }
    next
}
