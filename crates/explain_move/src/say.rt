// What is printed of the call's answer: the hit, the ground, or the refusal.
ghost use Rattle.std.specs.Prelude.{◌≤◌, length};
ghost use Rattle.print.specs.Text.{Put};
ghost use Rattle.grounds.specs.Calls.{account, explained};
ghost use Rattle.explain_move.specs.Lines.{hit_front, hit_line, clear_line, found_line, outcome_line};

use collision::Hit;
use grounds::Explanation;
use lines::put_number;
use number_bytes::bits_of;
use print::{put_decimal, put_hex, put_text};
use refusals::Refusal;

// The front of a hit's line: the kind and the indices.
fn put_front(kind: u8, stationary: usize, orbiting: usize, out: &mut [u8]) -> usize
    requires { 120 ≤ length out.old }
    ensures { Put out.old 0 (hit_front kind stationary orbiting) out.new result × (result ≤ 67) }
{
    let a = put_text(out, 0, b"hit ");
    let b = put_decimal(out, a, kind as u64);
    let c = put_text(out, b, b" ");
    let d = put_decimal(out, c, stationary as u64);
    let e = put_text(out, d, b" ");
    let f = put_decimal(out, e, orbiting as u64);
    put_text(out, f, b" ")
}

// A hit's line.
fn put_hit(hit: Hit, others: u64, out: &mut [u8]) -> usize
    requires { 120 ≤ length out.old }
    ensures { Put out.old 0 (hit_line hit others) out.new result }
{
    let a = put_front(hit.kind, hit.stationary, hit.orbiting, out);
    let b = put_hex(out, a, bits_of(hit.distance));
    let c = put_text(out, b, b" ");
    let d = put_decimal(out, c, others);
    put_text(out, d, b"\n")
}

// The line of a ground.
fn put_clear(ground: u32, out: &mut [u8]) -> usize
    requires { 120 ≤ length out.old }
    ensures { Put out.old 0 (clear_line ground) out.new result }
{
    let a = put_text(out, 0, b"clear ");
    let b = put_decimal(out, a, ground as u64);
    put_text(out, b, b"\n")
}

// A hit, or why there is none.
fn put_explanation(x: Explanation, out: &mut [u8]) -> usize
    requires { 120 ≤ length out.old }
    ensures { Put out.old 0 (found_line (account x).hit (account x)) out.new result }
{
    let ground = x.ground;
    let tally = x.tally;
    match tally.best {
        None => put_clear(ground.number(), out),
        Some(hit) => put_hit(hit, tally.others, out),
    }
}

// What the call answered.
pub fn put_explained(answer: Result<Explanation, Refusal>, out: &mut [u8]) -> usize
    requires { 120 ≤ length out.old }
    ensures { Put out.old 0 (outcome_line (explained answer)) out.new result }
{
    match answer {
        Ok(x) => put_explanation(x, out),
        Err(no) => put_number(no.number(), out),
    }
}
