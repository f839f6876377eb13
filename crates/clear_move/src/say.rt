// What is printed of the call's answer: the reason, what stands in the way of one, or the refusal.
ghost use Rattle.std.specs.Prelude.{◌≡◌, ◌+◌, ◌*◌, ◌≤◌, ◌<◌, nat_abs, length};
ghost use Rattle.print.specs.Text.{Put};
ghost use Rattle.reason_check.specs.Told.{ground};
ghost use Rattle.clear_calls.specs.Calls.{judged};
ghost use Rattle.laws.specs.Turns.{tally};
ghost use Rattle.clear_move.specs.Shared.{has};
ghost use Rattle.clear_move.specs.Owned.{first};
ghost use Rattle.clear_move.specs.Lines.{signed, field, reason_line, shared_line, first_line, shared_lines, clear_text};
ghost use Rattle.clear_move.specs.Lines.{edge_line, ground_text, judged_text};

use crate::shared::{count_lines, has, note_owners, put_ranges};
use lines::put_refusal;
use print::{put_decimal, put_text};
use reason_check::Ground;
use refusals::Refusal;

// Edges of a polygon.
const EDGES_MOST: usize = 256;

// How far a whole number is from zero.
fn magnitude(n: i32) -> u64
    ensures { result ≡ nat_abs n }
{
    if n < 0 {
        return (-1 - n) as u64 + 1;
    }
    n as u64
}

// A whole number in decimal digits, with a minus before one below zero.
fn put_signed(out: &mut [u8], at: usize, n: i32) -> usize
    requires { at + 21 ≤ length out.old }
    ensures { Put out.old at (signed n) out.new result × (result ≤ at + 21) }
{
    if n < 0 {
        let next = put_text(out, at, b"-");
        return put_decimal(out, next, magnitude(n));
    }
    put_decimal(out, at, magnitude(n))
}

// Number i of a list, and the byte after it.
fn put_field(ls: &[i32], i: usize, after: &[u8], out: &mut [u8], at: usize) -> usize
    requires { (i < length ls.now) × (length after.now ≡ 1) × (at + 22 ≤ length out.old) }
    ensures { Put out.old at (field ls.now i after.now) out.new result × (result ≤ at + 22) }
{
    let end = put_signed(out, at, ls[i]);
    put_text(out, end, after)
}

// The line of edge j.
fn put_reason_line(ls: &[i32], j: usize, out: &mut [u8], at: usize) -> usize
    requires { (4 * j + 4 ≤ length ls.now) × (at + 88 ≤ length out.old) }
    ensures { Put out.old at (reason_line ls.now j) out.new result × (result ≤ at + 88) }
{
    let a = put_field(ls, 4 * j, b" ", out, at);
    let b = put_field(ls, 4 * j + 1, b" ", out, a);
    let c = put_field(ls, 4 * j + 2, b" ", out, b);
    put_field(ls, 4 * j + 3, b"\n", out, c)
}

// The line of edge j, with the edges that have it.
fn put_shared(owners: &[usize], ls: &[i32], m: usize, j: usize, out: &mut [u8], at: usize) -> usize
    requires j_lt_m { (j < m) × (m ≤ length owners.now) × (4 * m ≤ length ls.now) }
    requires m_in_bounds { at + 96 + 22 * tally (has (first owners.now) j) m ≤ length out.old }
    ensures put { Put out.old at (shared_line (first owners.now) ls.now m j) out.new result }
    ensures upper_bound { result ≤ at + 96 + 22 * tally (has (first owners.now) j) m }
{
    let a = put_text(out, at, b"edges ");
    let b = put_ranges(owners, m, j, out, a);
    let c = put_text(out, b, b": ");
    put_reason_line(ls, j, out, c)
}

// The same, where edge j is the first with its line.
fn put_first(owners: &[usize], ls: &[i32], m: usize, j: usize, out: &mut [u8], at: usize) -> usize
    requires j_lt_m { (j < m) × (m ≤ length owners.now) × (4 * m ≤ length ls.now) }
    requires m_in_bounds { at + 96 + 22 * tally (has (first owners.now) j) m ≤ length out.old }
    ensures put { Put out.old at (first_line (first owners.now) ls.now m j) out.new result }
    ensures upper_bound { result ≤ at + 96 + 22 * tally (has (first owners.now) j) m }
{
    if has(owners, j, j) {
        return put_shared(owners, ls, m, j, out, at);
    }
    at
}

// Each line once.
fn put_lines(owners: &[usize], ls: &[i32], m: usize, out: &mut [u8], at: usize) -> usize
    requires { (m ≤ length owners.now) × (4 * m ≤ length ls.now) × (at + 118 * m ≤ length out.old) }
    ensures { Put out.old at (shared_lines (first owners.now) ls.now m m) out.new result }
{
    let mut next = at;
    for j in 0..m {
        next = put_first(owners, ls, m, j, out, next);
    }
    next
}

// That the move is clear, and the reason of m edges.
fn put_clear(ls: &[i32], m: usize, out: &mut [u8]) -> usize
    requires { (m ≤ 256) × (4 * m ≤ length ls.now) × (100 + 118 * m ≤ length out.old) }
    ensures { Put out.old 0 (clear_text ls.now m) out.new result }
{
    let mut owners = [0usize; EDGES_MOST];
    note_owners(ls, m, &mut owners);
    let a = put_text(out, 0, b"clear lines ");
    let b = put_decimal(out, a, count_lines(&owners, m));
    let c = put_text(out, b, b"\n");
    put_lines(&owners, ls, m, out, c)
}

// The first edge that no line parts.
fn put_edge(j: usize, out: &mut [u8]) -> usize
    requires { 26 ≤ length out.old }
    ensures { Put out.old 0 (edge_line j) out.new result }
{
    let at = put_text(out, 0, b"edge ");
    let end = put_decimal(out, at, j as u64);
    put_text(out, end, b"\n")
}

// What is found.
fn put_ground(g: Ground, ls: &[i32], m: usize, out: &mut [u8]) -> usize
    requires { (m ≤ 256) × (4 * m ≤ length ls.now) × (100 + 118 * m ≤ length out.old) }
    ensures { Put out.old 0 (ground_text (ground g) ls.now m) out.new result }
{
    match g {
        Ground::Clear => put_clear(ls, m, out),
        Ground::Edge(j) => put_edge(j, out),
        Ground::Enclosed => put_text(out, 0, b"enclosed\n"),
    }
}

// What the call answered, with the reason's numbers of m edges.
pub fn put_judged(answer: Result<Ground, Refusal>, ls: &[i32], m: usize, out: &mut [u8]) -> usize
    requires { (m ≤ 256) × (4 * m ≤ length ls.now) × (100 + 118 * m ≤ length out.old) }
    ensures { Put out.old 0 (judged_text (judged answer) ls.now m) out.new result }
{
    match answer {
        Ok(g) => put_ground(g, ls, m, out),
        Err(no) => put_refusal(no, out),
    }
}
