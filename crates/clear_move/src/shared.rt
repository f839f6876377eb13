// Which edges of a reason have the same line, and their numbers as ranges.
ghost use Rattle.std.specs.Prelude.{◌≡◌, cond, ◌+◌, ◌*◌, ◌≤◌, ◌<◌, length};
ghost use Rattle.laws.specs.Turns.{tally};
ghost use Rattle.print.specs.Text.{Put};
ghost use Rattle.clear_move.specs.Shared.{same_number, same_line, owner, has, has_before, has_after, line_count};
ghost use Rattle.clear_move.specs.Shared.{start_text, end_text, run_text, range_part, ranges_to};
ghost use Rattle.clear_move.specs.Owned.{first, Owned};

use print::{put_decimal, put_text};

// Whether numbers i and j of a list are the same.
fn is_same(ls: &[i32], i: usize, j: usize) -> bool
    requires { (i < length ls.now) × (j < length ls.now) }
    ensures { result ≡ same_number ls.now i j }
{
    ls[i] == ls[j]
}

// Whether edges i and j have the same line.
fn same_line(ls: &[i32], i: usize, j: usize) -> bool
    requires { (4 * i + 4 ≤ length ls.now) × (4 * j + 4 ≤ length ls.now) }
    ensures { result ≡ same_line ls.now i j }
{
    if !is_same(ls, 4 * i, 4 * j) {
        return false;
    }
    if !is_same(ls, 4 * i + 1, 4 * j + 1) {
        return false;
    }
    if !is_same(ls, 4 * i + 2, 4 * j + 2) {
        return false;
    }
    is_same(ls, 4 * i + 3, 4 * j + 3)
}

// The first edge with the line of edge j.
fn first_with(ls: &[i32], j: usize) -> usize
    requires { 4 * j + 4 ≤ length ls.now }
    ensures { result ≡ owner ls.now j }
{
    for i in 0..j {
        if same_line(ls, i, j) {
            return i;
        }
    }
    j
}

// Notes for each of m edges the first with its line.
pub fn note_owners(ls: &[i32], m: usize, owners: &mut [usize])
    requires { (4 * m ≤ length ls.now) × (m ≤ length owners.old) }
    ensures { Owned ls.now owners.new m }
{
    for k in 0..m {
        owners[k] = first_with(ls, k);
    }
}

// Whether edge k has the line of edge j.
pub fn has(owners: &[usize], j: usize, k: usize) -> bool
    requires { k < length owners.now }
    ensures { result ≡ has (first owners.now) j k }
{
    owners[k] == j
}

// Whether the edge before it has.
fn has_before(owners: &[usize], j: usize, k: usize) -> bool
    requires { k < length owners.now }
    ensures { result ≡ has_before (first owners.now) j k }
{
    if k == 0 {
        return false;
    }
    has(owners, j, k - 1)
}

// Whether the edge after it has, of m.
fn has_after(owners: &[usize], m: usize, j: usize, k: usize) -> bool
    requires { (k < m) × (m ≤ length owners.now) }
    ensures { result ≡ has_after (first owners.now) m j k }
{
    if k + 1 < m {
        return has(owners, j, k + 1);
    }
    false
}

// How many lines m edges have, no two alike.
pub fn count_lines(owners: &[usize], m: usize) -> u64
    requires { m ≤ length owners.now }
    ensures { result ≡ line_count (first owners.now) m }
{
    let mut count = 0;
    for k in 0..m {
        count += flag(has(owners, k, k));
    }
    count
}

// 1 for true.
fn flag(yes: bool) -> u64
    ensures { (result ≡ cond yes 1 0) × (result ≤ 1) }
{
    if yes { 1 } else { 0 }
}

// A run of edges of the line of edge j begins with edge k.
fn put_start(j: usize, k: usize, out: &mut [u8], at: usize) -> usize
    requires { at + 22 ≤ length out.old }
    ensures { Put out.old at (start_text j k) out.new result × (result ≤ at + 22) }
{
    if k == j {
        return put_decimal(out, at, k as u64);
    }
    let next = put_text(out, at, b", ");
    put_decimal(out, next, k as u64)
}

// A run ends with edge k.
fn put_end(k: usize, out: &mut [u8], at: usize) -> usize
    requires { at + 22 ≤ length out.old }
    ensures { Put out.old at (end_text k) out.new result × (result ≤ at + 22) }
{
    let next = put_text(out, at, b"-");
    put_decimal(out, next, k as u64)
}

// What is written of edge k where it has the line of edge j.
fn put_edge_of(owners: &[usize], m: usize, j: usize, k: usize, out: &mut [u8], at: usize) -> usize
    requires { (k < m) × (m ≤ length owners.now) × (at + 22 ≤ length out.old) }
    ensures { Put out.old at (run_text (first owners.now) m j k) out.new result × (result ≤ at + 22) }
{
    if !has_before(owners, j, k) {
        return put_start(j, k, out, at);
    }
    if has_after(owners, m, j, k) {
        return at;
    }
    put_end(k, out, at)
}

// What is written of edge k.
fn put_part(owners: &[usize], m: usize, j: usize, k: usize, out: &mut [u8], at: usize) -> usize
    requires { (k < m) × (m ≤ length owners.now) × (at + 22 * cond (has (first owners.now) j k) 1 0 ≤ length out.old) }
    ensures put { Put out.old at (range_part (first owners.now) m j k) out.new result }
    ensures upper_bound { result ≤ at + 22 * cond (has (first owners.now) j k) 1 0 }
{
    if has(owners, j, k) {
        return put_edge_of(owners, m, j, k, out, at);
    }
    at
}

// The edges of the line of edge j, as ranges.
pub fn put_ranges(owners: &[usize], m: usize, j: usize, out: &mut [u8], at: usize) -> usize
    requires { (m ≤ length owners.now) × (at + 22 * tally (has (first owners.now) j) m ≤ length out.old) }
    ensures put { Put out.old at (ranges_to (first owners.now) m j m) out.new result }
    ensures upper_bound { result ≤ at + 22 * tally (has (first owners.now) j) m }
{
    let mut next = at;
    for k in 0..m {
        next = put_part(owners, m, j, k, out, next);
    }
    next
}
