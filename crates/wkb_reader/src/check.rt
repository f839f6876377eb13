// The checks of a file: each refuses it by refusal 10 with the place of the first fault that it finds.
ghost use Rattle.std.specs.Prelude.{◌≡◌, ◌+◌, ◌*◌, ◌≤◌, ◌<◌, length, drop};
ghost use Rattle.refusals.specs.Refusals.{refuse, refused_wkb};
ghost use Rattle.refusals.specs.Rings.{within};
ghost use Rattle.refusals.specs.Answers.{tells, tested};
ghost use Rattle.wkb_layout.specs.Layout.{code_bytes, number_bytes, point_bytes, points_at, head_bytes, points_least, points_most, order_in, code_in, open_vertices};
ghost use Rattle.wkb_layout.specs.Faults.{wkb_fault, number_in, numbers_check, closing_at, closes, wkb_check};
ghost use Rattle.wkb_layout.specs.Reader.{read_wkb_refusal};
ghost use Rattle.wkb_reader.specs.Parts.{head_check};

use number_bytes::float_of;
use refusals::Refusal;
use refusals::screen::{short, unless};
use refusals::test::is_coordinate;
use wkb_layout::{
    HEAD_BYTES, NUMBER_BYTES, Order, POINT_BYTES, POINTS_AT, POINTS_LEAST, POINTS_MOST,
    POLYGON_TYPE, RINGS_AT, TYPE_AT, bits, code,
};

// Refusal 10 with a place.
fn fault(place: usize) -> Refusal
    ensures { tells result ≡ refuse refused_wkb place }
{
    Refusal::Wkb(place as u64)
}

// Whether a ring may have so many points, the closing one among them.
fn is_number_of_points(points: u64) -> bool
    ensures { result ≡ within points_least points_most points }
{
    (POINTS_LEAST..=POINTS_MOST).contains(&points)
}

// The byte order of a file.
pub fn order(f: &[u8]) -> Order
    requires { head_bytes ≤ length f.now }
    ensures { result ≡ order_in f.now }
{
    let first = f[0];
    match first {
        0 => Order::Big,
        _ => Order::Little,
    }
}

// The coordinate at a byte of a file.
pub fn number(f: &[u8], at: usize) -> f64
    requires { (head_bytes ≤ length f.now) × (at + number_bytes ≤ length f.now) }
    ensures { result ≡ number_in f.now at }
{
    float_of(bits(order(f), f, at))
}

// The field at a byte of a file.
#[tactic(auto, unfolding(wkb_layout::specs::Layout::code_in))]
fn field(f: &[u8], at: usize) -> u64
    requires { (head_bytes ≤ length f.now) × (at + code_bytes ≤ head_bytes) }
    ensures { (result ≡ code_in f.now at) × (result < 4294967296) }
{
    code(order(f), f, at)
}

// The number of points of a file, the closing one among them.
pub fn points(f: &[u8]) -> u64
    requires { head_bytes ≤ length f.now }
    ensures { (result ≡ code_in f.now points_at) × (result < 4294967296) }
{
    field(f, POINTS_AT)
}

// The length and the fields, up to the coordinates.
#[tactic(auto, using(refusals::proofs::Tests::refused), unfolding(crate::specs::Parts::head_check))]
fn head(f: &[u8]) -> Result<(), Refusal>
    ensures { tested result ≡ head_check f.now }
{
    if f.len() < HEAD_BYTES {
        return Err(fault(0));
    }
    if f[0] > 1 {
        return Err(fault(0));
    }
    if field(f, TYPE_AT) != POLYGON_TYPE {
        return Err(fault(TYPE_AT));
    }
    if field(f, RINGS_AT) != 1 {
        return Err(fault(RINGS_AT));
    }
    let needed = HEAD_BYTES + POINT_BYTES * points(f) as usize;
    unless(is_number_of_points(points(f)), fault(POINTS_AT))?;
    unless(f.len() == needed, fault(0))
}

// The m coordinates of a file, in its order.
fn numbers(f: &[u8], m: usize) -> Result<(), Refusal>
    requires { (head_bytes + number_bytes * m ≤ length f.now) × (m ≤ 2 * points_most) }
    ensures { tested result ≡ numbers_check (order_in f.now) m head_bytes (drop head_bytes f.now) }
{
    for j in 0..m {
        let at = HEAD_BYTES + NUMBER_BYTES * j;
        if !is_coordinate(number(f, at)) {
            return Err(fault(at));
        }
    }
    Ok(())
}

// The closing point of a file with n other points: that it equals the first as numbers.
#[tactic(auto, unfolding(wkb_layout::specs::Faults::closes))]
fn closing(f: &[u8], n: usize) -> Result<(), Refusal>
    requires { (n ≡ open_vertices f.now) × (n < points_most) × (closing_at f.now + point_bytes ≤ length f.now) }
    ensures { tested result ≡ wkb_fault (closes f.now) (closing_at f.now) }
{
    let last = HEAD_BYTES + POINT_BYTES * n;
    let x = number(f, HEAD_BYTES) == number(f, last);
    let y = number(f, HEAD_BYTES + NUMBER_BYTES) == number(f, last + NUMBER_BYTES);
    unless(x && y, fault(last))
}

// All checks of a file.
#[tactic(auto, using(refusals::proofs::Tests::refused, crate::proofs::Checked::check_is))]
fn check(f: &[u8]) -> Result<(), Refusal>
    ensures { tested result ≡ wkb_check f.now }
{
    head(f)?;
    let n = points(f) as usize;
    numbers(f, 2 * n)?;
    closing(f, n - 1)
}

// What refuses the reader, for a room of so many numbers.
#[tactic(auto, using(refusals::proofs::Tests::refused), unfolding(wkb_layout::specs::Reader::read_wkb_refusal))]
pub fn refusal(f: &[u8], room: usize) -> Result<(), Refusal>
    ensures { tested result ≡ read_wkb_refusal f.now room }
{
    check(f)?;
    let n = points(f) as usize;
    short(2 * (n - 1), room)
}
