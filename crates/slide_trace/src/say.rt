// What is printed of a trace's answer: the path, or the refusal.
ghost use Rattle.std.specs.Prelude.{◌+◌, ◌*◌, ◌≤◌, length};
ghost use Rattle.print.specs.Text.{Put};
ghost use Rattle.slide_trace.specs.Lines.{heading_line, path_text, answer_text, InList};

use lines::{put_points, put_refusal};
use nfp_sliding::answer::{Trace, Untraced};
use print::{put_decimal, put_text};

// The line before the points.
fn put_heading(points: usize, passes: u64, stop: u32, out: &mut [u8]) -> usize
    requires { 100 ≤ length out.old }
    ensures { Put out.old 0 (heading_line points passes stop) out.new result × (result ≤ 100) }
{
    let a = put_text(out, 0, b"path ");
    let b = put_decimal(out, a, points as u64);
    let c = put_text(out, b, b" passes ");
    let d = put_decimal(out, c, passes);
    let e = put_text(out, d, b" stop ");
    let f = put_decimal(out, e, stop as u64);
    put_text(out, f, b"\n")
}

// The heading and the points.
fn put_path(points: usize, passes: u64, stop: u32, xs: &[f64], out: &mut [u8]) -> usize
    requires { (2 * points ≤ length xs.now) × (100 + 34 * points ≤ length out.old) }
    ensures { Put out.old 0 (path_text points passes stop xs.now) out.new result }
{
    let at = put_heading(points, passes, stop, out);
    put_points(xs, points, out, at)
}

// What a trace answered, with the points of the result at the front of a list.
pub fn put_answer(traced: Result<Trace, Untraced>, res: &[f64], out: &mut [u8]) -> usize
    requires in_list { InList traced (length res.now) }
    requires res_len_bound { (length res.now ≤ 20002) × (340200 ≤ length out.old) }
    ensures { Put out.old 0 (answer_text traced res.now) out.new result }
{
    match traced {
        Ok(trace) => put_path(trace.points, trace.passes, trace.stop, res, out),
        Err(untraced) => put_refusal(untraced.refusal(), out),
    }
}
