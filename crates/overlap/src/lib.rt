// Whether two polygons overlap, by separating axes: `polygons_overlap_with_tolerance` of `nfp_sliding.rs`, and the bounding box.
#![tactic(auto)]

pub mod calls;

ghost use Rattle.std.specs.Prelude.{◌≡◌, ◌<◌};
ghost use Rattle.ring.specs.Ring.{count};
ghost use Rattle.overlap.specs.Extent.{wider_of, apart_of, box_of, shadow_of};
ghost use Rattle.overlap.specs.Overlap.{edge_of, axis_of, no_axis, meets_on, meets_along, boxes_apart, overlap_of};

use plane::Point;
use plane::vector::{dot, minus, normalize};
use ring::{next, point_at};
use scalar::{abs, larger, smaller};

// The least and the greatest of some numbers.
#[derive(Clone, Copy)]
pub struct Extent {
    pub min: f64,
    pub max: f64,
}

// The bounding box of a polygon.
#[derive(Clone, Copy)]
pub struct Bounds {
    pub x: Extent,
    pub y: Extent,
}

// The extent with one number more.
fn wider(e: Extent, v: f64) -> Extent
    ensures { result ≡ wider_of e v }
{
    Extent {
        min: smaller(e.min, v),
        max: larger(e.max, v),
    }
}

// Whether one extent ends more than the tolerance before the other begins.
fn apart(a: Extent, b: Extent, tolerance: f64) -> bool
    ensures { result ≡ apart_of a b tolerance }
{
    if a.max + tolerance < b.min {
        true
    } else {
        b.max + tolerance < a.min
    }
}

// The bounding box of a polygon.
pub fn compute_bbox(polygon: &[f64]) -> Bounds
    ensures { result ≡ box_of polygon.now }
{
    let n = polygon.len() / 2;
    let mut x = Extent {
        min: 1.0 / 0.0,
        max: -1.0 / 0.0,
    };
    let mut y = x;
    for i in 0..n {
        let p = point_at(polygon, i);
        x = wider(x, p.x);
        y = wider(y, p.y);
    }
    Bounds { x, y }
}

// The extent of a polygon along an axis.
fn project_polygon_on_axis(polygon: &[f64], axis: Point) -> Extent
    ensures { result ≡ shadow_of polygon.now axis }
{
    let n = polygon.len() / 2;
    let mut e = Extent {
        min: 1.0 / 0.0,
        max: -1.0 / 0.0,
    };
    for i in 0..n {
        e = wider(e, dot(point_at(polygon, i), axis));
    }
    e
}

// The edge from vertex i.
pub fn edge_vector(polygon: &[f64], i: usize) -> Point
    requires { i < count polygon.now }
    ensures { result ≡ edge_of polygon.now i }
{
    let p = point_at(polygon, i);
    let q = point_at(polygon, next(i, polygon.len() / 2));
    minus(q, p)
}

// The normal to the edge i.
fn axis_of(polygon: &[f64], i: usize) -> Point
    requires { i < count polygon.now }
    ensures { result ≡ axis_of polygon.now i }
{
    let edge = edge_vector(polygon, i);
    normalize(Point {
        x: -edge.y,
        y: edge.x,
    })
}

// Whether an axis is that of an edge with no length.
fn is_no_axis(axis: Point) -> bool
    ensures { result ≡ no_axis axis }
{
    if abs(axis.x) < 1e-10 {
        abs(axis.y) < 1e-10
    } else {
        false
    }
}

// Whether an axis is none, or the two polygons are not apart on it.
fn meets_on(a: &[f64], b: &[f64], axis: Point, tolerance: f64) -> bool
    ensures { result ≡ meets_on a.now b.now axis tolerance }
{
    if is_no_axis(axis) {
        return true;
    }
    let e = project_polygon_on_axis(a, axis);
    let f = project_polygon_on_axis(b, axis);
    !apart(e, f, tolerance)
}

// Whether the two polygons meet on the normal to each edge of a third.
fn meets_along(a: &[f64], b: &[f64], edges: &[f64], tolerance: f64) -> bool
    ensures { result ≡ meets_along a.now b.now edges.now tolerance }
{
    let n = edges.len() / 2;
    for i in 0..n {
        if !meets_on(a, b, axis_of(edges, i), tolerance) {
            return false;
        }
    }
    true
}

// Whether the bounding boxes are apart.
fn boxes_apart(a: &[f64], b: &[f64], tolerance: f64) -> bool
    ensures { result ≡ boxes_apart a.now b.now tolerance }
{
    let p = compute_bbox(a);
    let q = compute_bbox(b);
    if apart(p.x, q.x, tolerance) {
        true
    } else {
        apart(p.y, q.y, tolerance)
    }
}

// Whether two polygons overlap: their boxes are not apart, and neither are they on the normal to an edge of either.
pub fn polygons_overlap(a: &[f64], b: &[f64], tolerance: f64) -> bool
    ensures { result ≡ overlap_of a.now b.now tolerance }
{
    if boxes_apart(a, b, tolerance) {
        return false;
    }
    if meets_along(a, b, a, tolerance) {
        meets_along(a, b, b, tolerance)
    } else {
        false
    }
}
