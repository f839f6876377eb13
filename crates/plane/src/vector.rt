// Vectors: dot and cross product, length, distance, unit vector, the turn of three points, a point moved in a direction.
ghost use Rattle.std.specs.Prelude.{◌≡◌};
ghost use Rattle.plane.specs.Vector.{minus_of, plus_of, same_of, dot_of, cross_of, length_of, distance_of, normalize_of};
ghost use Rattle.plane.specs.Vector.{parallel_of, turn_of, ahead_of};

use crate::Point;

// a - b
pub fn minus(a: Point, b: Point) -> Point
    ensures { result ≡ minus_of a b }
{
    Point {
        x: a.x - b.x,
        y: a.y - b.y,
    }
}

// a + b
pub fn plus(a: Point, b: Point) -> Point
    ensures { result ≡ plus_of a b }
{
    Point {
        x: a.x + b.x,
        y: a.y + b.y,
    }
}

// Whether two points are equal as numbers.
pub fn same(a: Point, b: Point) -> bool
    ensures { result ≡ same_of a b }
{
    a.x == b.x && a.y == b.y
}

// The dot product.
pub fn dot(a: Point, b: Point) -> f64
    ensures { result ≡ dot_of a b }
{
    a.x * b.x + a.y * b.y
}

// The cross product's z.
pub fn cross(a: Point, b: Point) -> f64
    ensures { result ≡ cross_of a b }
{
    a.x * b.y - a.y * b.x
}

// The length of a vector.
pub fn length(v: Point) -> f64
    ensures { result ≡ length_of v }
{
    square_root::sqrt(dot(v, v))
}

// The distance of two points.
pub fn distance(a: Point, b: Point) -> f64
    ensures { result ≡ distance_of a b }
{
    length(minus(b, a))
}

// The vector divided by its length, or (0, 0) where that is below 1e-10.
pub fn normalize(v: Point) -> Point
    ensures { result ≡ normalize_of v }
{
    let len = length(v);
    if len < 1e-10 {
        Point { x: 0.0, y: 0.0 }
    } else {
        Point {
            x: v.x / len,
            y: v.y / len,
        }
    }
}

// Whether two edges are parallel. An edge of length zero is parallel to none.
pub fn edges_parallel(e1: Point, e2: Point) -> bool
    ensures { result ≡ parallel_of e1 e2 }
{
    scalar::abs(cross(e1, e2)) < 1e-10 * length(e1) * length(e2)
}

// The turn of a, b, c: above zero where it is counter-clockwise, below where it is clockwise, else collinear.
pub fn turn(a: Point, b: Point, c: Point) -> f64
    ensures { result ≡ turn_of a b c }
{
    cross(minus(b, a), minus(c, a))
}

// So far from a point in a direction.
pub fn ahead(at: Point, dir: Point, far: f64) -> Point
    ensures { result ≡ ahead_of at dir far }
{
    Point {
        x: at.x + dir.x * far,
        y: at.y + dir.y * far,
    }
}
