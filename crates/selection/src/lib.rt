// Which way to slide: the score of a translation vector, and the first of the greatest: `select_translation_vector` of `nfp_sliding.rs`.
#![tactic(auto)]

pub mod calls;

ghost use Rattle.std.specs.Prelude.{◌≡◌, ◌+◌, ◌*◌, ◌<◌, length};
ghost use Rattle.selection.specs.Score.{preferred_of, continued_of, score_of};
ghost use Rattle.selection.specs.Select.{vector_at, kept_score, unscored, select_of};

use plane::Point;
use plane::vector::{dot, minus, normalize};
use vectors::TranslationVector;

// A vector by its index, and its score.
#[derive(Clone, Copy)]
pub struct Scored {
    pub index: usize,
    pub score: f64,
}

// The direction of a counter-clockwise turn about the centroid.
pub fn preferred(centroid: Point, position: Point) -> Point
    ensures { result ≡ preferred_of centroid position }
{
    let radial = normalize(minus(position, centroid));
    Point {
        x: -radial.y,
        y: radial.x,
    }
}

// A score with the bonus for going on in the direction of the slide before, where there was one.
#[tactic(auto, unfolding(crate::specs::Score::continued_of))]
pub fn continued(score: f64, direction: Point, previous: Option<Point>) -> f64
    ensures { result ≡ continued_of score direction previous }
{
    if let Some(before) = previous {
        score + 0.5 * dot(direction, before)
    } else {
        score
    }
}

// The score of a vector, by the preferred direction and the one before. A vector shorter than 1e-6 pays 100.
pub fn score(vector: TranslationVector, previous: Option<Point>, ccw: Point) -> f64
    ensures { result ≡ score_of vector previous ccw }
{
    let s = continued(dot(vector.direction, ccw), vector.direction, previous);
    if vector.distance < 1e-6 { s - 100.0 } else { s }
}

// Vector i of a list that has three numbers for each: the direction's x and y, and the distance.
fn vector_at(vectors: &[f64], i: usize) -> TranslationVector
    requires { 3 * i + 2 < length vectors.now }
    ensures { result ≡ vector_at vectors.now i }
{
    let direction = Point {
        x: vectors[3 * i],
        y: vectors[3 * i + 1],
    };
    TranslationVector {
        direction,
        distance: vectors[3 * i + 2],
    }
}

// What is chosen before any vector is scored: index 0, with a score of -infinity.
pub fn start() -> Scored
    ensures { result ≡ unscored }
{
    Scored {
        index: 0,
        score: -1.0 / 0.0,
    }
}

// Of the best so far and a new one: only a strictly greater score replaces.
pub fn keep(best: Scored, new: Scored) -> Scored
    ensures { result ≡ kept_score best new }
{
    if new.score > best.score { new } else { best }
}

// The index of the first of the greatest scores, 0 where none is above -infinity.
pub fn select(vectors: &[f64], previous: Option<Point>, ccw: Point) -> usize
    ensures { result ≡ select_of vectors.now previous ccw }
{
    let n = vectors.len() / 3;
    let mut best = start();
    for i in 0..n {
        let s = score(vector_at(vectors, i), previous, ccw);
        best = keep(best, Scored { index: i, score: s });
    }
    best.index
}
