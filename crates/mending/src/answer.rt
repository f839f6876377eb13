// What the call answers: how many vertices remain and how many were dropped.
#[derive(Clone, Copy, Debug, PartialEq, Eq)]
pub struct Sizes {
    pub vertices: usize,
    pub dropped: usize,
}
