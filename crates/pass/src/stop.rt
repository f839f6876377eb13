// Why a trace stops, as a number. The first four end a pass, the fifth the run.

// No contact is left, and none was recovered.
pub const NO_CONTACT: u32 = 1;

// No vector is left, and no interlocking position.
pub const NO_VECTOR: u32 = 2;

// The vector is shorter than the smallest move.
pub const SHORT_MOVE: u32 = 3;

// The path is closed.
pub const CLOSED: u32 = 4;

// All passes are used up.
pub const PASSES: u32 = 5;
