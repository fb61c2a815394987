// The board: the vectors of a run in one flat array, place i of vector j at 64 × j + i, and what is worked out on them. It is lent as a slice, so
// that a loop lends its board of twelve vectors to its inner solve as it is, which has the first nine. Sums run from place 0.
// That a board has the places and that n ≤ 64 are clauses: n comes as a number of C, and a type of such counts would be made of it at each
// call, by the same proof.
#![tactic(auto)]

pub mod copies;
pub mod multipliers;
pub mod points;
pub mod sums;

// The vectors, in the order in which they lie: of an inner solve
pub const U: usize = 0;

pub const PLUS: usize = 1;

pub const GRADIENT: usize = 2;

pub const PREVIOUS: usize = 3;

pub const STEP: usize = 4;

pub const HALF: usize = 5;

pub const FPR: usize = 6;

pub const DIRECTION: usize = 7;

pub const BEST: usize = 8;

// and besides of a loop
pub const Y: usize = 9;

pub const Y_PLUS: usize = 10;

pub const F1: usize = 11;
