// The vectors of a run by number, in the order in which they lie on its board: place i of vector j is place 64 × j + i.

// Of both: the point, the multipliers.
pub const U: usize = 0;

pub const Y: usize = 1;

// Of psi: F1 + y / max(c, 1), and a copy of the last vector answered.
pub const T: usize = 2;

pub const WORK: usize = 3;

// Of d_psi: the gradient so far, F1 + y / c, what a product is taken with, and a copy of the last vector answered, but the gradient and F2.
pub const GRADIENT: usize = 2;

pub const D_T: usize = 3;

pub const D: usize = 4;

pub const D_WORK: usize = 5;
