// Ready-made sets to project on: a box, a ball, and a table of up to 8 of them, each for the next stretch of the vector. In place, with no copy.
#![tactic(auto)]

mod ball2;
pub mod cartesian_product;
mod four;
mod rectangle;
