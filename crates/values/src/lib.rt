// Runs by value for C, to be timed by bench/c/values.c: an export starts a run and gives it a list of answers, whatever they are, or copies the points of
// its first question. What C sees is said by the machine's runs.
#![tactic(auto)]

pub mod answers;
pub mod d_psi;
pub mod inner_solve;
pub mod multiplier_loop;
pub mod psi;
pub mod task;
