// psi and d_psi, the penalty functions of the multiplier loop, as runs that ask and answer.
#![tactic(auto)]

pub mod d_psi;
pub mod d_psi_answers;
pub mod points;
pub mod psi;
pub mod psi_answers;
pub mod records;
pub mod starting;
pub mod terms;
pub mod vectors;
pub mod waits;
