// The multiplier loop as a run that asks and answers: document 01, "One outer iteration". By value, and in place, where the board is lent. A run that no
// start made is answered as one that has ended.
#![tactic(auto)]

pub mod answering;
pub mod showing;
pub mod starting;
pub mod waiting;
