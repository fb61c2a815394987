// Whole runs: a function for each kind of run starts one and feeds it a lent list of answers, whatever they are; its contract is the claim for that list.
#![tactic(auto)]

pub mod answers;
pub mod inner_solve;
pub mod multiplier_loop;
pub mod penalty;
