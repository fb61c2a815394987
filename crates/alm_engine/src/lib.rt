// The multiplier loop: its records, its tests, and what each answer leaves of a run. The small part of a run comes in by value, and what an answer changes
// of it goes back by value; only the board is lent. An outer iteration asks and answers through panoc_engine. The public calls are in alm.
#![tactic(auto)]

pub mod alm_cache;
pub mod answers;
pub mod criteria;
pub mod inner_solves;
pub mod keeping;
pub mod last_cost;
pub mod mappings;
pub mod outer_iterations;
pub mod weighing;
