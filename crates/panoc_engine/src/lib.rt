// The inner solve: its records, its formulas, and what each answer leaves of a run. The small part of a run comes in by value, and what an
// answer changes of it goes back by value; only the board is lent. The public calls are in panoc_optimizer.
#![tactic(auto)]

pub mod answers;
pub mod doubling;
pub mod estimate;
pub mod first;
pub mod first_move;
pub mod half_steps;
pub mod last_cost;
pub mod linesearch;
pub mod lipschitz_estimator;
pub mod outcome;
pub mod panoc_cache;
pub mod points;
pub mod refusals;
pub mod step;
