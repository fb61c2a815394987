// What a start tests, its sizes and the numbers of its settings, and what it takes out of the lent xi.
#![tactic(auto)]

pub mod multipliers;
pub mod numbers;
pub mod sizes;
