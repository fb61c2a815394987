// The multiplier loop's calls for C, over a struct that C holds; a number and a vector have quick ways in objects of their own. An answer that the table
// refuses by 6 to 8 writes nothing, and the question that stands is read at any time.
#![tactic(auto)]

pub mod answer;
pub mod points;
pub mod start;
