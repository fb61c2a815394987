// The multiplier loop for C: its small part as the fields of a struct that C holds, that of its inner solve among them, what they stand for, and what an
// answer puts into them. What a call tells stands in the inner solve's fields, for the loop too: a question of the inner solve is then told as that has told
// it.
#![tactic(auto)]

pub mod answering;
pub mod calls;
pub mod fields;
pub mod keeping;
pub mod numbers;
