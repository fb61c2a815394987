// The inner solve for C: its small part as the fields of a struct that C holds, what they stand for, and what an answer puts into them. A number of an enum
// is exact: what C reads goes out by an encoder, with a case for each; what C writes is decoded, and every number has a meaning. A struct of the loop holds
// the same fields.
#![tactic(auto)]

pub mod answering;
pub mod calls;
pub mod fields;
pub mod keeping;
pub mod numbers;
