// The corners of document 01 as theorems on the definitions, each run as the Rust plays it.
#![tactic(auto)]
