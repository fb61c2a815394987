#![tactic(auto)]

// Floats by IEEE 754 that `lib.Ieee` lacks: definitions and laws, all of them in specs/.
