#![tactic(auto)]

// Runs as records, over any format, and what each answer leaves of them: see specs/.
