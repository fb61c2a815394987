// The client's claim for every list of calls: its statements are in specs/, its theorems in proofs/.
#![tactic(auto)]
