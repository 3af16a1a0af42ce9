#![tactic(auto)]
// The room that demand 3 asks for is needed, for every number of processes: no code.
