#![tactic(auto)]
// Sessions of document 01's examples, and a real book that demand 3 speaks of: no code.
