#![tactic(auto)]
// Consistent sets of checkpoints, the line, and the laws of a search that steps back: no code. Definitions and statements
// are in specs/, proofs in proofs/.
