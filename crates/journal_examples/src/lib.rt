#![tactic(auto)]
// Worked examples of journals (document 02, E1) that are theorems: no code. What is claimed is in specs/, the proofs are in proofs/.
