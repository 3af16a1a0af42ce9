#![tactic(auto)]
// The worked examples of document 01 that are theorems: no code. What is claimed is in specs/, the proofs are in proofs/.
