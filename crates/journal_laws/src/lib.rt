#![tactic(auto)]
// Laws of journals (document 02, E1): no code. The statements are in specs/, the proofs in proofs/.
