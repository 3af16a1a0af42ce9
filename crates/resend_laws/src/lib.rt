#![tactic(auto)]
// Laws of lists of what to send again (document 02, E5): no code. The statements are in specs/, the proofs in proofs/.
