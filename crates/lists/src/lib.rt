#![tactic(auto)]
// What is about lists, numbers below a bound and tests alone: no code. Definitions are in specs/, laws in proofs/.
