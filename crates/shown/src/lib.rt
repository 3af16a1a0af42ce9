#![tactic(auto)]
// The book that an abstract view shows, and its tables: no code. The definitions and statements are in specs/, proofs in proofs/.
