#![tactic(auto)]
// The static library that workers in C, C++ and Rust link: each call of recovery_line under its own name, with its clauses.
// include/recovery_line.h declares these functions; `tests/declarations` compares the two.
mod books;
mod journals;
mod lines;
mod machines;
mod moved;
mod resends;
mod sessions;
mod version;
