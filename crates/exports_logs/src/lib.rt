// The library of logs for Rust and C: a desk's redo log, recovery, the steps of a transaction and the history engine. Each function is exported under its plain name, takes any
// input, and answers what the libraries answer. A slice is a pointer and a length, a reference to a number or to an array a pointer.
#![tactic(auto)]

pub mod histories;
pub mod log;
pub mod steps;
