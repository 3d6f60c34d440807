// The library for Rust and C, of what has no version: the lock queue, what a desk knows, proposes and shows, and structured texts. Each function is exported under its plain name,
// takes any input, and answers what the libraries answer. A slice is a pointer and a length, a reference to a number or to an array a pointer.
#![tactic(auto)]

pub mod agree;
pub mod desks;
pub mod inner;
pub mod queues;
pub mod shown;
