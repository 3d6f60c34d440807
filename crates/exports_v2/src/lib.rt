// The library of version 2 for Rust and C: its images and streams. Each function is exported under its plain name, takes any input, and answers
// what the libraries answer. A slice is a pointer and a length, a reference to a number or to an array a pointer.
// Kept: a function for each version beside the same of the other: C calls each by its name.
#![tactic(auto)]

pub mod images;
pub mod streams;
