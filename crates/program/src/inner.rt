// What other crates need, and what asks something of its caller.
pub mod lines;
pub mod output;
pub mod run;
pub mod text;
