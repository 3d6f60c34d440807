// What other crates need, and what asks something of its caller.
pub mod lengths;
