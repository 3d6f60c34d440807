// What other crates need, and what asks something of its caller.
pub mod answer;
pub mod effects;
pub mod rules;
pub mod state;
