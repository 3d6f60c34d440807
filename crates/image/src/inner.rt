// What other crates need, and what asks something of its caller.
pub mod convert;
pub mod fresh;
pub mod layout;
pub mod read;
pub mod rules;
pub mod write;
