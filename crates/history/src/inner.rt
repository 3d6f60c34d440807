// What the engine is made of: what kept bytes say, and a command for a card that exists.
pub mod kept;
pub mod requests;
