// Where a recovery stops.
ghost use Rattle.std.specs.Prelude.{◌<◌};

// Where recovery stopped: the number of the write that was refused and the line of its record, or 23 and line 0 for a log that is not good. The number
// is that of a refusal, so that a recovery that came to its end is `Ok`.
// Kept: `number` is the one in the guard's answer to the write (`guard::Answer`): a `Refusal` would be made of it here, and a number again for `recovery_answer`.
#[derive(Clone, Copy)]
pub struct Stopped {
    pub number: u8,
    pub line: u8,
    pub ghost refused: { 0 < number },
}
