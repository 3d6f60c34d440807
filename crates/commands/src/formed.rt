// A command that keeps its rules, as the parse and the guard hand it on.
ghost use Rattle.std.specs.Prelude.{◌≡◌, true};
ghost use Rattle.commands.specs.Command.{update, well_formed};

use crate::Command;
use stamps::Pair;

// A well-formed command, and its update pair beside it: to choose that again costs each time that it is asked for.
#[derive(Clone, Copy)]
pub struct Formed {
    pub command: Command,
    pub pair: Pair,
    pub ghost by_rules: { well_formed command ≡ true },
    pub ghost of_command: { pair ≡ update command },
}
