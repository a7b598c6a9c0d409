// A command that has a place among the banks.
ghost use Rattle.std.specs.Prelude.{◌<◌};

use timing::rules::Command;

// Its bank is one of the sixteen.
#[derive(Clone, Copy)]
pub struct Placed {
    pub command: Command,
    ghost bank_low: { command.bank < 16 },
}
