//! The consoles that a person can run.
ghost use Rattle.std.specs.Prelude.{◌≡◌};
ghost use Rattle.hpx_top.specs.Texts.{commands, mark_of, owns};

use app_console::lines::{ACCUMULATOR, SPACE};
use app_console::say::help;
use app_console::table::Console;

/// A console whose lines a person types.
#[derive(Clone, Copy, Debug, PartialEq, Eq)]
pub enum UserConsole {
    /// One accumulator, which is made before the first line.
    Accumulator,
    /// Objects of many kinds, by their names.
    Space,
}

impl UserConsole {
    /// What it prints first, and for `help`: its commands.
    pub fn commands(self) -> &'static [u8]
        ensures { result.now ≡ commands self }
    {
        match self {
            UserConsole::Accumulator => help(Console::Accumulator),
            UserConsole::Space => help(Console::Space),
        }
    }

    /// What stands before each of its lines where it is fed.
    pub fn mark(self) -> u8
        ensures { result ≡ mark_of self }
    {
        match self {
            UserConsole::Accumulator => ACCUMULATOR,
            UserConsole::Space => SPACE,
        }
    }

    /// Whether it has lines that are not fed: `hold`, `turn`, `drain`, `audit` and `counter`.
    pub fn owns(self) -> bool
        ensures { result ≡ owns self }
    {
        match self {
            UserConsole::Accumulator => false,
            UserConsole::Space => true,
        }
    }
}
