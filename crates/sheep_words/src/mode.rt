//! What the words of the command line ask for.

ghost use Rattle.std.specs.Prelude.{◌≡◌, IfOk};
ghost use Rattle.sheep_words.specs.Mode.{mode_asked_for};

use crate::command::command;
use crate::found::mode_found;
use crate::meaning::mode_meant;
use clap::error::ErrorKind;
use object_id::NoMemory;
use std::alloc::Global;

/// What the program is asked to do.
#[derive(Clone, Copy, Debug, PartialEq, Eq)]
pub enum Mode {
    /// Run a script in an order that the seed chooses, and print the order too if a trace is wanted.
    Run { seed: u64, trace: bool },
    /// Run a script in the order that the trace behind it gives.
    Replay,
    /// Run the script that a number generates, and print one line about it.
    Gen { number: u64 },
    /// Run a script on threads, and print the order that came about too if a trace is wanted.
    Live { trace: bool },
}

/// The mode that the words of the command line ask for, without the program's name; `None` exactly where they
/// aren't accepted. `clap` reads them, and takes more than is accepted.
pub fn mode_of(alloc: Global, words: &[String]) -> Result<Option<Mode>, NoMemory>
    ensures { IfOk result (λ mode. mode ≡ mode_asked_for words.now) }
{
    let Ok(command) = command(alloc) else {
        return Err(NoMemory);
    };
    let matches = command.try_get_matches_from(words);
    match matches {
        Ok(matches) => {
            if mode_meant(words).is_some() {
                Ok(mode_found(&matches))
            } else {
                Ok(None)
            }
        }
        Err(error) => {
            if error.kind() == ErrorKind::OutOfMemory {
                Err(NoMemory)
            } else {
                Ok(None)
            }
        }
    }
}
