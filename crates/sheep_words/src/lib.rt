//! The words of the program's command line, and what they ask for.
//!
//! [`mode_of`] reads them by `clap` (`command.rt`, `found.rt`), which takes more lists of words than the program does. Which lists are
//! accepted, and what each asks for, is defined apart from it (`specs/Mode.antt`), and tested by a plain function over the words
//! (`meaning.rt`). The crate stands on `object_id` for `NoMemory`. It promises the mode that is defined, or that memory ran out.
#![tactic(auto)]

mod command;
mod found;
mod meaning;
mod mode;

pub use mode::{Mode, mode_of};
