//! The words of the command line: the subcommands, and what the words ask for.
#![tactic(auto)]

mod choices;
mod commands;
mod help;
mod reading;
mod wishes;

pub use choices::{Extent, Form, Source};
pub use help::{COMMANDS, VERSION};
pub use reading::read_words;
pub use wishes::{Drawings, Galley, Manner, Ribbon, Subcommand, Wish};
