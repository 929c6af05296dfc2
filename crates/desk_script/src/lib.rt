//! Scripts: lines of commands on a world of sites, and the answers to them; one after another, or as a sheet.
//!
//! A desk is a world of sites and the files. docs/FORMATS.md has the fourteen commands, and the order of their
//! refusals. A line has at most 65,536 bytes; a longer one is refused. A refusal changes nothing, and after `stopped K`
//! the first K operations stay. A command that finds no memory is answered `refused memory` or `stopped K memory`.
//!
//! `run` begins with no site. `run_on_feed` begins with one site and its stored feed, and stores that feed once all
//! commands are answered. `run_in_room` also refuses a feed that is older than its room, unless the caller lets it in.
//! A run keeps at most 65,538 bytes of a line. It refuses a reader that 268,435,456 reads do not bring to its end.
//!
//! A sheet is read whole, has at most 67,108,864 bytes, and stores only where no line stopped it. A strict run passes
//! over empty lines and those that begin with `#`, and counts them. It stops at the first line that is answered by a
//! refusal or by `stopped`.
//!
//! No contract can say that an answer is out before more is read; tests/desks.py waits for one.
#![tactic(auto)]

mod act;
mod event;
mod fault;
mod feed_run;
mod insert;
pub mod laws;
mod line;
mod sheet;
mod sheet_fault;
mod stream;

// The names of what a script is made of stay reachable from here, used in the repository or not.
pub use fault::{RoomFault, RunFault};
pub use feed_files::{FileRefusal, Files, MAX_FILE, NoFiles, store, trial};
pub use feed_run::{Room, run_in_room, run_on_feed, run_sheet_on_feed};
pub use line::{MAX_LINE, answer};
pub use script_answers::{
    Command, Memory, ParseError, Refusal, Reply, copy_is_its_spelling, copy_is_read_again, parse,
    put, runs_are_longest,
};
pub use script_world::{Answer, Event, MAX_SITES, StepRefusal, World};
pub use sheet::{MAX_SHEET, Mode, run_sheet};
pub use sheet_fault::SheetFault;
pub use stream::{MAX_READS, run, without_cr};
