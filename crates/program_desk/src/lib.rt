//! What the words of the command line ask for, done over any files, reader and writer; its status and the lines on what
//! stopped it.
//!
//! `program_words` reads the words. `copydesk` calls `program_in_room` with the machine's files: `program`, with the
//! options that the file of the room gives. Status 0: it is done.
//! Status 1: it stopped, or what it looked at is not in order. Status 2: the words are refused. At most two lines
//! report a stop: the fault, and the file with the cause.
#![tactic(auto)]

mod by_hand;
mod causes;
mod compared;
mod completing;
mod depicting;
mod explained;
mod headlines;
mod history;
pub mod laws;
mod previews;
mod readings;
mod reporting;
mod rooms;
mod runs;
mod sheets;
mod sources;
mod texts;
mod told;
mod words;

pub use reporting::unread;
pub use rooms::program_in_room;
pub use runs::program;
