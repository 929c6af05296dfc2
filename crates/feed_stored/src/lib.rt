//! A feed that is stored in a file: read, opened as a replica, and stored anew where it changed.
//!
//! It also writes bytes whole, or reports that they are not written. It refuses bytes that are no feed, with their
//! first fault, and a feed of more than 1,048,576 different operations.
//!
//! `FEED.last` stands beside FEED, one line for each site that has run in this room: the greatest counter that it has
//! stored, as `site 1 785`. It is written after the feed. A feed that holds less of a site is older than what was made
//! here: a backup, or an earlier version. Where the file is missing, or is no such text, it guards nothing.
#![tactic(auto)]

mod fault;
mod greatest;
mod last;
mod last_fault;
pub mod laws;
mod room;
mod sending;
mod stored;
mod text;

pub use fault::OpenFault;
pub use greatest::greatest_in;
pub use last::{check_last, note_last};
pub use last_fault::LastFault;
pub use room::{is_compared, let_in, mark};
pub use sending::{Unsent, let_out, send, write_out};
pub use stored::{keep_replica, open_replica, operations_in, stored_bytes};
