//! What a stored feed remembers: its sites, and its corrections.
//!
//! `report_rooms` writes for each site what it made and what the copy shows of it. `report_log` writes a line for each
//! correction: a longest row of operations of one site whose counters follow one another. The line has its stamps,
//! where it is in the present copy, what it inserted and deleted, the settings it made, and its copy faults.
//!
//! Both read a feed, take no name and change no file: a store is a rename, so they read a whole feed.
#![tactic(auto)]

mod asked;
mod corrections;
mod line_parts;
mod lines;
mod log;
mod log_laws;
mod rooms;
mod rooms_laws;
mod rooms_made;
mod spots;
mod stamped;
mod taken;
mod texts;

pub use asked::Asked;
pub use log::report_log;
pub use log_laws::{corrections_part_sets, worked_log};
pub use rooms::report_rooms;
pub use rooms_laws::{lines_are_of_these, lines_count_each_once, spans_are_between};
