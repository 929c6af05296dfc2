//! Where a merge makes no sense: the merged copy is the three-way merge of the two copies, word by word, or the words
//! are reported.
//!
//! The copies are compared as lists of shown elements. The spaces and line feeds that all of them show part these into
//! pieces.
//!
//! It finds two hands at one word, a typo mended twice, what a fork hides, and what a delete takes from under another
//! room's words. Rooms that change different words open nothing.
//!
//! With n elements, w of them spaces and line feeds, it takes n + w log w steps; no clause says so. `report_after` can
//! read all copies off one walk, where no stamp is forked and no insert waits. `readings_of` and `report_readings`
//! always take the dearer way, by replicas. It refuses nothing, but can run out of memory.
#![tactic(auto)]

mod after;
mod copies;
mod cuts;
mod laws;
mod lines;
mod merged;
mod parts;
mod reading;
mod sides;
mod walk;

pub use after::{Before, before_of, report_after};
pub use laws::{parts_show_of_the_walk, readings_are_sound};
pub use merged::{readings_of, report_readings};
pub use reading::{Point, Reading, Shown};
pub use walk::open_readings;
