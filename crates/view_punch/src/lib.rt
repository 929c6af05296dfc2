//! What one sees of a stored feed before it is cast: its ribbon in a file, its faults, its sorts, or the places of a
//! text. One ribbon has the galleys of several feeds too.
//!
//! What it reads must be there. It takes no name: a store is a rename, so it reads a whole feed.
//!
//! A punch refuses a copy with faults, since a correction is not in it, unless the caller lets them through. It refuses
//! a job with faults. It refuses a target that holds a file of another kind, unless the caller forces it.
//!
//! A list of sorts reads no wedge: what a copy needs, and what a case holds, as values and as text. A sort is a symbol
//! of a style. The space is one, and the line feed is none. Fills are not counted, since their number depends on the
//! lines that are set. Places count from 0. A missing sort has all its places, and the text around the first: up to 24
//! symbols on each side.
//!
//! Steps are as many as the symbols times the logarithm of the number of sorts; no clause says so. A wide character, or
//! a directional mark by its code, shifts its line of the table.
#![tactic(auto)]

mod cells;
mod fault;
mod finding;
mod job_line;
mod joining;
pub mod laws;
mod layout;
mod listing;
mod making;
mod places;
mod punching;
mod reported;
mod reporting;
mod sorts;
mod sorts_laws;
mod sorts_sources;

pub use finding::{Wanted, find_text};
pub use layout::put_case;
pub use listing::{missing_of, put_sorts};
pub use punching::{Galleys, Stop, punch_feeds};
pub use reporting::report_sorts;
pub use sorts::{Sort, sorts_of};
pub use sorts_laws::places_are_all;
