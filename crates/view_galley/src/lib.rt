//! The galley: the lines of a copy as values, before any of them is cast.
//!
//! Each line says where its words stand, what it is set by, and why it can't be set, if so. The lines are those of the
//! job, so that what is seen here is what would be cast. No command of the program runs `matrices`.
//!
//! It refuses for the settings, the case, the wedge or memory alone. A symbol that the case lacks and a line at fault
//! are part of the galley.
#![tactic(auto)]

mod galley;
pub mod laws;
mod line;
mod punches;
mod svg;

pub use galley::{Galley, GalleyRefusal, make_galley};
pub use line::{Line, Next};
pub use punches::matrices;
pub use svg::{put_attribute, put_escaped, put_hundredths, put_number, text_end};
