//! What a preview is made of, what is tried of its settings, and its galley as text.
//!
//! A job is a version of a stored feed, or the text of a file, with a case and a wedge. The feed or the text is read,
//! then the case, then the wedge; each file must be there. It takes no name: a store is a rename, so it reads a whole
//! feed. A proof refuses only for these.
//!
//! A text is read as `text_copy` reads it, with marks or plain: at most 8,388,608 bytes and 1,048,576 symbols. It has
//! no faults of its copy, and no settings but the numbers of the case and the wedge.
//!
//! `trial` has settings that are tried in place of those of a copy, each a text KEY=VALUE as `loose=200`. Nothing of
//! them is stored.
//!
//! A proof is a galley as `view_proof` writes it, or each fault on one line behind its place in the text, for editors.
//! Below come second looks, where they are asked for. A second look is no fault: two spaces in a row, a word twice,
//! three lines that end alike and the like are seldom meant, and a person decides.
#![tactic(auto)]

mod fault;
mod job;
mod located_faults;
pub mod look_laws;
mod look_lines;
mod looks;
mod manner;
mod matter;
pub mod place_laws;
mod places;
mod proofing;
mod sources;
mod taking;
mod texts;
mod trial;
pub mod trial_laws;
mod written;

pub use fault::{PreviewFault, SourcesFault};
pub use job::{Job, Source};
pub use located_faults::{Located, put_located, put_located_no_galley};
pub use look_lines::{put_located_looks, put_looks};
pub use manner::{Form, Manner};
pub use matter::{Matter, Unset};
pub use places::places_in;
pub use proofing::proof_job;
pub use sources::{Sources, take_in};
pub use taking::take_job;
pub use trial::{TrialFault, no_trial, trial_of, tried};
