//! Files of the machine: a feed's name held for one run alone, files stored whole and durably, and why the system would
//! not; and how far a run is, reported where standard error is a terminal, as bytes are read and written, once a second
//! at most.
#![tactic(auto)]

mod hold;
mod host;
mod plain;
mod progress;
mod prompted;
mod trouble;

pub use host::HostFiles;
pub use plain::Plain;
pub use progress::{Progress, Step, Watched};
pub use prompted::Prompted;
pub use trouble::Explains;
