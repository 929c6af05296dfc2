//! The commands of a script: their grammar, and how a copy is read and written. The answers to them, their text, and
//! which answer each refusal of the crates below has.
//!
//! The text of a refusal, or of what a command did, has at most 95 bytes and takes no memory. The other texts have any
//! length, and fail where memory is refused.
//!
//! It also reads what a command takes from files: a case and a wedge, and the job of a copy by them. It refuses with
//! the first fault, that of the case before that of the wedge. `Memory` has the run's own allocator and the global
//! one, which the reading of a case or a wedge takes alone.
#![tactic(auto)]

mod command;
mod copy;
mod failure;
mod inputs;
mod job;
mod laws;
mod memory;
mod not_done;
mod number;
mod reader;
mod text;
mod writing;

pub use command::{Command, ParseError};
pub use failure::Failure;
pub use inputs::{both, case_in};
pub use job::{Wanted, job_by_files};
pub use laws::{copy_is_its_spelling, copy_is_read_again, runs_are_longest};
pub use memory::Memory;
pub use not_done::NotDone;
pub use reader::parse;
pub use text::{Refusal, Reply, Short, put, short};
pub use writing::put_copy;
