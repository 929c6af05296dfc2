//! Files by name, a file that is replaced as a whole, a reader that is read to its end, and files in memory for tests.
//!
//! `store_over` stores a file over one of its own kind alone. It knows a kind by the first bytes. A name under
//! which nothing stands, or an empty file, is free; a file of another kind is replaced only where the caller asks.
#![tactic(auto)]

mod files;
mod input;
mod kinds;
mod output_fault;
pub mod output_laws;
mod outputs;
mod storing;
pub mod trial;

pub use files::{FileRefusal, Files, MAX_FILE, NoFiles};
pub use input::{ReaderFault, read_whole};
pub use kinds::{Kind, document_head, kind_of};
pub use output_fault::OutputFault;
pub use outputs::{Target, store_over};
pub use storing::store;

#[cfg(test)]
mod tests;
