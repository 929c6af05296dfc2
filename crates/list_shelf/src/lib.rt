//! Pages of a long list, in frames of one piece of memory that grows.
//!
//! A frame has room for 256 entries. A page is so many of a frame, from any place of it on, so that an entry that is
//! put into a page, or taken out of it, moves those before it or those behind it: the fewer, where there is room on
//! that side. A frame which no page has needed yet is not touched, and opening a page asks for no memory that was not
//! promised.
#![tactic(auto)]

mod frame;
mod shelf;
mod summary;

pub use shelf::Shelf;
pub use summary::{FULL, HALF, Summary};
