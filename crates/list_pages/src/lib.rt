//! A long list, kept in pages of at most 256 so that it grows anywhere in little time.
//!
//! It is a B+ tree of three levels: entries, pages, and groups of 32 pages, of which the upper two are plain lists. At
//! 1,048,576 entries these have 4,096 members and 128, twice as many where pages are half full, and a pass over some of
//! them costs less than the move within a page.
#![tactic(auto)]

mod groups;
mod list;
mod pages;
mod probe;
mod search;
mod starts;

pub use list::{Pages, Placed};
pub use list_shelf::{FULL, Summary};
pub use search::Pick;
