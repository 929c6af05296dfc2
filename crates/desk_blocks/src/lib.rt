//! The elements of a copy in pages, found by place, by what is shown, and by stamp.
//!
//! Each group of pages keeps how many of its elements are shown and a stamp that none is smaller than, and so does each
//! page: a place among those that are shown, and the skip scan of RGA (`desk_seq`), pass by most of a long copy.
#![tactic(auto)]

mod blocks;
mod index;
mod slot;
mod tally;

pub use blocks::Blocks;
