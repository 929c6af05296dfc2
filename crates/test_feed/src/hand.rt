//! The tests of feed_edit.
mod exporting;
mod feeds;
mod forks;
mod importing;
mod merging;
mod older;
mod wipes;
mod words;
