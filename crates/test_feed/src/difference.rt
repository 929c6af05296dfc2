//! The tests of feed_sites.
mod operations;
mod refusals;
mod rooms;
mod words;
