//! The tests of feed_files.
mod kinds;
mod storing;
