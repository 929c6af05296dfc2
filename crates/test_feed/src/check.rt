//! The tests of feed_check.
mod cases;
mod feeds;
mod files;
mod metal;
mod ribbons;
mod rooms;
mod runs;
mod wedges;
mod words;
