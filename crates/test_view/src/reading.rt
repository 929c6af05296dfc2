//! The tests of view_ribbon.
mod reading;
pub mod rooms;
mod words;
