//! The tests of view_ribbon.
mod drawing;
mod lines;
mod rooms;
