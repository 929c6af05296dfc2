//! The tests of the sorts of view_punch.
mod reporting;
mod rooms;
mod sorts;
mod words;
