//! The tests of feed_edit and text_copy.
mod older;
mod places;
mod refusals;
mod replacing;
mod reporting;
mod rooms;
