//! The tests of view_picture and view_pages.
mod documents;
mod feeds;
mod galleys;
mod pictures;
