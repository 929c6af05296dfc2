//! The tests of view_punch and view_preview.
mod faults;
mod finding;
mod galleys;
mod located;
mod proofing;
mod punching;
mod rooms;
mod targets;
mod texts;
mod words;
