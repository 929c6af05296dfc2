//! The tests of desk_script.
mod sheets;
mod stored_sheets;
