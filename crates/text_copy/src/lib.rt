//! A copy as text: written in UTF-8 with marks for its styles, read again, changed and searched.
//!
//! What is written is one text for each copy, and is read as that copy again. What is read may be any text with its
//! marks in order, from any editor; the first fault is reported by its line and column. `changes` makes one copy
//! another, by no more changes than both have symbols between what they begin and end with alike. `places_of` finds
//! the places at which a text stands.
#![tactic(auto)]

mod change_search;
mod ends;
mod fault;
mod laws;
mod making;
mod marks;
mod place_laws;
mod places;
mod plain;
mod reader;
mod reporting;
mod writing;

pub use fault::{Cause, Place, TextFault};
pub use laws::{
    plain_is_read_again, reading_goes_by_grammar, text_is_read_again, what_is_shown_is_plain,
};
pub use making::{Change, changes};
pub use place_laws::all_places_are_found;
pub use places::places_of;
pub use plain::{all_shown, is_directional, put_directional_name, put_plain};
pub use reader::read_text;
pub use reporting::reported_places;
pub use writing::{put_quoted, put_turn, write_text};
