//! A galley as a picture in SVG: each matrix in its own width in the frame of the measure, each fault beside its line.
//!
//! A place is in hundredths of a point, rounded down from the exact sum of the atoms before it, so no error adds up.
//! The frame begins 100 points from the left, and 270 points at the right are for causes. Lines are as far apart as the
//! set of the wedge and 4 points.
//!
//! Characters go from left to right as in the copy, in the reader's own fonts, and none joins the next. Those that XML
//! does not allow are U+FFFD.
//!
//! It refuses a target that holds a file of another kind, unless the caller forces it. No law says that the whole is
//! well-formed XML; tests/pictures.py parses it.
#![tactic(auto)]

mod boxes;
mod heads;
pub mod laws;
mod letters;
mod lines;
pub mod paper;
mod picture;
mod picturing;
mod places;
mod widths;
mod words;

pub use heads::{head_y, put_lacking_of};
pub use letters::{Dress, dress_of};
pub use lines::{beside, put_line_at, put_text_at};
pub use picture::{
    frame_height, looks, page_width, paper_of, put_frame, put_no_galley_picture, put_picture,
    put_size, put_why_words,
};
pub use picturing::picture_job;
pub use widths::drawn_space;
