//! A copy in paragraphs and words, and the words of a paragraph in lines.
//!
//! Each line takes as many words as fit, as an operator at the keyboard sets it: line by line, and with no look ahead.
#![tactic(auto)]

pub mod groups;
pub mod laws;
pub mod words;

pub use groups::{Group, break_lines};
pub use words::{Paragraph, Word, paragraphs};
