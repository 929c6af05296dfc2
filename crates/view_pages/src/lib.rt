//! A galley as a document in HTML, for any browser, to be read and printed: first what is wrong with the copy and the
//! galley, and then its lines, page by page.
//!
//! Each page is a picture as `view_picture` draws it, in SVG inside the document. It has as many lines as fit, one at
//! least. A line is linked to by its number. Thin rules show where one matrix of a word ends and the next begins.
//!
//! It is XHTML, and has no script and no outside file. Characters that XML does not allow are U+FFFD. No law says that
//! the whole is well-formed; tests/pages.py parses it.
//!
//! It refuses a target that holds a file of another kind, unless the caller forces it.
#![tactic(auto)]

mod alone;
mod document;
mod documenting;
pub mod laws;
mod layouts;
mod lists;
mod names;
mod numbering;
mod pages;
mod report;
mod rules;
mod screen;
mod table;
mod tags;
mod ways;

pub use documenting::document_job;
pub use numbering::pages_job;
