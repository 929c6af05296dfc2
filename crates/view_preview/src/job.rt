//! What a proof and a picture are made of, by name.

use feed_edit::Version;

/// What is set: a version of a stored feed, or a file whose bytes are a text.
#[derive(Clone, Copy)]
pub enum Source<'a> {
    Feed(Version<'a>),
    /// A text with marks for its styles, as `text_copy` reads it, or plain.
    Text { name: &'a str, plain: bool },
}

/// What a proof and a picture are made of: a source, and the names of a case file and of a wedge file.
#[derive(Clone, Copy)]
pub struct Job<'a> {
    pub source: Source<'a>,
    pub case: &'a str,
    pub wedge: &'a str,
}
