//! A stored feed and who works on it.

/// A stored feed that a room works on.
#[derive(Clone, Copy)]
pub struct Room<'a> {
    /// The name of the feed's file.
    pub feed: &'a str,
    /// The site that works on it.
    pub site: u16,
    /// Whether the feed may hold less of the site than this room has made there.
    pub older: bool,
}
