//! Feeds of texts, and what a run on one leaves.

use feed_edit::{
    Exchange, ImportMode, ReplaceFault, Room, Version, Where, export_feed, import_text,
    replace_text,
};
use feed_files::trial::{TrialFiles, TrialReader};
use std::alloc::Global;
use std::test::Fail;

/// One insert, 1.3 of a Roman x.
pub const X: &[u8] = b"MFD2\x01\0\0\0\0\0\0\0\x01\0\x03\0\0\0\0\0\0\0\0\0\0\0\0\0\0x";

/// What a run wrote, how it ended, and the text of the copy after it.
#[derive(Drop)]
pub struct Left {
    pub written: Vec<u8>,
    pub ended: Result<(), ReplaceFault>,
    pub text: Vec<u8>,
}

/// Files with the feed of a text, keyed by site 3.
pub fn feed_of(alloc: Global, text: &[u8]) -> Result<TrialFiles<Global>, Fail> {
    let mut files = TrialFiles::new(alloc);
    let mut reader = TrialReader::new(text);
    let mut written = Vec::new(alloc);
    import_text(
        alloc,
        &mut reader,
        &mut written,
        &mut files,
        Room {
            feed: "a.feed",
            site: 3,
            older: false,
        },
        ImportMode {
            plain: false,
            all: false,
        },
    )?;
    Ok(files.for_next_run())
}

/// The text of the copy of a feed.
pub fn text_of(alloc: Global, files: &mut TrialFiles<Global>) -> Result<Vec<u8>, Fail> {
    let mut written = Vec::new(alloc);
    export_feed(alloc, &mut written, files, Version::whole("a.feed"))?;
    Ok(written)
}

/// What a replacement by site 4 in the copy of a text leaves.
pub fn left_after(alloc: Global, text: &[u8], exchange: &Exchange<'_>) -> Result<Left, Fail> {
    let mut files = feed_of(alloc, text)?;
    let mut written = Vec::new(alloc);
    let ended = replace_text(
        alloc,
        &mut written,
        &mut files,
        Room {
            feed: "a.feed",
            site: 4,
            older: false,
        },
        exchange,
    );
    let text = text_of(alloc, &mut files)?;
    Ok(Left {
        written,
        ended,
        text,
    })
}

/// The same of a text that has one place.
pub fn left_by(
    alloc: Global,
    text: &[u8],
    from: &str,
    to: &str,
    plain: bool,
) -> Result<Left, Fail> {
    let at = Where::Once;
    left_after(
        alloc,
        text,
        &Exchange {
            from,
            to,
            plain,
            at,
        },
    )
}
