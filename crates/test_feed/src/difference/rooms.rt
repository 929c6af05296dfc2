//! Feeds of texts, and what is said of two.

use feed_edit::{ImportMode, Room, Version, import_text};
use feed_files::trial::{TrialFiles, TrialReader};
use feed_sites::{DifferenceFault, report_difference};
use std::alloc::Global;
use std::test::Fail;

/// Makes the copy of a feed a text, by a site.
pub fn key(
    alloc: Global,
    files: &mut TrialFiles<Global>,
    name: &str,
    site: u16,
    text: &[u8],
) -> Result<(), Fail> {
    if site == 0 {
        return Err(Fail::new("no site"));
    }
    let mut reader = TrialReader::new(text);
    let mut written = Vec::new(alloc);
    import_text(
        alloc,
        &mut reader,
        &mut written,
        files,
        Room {
            feed: name,
            site,
            older: false,
        },
        ImportMode {
            plain: false,
            all: true,
        },
    )?;
    Ok(())
}

/// Files with the feed of a text keyed by site 1, and with that feed once site 2 made its copy another text.
pub fn keyed(alloc: Global, one: &[u8], other: &[u8]) -> Result<TrialFiles<Global>, Fail> {
    let mut files = TrialFiles::new(alloc);
    key(alloc, &mut files, "one.feed", 1, one)?;
    let mut files = files.for_next_run();
    let Some(bytes) = files.bytes_of("one.feed") else {
        return Err(Fail::new("no feed"));
    };
    let bytes = Vec::from_slice(alloc, bytes)?;
    files.put("two.feed", &bytes)?;
    key(alloc, &mut files, "two.feed", 2, other)?;
    Ok(files.for_next_run())
}

/// An insert at the head of a copy: its counter, its site and a Roman letter.
pub type Letter = (u64, u16, u8);

/// A feed of inserts at the head.
pub fn feed_of(alloc: Global, letters: &[Letter]) -> Result<Vec<u8>, Fail> {
    let mut feed = Vec::from_slice(alloc, b"MFD2")?;
    for (counter, site, letter) in letters {
        feed.push(1)?;
        feed.extend_from_slice(&counter.to_be_bytes())?;
        feed.extend_from_slice(&site.to_be_bytes())?;
        feed.extend_from_slice(&[0; 14])?;
        feed.push(*letter)?;
    }
    Ok(feed)
}

/// Files with two feeds of inserts at the head.
pub fn lettered(
    alloc: Global,
    one: &[Letter],
    other: &[Letter],
) -> Result<TrialFiles<Global>, Fail> {
    let mut files = TrialFiles::new(alloc);
    files.put("one.feed", &feed_of(alloc, one)?)?;
    files.put("two.feed", &feed_of(alloc, other)?)?;
    Ok(files)
}

/// What a run wrote, and how it ended.
#[derive(Drop)]
pub struct Left {
    pub text: Vec<u8>,
    pub ended: Result<bool, DifferenceFault>,
}

/// What is said of two feeds of some files.
pub fn reported(
    alloc: Global,
    files: &mut TrialFiles<Global>,
    one: &str,
    other: &str,
) -> Result<Left, Fail> {
    let mut text = Vec::new(alloc);
    let ended = report_difference(alloc, &mut text, files, Version::whole(one), other);
    Ok(Left { text, ended })
}

/// Whether this is said of the two feeds.
pub fn reports(
    alloc: Global,
    files: &mut TrialFiles<Global>,
    text: &str,
    same: bool,
) -> Result<bool, Fail> {
    let left = reported(alloc, files, "one.feed", "two.feed")?;
    Ok(left.ended == Ok(same) && left.text.as_slice() == text.as_bytes())
}
