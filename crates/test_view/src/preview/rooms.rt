//! The files of the tests.

use crate::metal::{ROWS, WEDGE, case_with};
use feed_edit::Version;
use feed_files::Target;
use feed_files::trial::TrialFiles;
use script_answers::Memory;
use std::alloc::{AllocError, Global};
use view_preview::{Job, PreviewFault, Source};
use view_punch::{Galleys, Stop};

/// What stands under the target before a ribbon is stored there.
pub const OLD: &[u8] = b"MRB1 old";

/// Where a ribbon is stored, over another ribbon alone.
pub const TARGET: Target<'static> = Target {
    name: "a.ribbon",
    force: false,
};

/// Adds one operation, which gives a setting a value.
fn put_setting(out: &mut Vec<u8, Global>, key: u8, value: u8) -> Result<(), AllocError> {
    out.extend_from_slice(&[3, 0, 0, 0, 0, 0, 0, 0, key, 0, 1, key, 0, 0, 0, value])
}

/// Adds the inserts of Roman symbols, in one run from 6.1 on, or singly.
fn put_copy(out: &mut Vec<u8, Global>, copy: &[u8]) -> Result<(), AllocError> {
    let kind = if copy.len() == 1 { 1 } else { 4 };
    out.extend_from_slice(&[kind, 0, 0, 0, 0, 0, 0, 0, 6, 0, 1])?;
    out.extend_from_slice(&[0; 10])?;
    if copy.len() != 1 {
        out.push(u8::try_from(copy.len()).unwrap_or(0))?;
    }
    for symbol in copy {
        out.extend_from_slice(&[0, 0, 0, 0, *symbol])?;
    }
    Ok(())
}

/// A feed of empty copy whose settings have these numbers of a case and of a wedge, and lack `loose` where it is to be
/// missing.
fn feed_of_numbers(
    alloc: Global,
    missing: bool,
    case: u8,
    wedge: u8,
) -> Result<Vec<u8, Global>, AllocError> {
    let mut out = Vec::new(alloc);
    out.extend_from_slice(b"MFD2")?;
    put_setting(&mut out, 1, 120)?;
    put_setting(&mut out, 2, 38)?;
    if !missing {
        put_setting(&mut out, 3, 150)?;
    }
    put_setting(&mut out, 4, case)?;
    if !missing {
        put_setting(&mut out, 5, wedge)?;
    }
    Ok(out)
}

/// A feed with all settings.
fn feed_of_settings(alloc: Global, loose: u8) -> Result<Vec<u8, Global>, AllocError> {
    let mut out = Vec::new(alloc);
    out.extend_from_slice(b"MFD2")?;
    put_setting(&mut out, 1, 120)?;
    put_setting(&mut out, 2, 38)?;
    put_setting(&mut out, 3, loose)?;
    put_setting(&mut out, 4, 1)?;
    put_setting(&mut out, 5, 5)?;
    Ok(out)
}

/// The same with a copy.
fn feed(alloc: Global, loose: u8, copy: &[u8]) -> Result<Vec<u8, Global>, AllocError> {
    let mut out = feed_of_settings(alloc, loose)?;
    put_copy(&mut out, copy)?;
    Ok(out)
}

/// The same with `aa a` in italic, `n`, and `M` as a small capital.
fn feed_of_styles(alloc: Global) -> Result<Vec<u8, Global>, AllocError> {
    let mut out = feed_of_settings(alloc, 150)?;
    out.extend_from_slice(&[4, 0, 0, 0, 0, 0, 0, 0, 6, 0, 1])?;
    out.extend_from_slice(&[0; 10])?;
    out.push(6)?;
    for (style, ch) in [
        (1, b'a'),
        (1, b'a'),
        (0, b' '),
        (1, b'a'),
        (0, b'n'),
        (2, b'M'),
    ] {
        out.extend_from_slice(&[style, 0, 0, 0, ch])?;
    }
    Ok(out)
}

/// The same with `n`, an italic U+202E and `n`.
fn feed_of_mark(alloc: Global) -> Result<Vec<u8, Global>, AllocError> {
    let mut out = feed_of_settings(alloc, 150)?;
    out.extend_from_slice(&[4, 0, 0, 0, 0, 0, 0, 0, 6, 0, 1])?;
    out.extend_from_slice(&[0; 10])?;
    out.extend_from_slice(b"\x03\0\0\0\0n\x01\0\0\x20\x2e\0\0\0\0n")?;
    Ok(out)
}

/// Adds a delete at 40.1 of a stamp that no operation bears, and one at 41.1 of a setting.
fn put_lost(out: &mut Vec<u8, Global>) -> Result<(), AllocError> {
    for (stamp, target) in [(40u8, 39u8), (41, 1)] {
        out.extend_from_slice(&[2, 0, 0, 0, 0, 0, 0, 0, stamp, 0, 1])?;
        out.extend_from_slice(&[0, 0, 0, 0, 0, 0, 0, target, 0, 1])?;
    }
    Ok(())
}

/// A feed with a copy that has two faults.
fn faulty_feed(alloc: Global, loose: u8, copy: &[u8]) -> Result<Vec<u8, Global>, AllocError> {
    let mut out = feed(alloc, loose, copy)?;
    put_lost(&mut out)?;
    Ok(out)
}

/// Files of which the k-th call fails: feeds, a case, wedges, and what stands under the target.
pub fn rooms(alloc: Global, k: u64) -> Result<TrialFiles<Global>, AllocError> {
    let mut files = TrialFiles::new(alloc).failing_at_call(k);
    files.put("set.feed", &feed(alloc, 150, b"\n")?)?;
    files.put("loose.feed", &feed(alloc, 60, b"nnn nnn nnn nnn nnn nnn")?)?;
    files.put(
        "lines.feed",
        &feed(alloc, 60, b"nnn nnn nnn nnn nnn nnn\nn")?,
    )?;
    files.put("bare.feed", &feed_of_settings(alloc, 150)?)?;
    files.put("above.feed", &feed(alloc, 100, b"\n")?)?;
    files.put("lone.feed", &feed(alloc, 150, b"nnnnnnnnnnnnnnnnnt")?)?;
    files.put("styles.feed", &feed_of_styles(alloc)?)?;
    files.put("lacking.feed", &feed(alloc, 150, b"nqn")?)?;
    files.put("marked.feed", &feed_of_mark(alloc)?)?;
    files.put("faulty.feed", &faulty_feed(alloc, 150, b"\n")?)?;
    files.put(
        "both.feed",
        &faulty_feed(alloc, 60, b"nnn nnn nnn nnn nnn nnn")?,
    )?;
    files.put("none.feed", b"MFD2")?;
    files.put("few.feed", &feed_of_numbers(alloc, true, 7, 9)?)?;
    files.put("other.feed", &feed_of_numbers(alloc, false, 7, 9)?)?;
    files.put("wedge.feed", &feed_of_numbers(alloc, false, 1, 9)?)?;
    let case = case_with(alloc, ROWS)?;
    files.put("c", &case)?;
    files.put("w", WEDGE)?;
    files.put("broken", b"wedge =")?;
    files.put("a.ribbon", OLD)?;
    Ok(files)
}

/// A feed alone, for a punch.
pub fn galleys<'a>(feed: &'a str, case: &'a str, wedge: &'a str) -> Galleys<'a> {
    Galleys {
        first: feed,
        others: &[],
        case,
        wedge,
    }
}

/// The first feed stops a punch for this fault.
pub fn stop(why: PreviewFault) -> Stop {
    Stop { feed: 0, why }
}

/// The same for a proof.
pub fn job<'a>(feed: &'a str, case: &'a str, wedge: &'a str) -> Job<'a> {
    Job {
        source: Source::Feed(Version::whole(feed)),
        case,
        wedge,
    }
}

/// All memory is the global.
pub fn memory(alloc: Global) -> Memory<Global> {
    Memory {
        own: alloc,
        global: alloc,
    }
}
