//! The kinds of files, and their words.

use feed_files::{FileRefusal, Kind, OutputFault, kind_of};
use std::alloc::{AllocError, Global};

/// What a document begins with.
const DOCUMENT: &[u8] =
    b"<!DOCTYPE html>\n<html xmlns=\"http://www.w3.org/1999/xhtml\" lang=\"en\">\n<head>\n\
<meta charset=\"utf-8\"/>\n<meta name=\"generator\" content=\"copydesk\"/>\n<title>";

/// Another page in HTML.
const PAGE: &[u8] =
    b"<!DOCTYPE html>\n<html xmlns=\"http://www.w3.org/1999/xhtml\" lang=\"en\">\n<head>\n\
<meta charset=\"utf-8\"/>\n<meta name=\"generator\" content=\"another\"/>\n<title>";

/// Bytes, and what they are.
const KINDS: [(&[u8], Option<Kind>); 17] = [
    (b"", None),
    (b"M", Some(Kind::Other)),
    (b"MRB", Some(Kind::Other)),
    (b"MFD", Some(Kind::Other)),
    (b"<sv", Some(Kind::Other)),
    (b"MRB1", Some(Kind::Ribbon)),
    (b"MRB1\0\0\0\x01\0\0\x02\x06", Some(Kind::Ribbon)),
    (b"MFD1", Some(Kind::Feed)),
    (b"MFD2\x03", Some(Kind::Feed)),
    (b"MFD3", Some(Kind::Other)),
    (b"MRB2", Some(Kind::Other)),
    (b"<svg xmlns=\"", Some(Kind::Picture)),
    (b" <svg", Some(Kind::Other)),
    (b"case = 1\n", Some(Kind::Other)),
    (DOCUMENT, Some(Kind::Document)),
    (PAGE, Some(Kind::Other)),
    (b"<!DOCTYPE html>\n", Some(Kind::Other)),
];

#[test]
fn kinds_by_first_bytes(rt: HostRuntime) {
    for &(bytes, kind) in &KINDS {
        assert_eq!(rt; kind_of(bytes), kind);
    }
}

const WORDS: [(Kind, &str); 6] = [
    (Kind::Feed, "a feed stands there"),
    (Kind::Ribbon, "a ribbon stands there"),
    (Kind::Picture, "a picture stands there"),
    (Kind::Document, "a document stands there"),
    (Kind::Other, "another file stands there"),
    (
        Kind::Large,
        "a file of more than 67,108,864 bytes stands there",
    ),
];

/// Whether these are the words of what stands under a name.
fn is_worded(alloc: Global, kind: Kind, words: &str) -> bool {
    match format!(in alloc; "{kind}") {
        Ok(reported) => reported.as_str() == words,
        Err(AllocError) => false,
    }
}

/// Whether these are the words of a fault.
fn is_fault_worded(alloc: Global, fault: OutputFault, words: &str) -> bool {
    match format!(in alloc; "{fault}") {
        Ok(reported) => reported.as_str() == words,
        Err(AllocError) => false,
    }
}

#[test]
fn names_what_stands_there(rt: HostRuntime) {
    for &(kind, words) in &WORDS {
        assert!(rt; is_worded(rt.alloc(), kind, words), "{words}");
    }
    let taken = OutputFault::Taken(Kind::Feed);
    assert!(rt; is_fault_worded(rt.alloc(), taken, "not replaced"));
    let file = OutputFault::File(FileRefusal::Missing);
    assert!(rt; is_fault_worded(rt.alloc(), file, "file fault"));
}
