//! The texts of faults.

use feed_edit::FeedTrouble;
use feed_files::FileRefusal;
use script_answers::Refusal;
use std::alloc::{AllocError, Global};
use view_preview::PreviewFault;

/// Of a feed they are those of its trouble.
const WORDS: [(PreviewFault, &str); 5] = [
    (
        PreviewFault::Feed(FeedTrouble::File(FileRefusal::Missing)),
        "file fault",
    ),
    (PreviewFault::Feed(FeedTrouble::Full), "full"),
    (PreviewFault::Input(Refusal::Case(4)), "input refused"),
    (PreviewFault::Write, "write fault"),
    (PreviewFault::NoMemory, "no memory"),
];

/// Whether these are the words of a fault.
fn is_worded(alloc: Global, fault: PreviewFault, words: &str) -> bool {
    match format!(in alloc; "{fault}") {
        Ok(reported) => reported.as_str() == words,
        Err(AllocError) => false,
    }
}

#[test]
fn names_faults_of_sorts(rt: HostRuntime) {
    for &(fault, words) in &WORDS {
        assert!(rt; is_worded(rt.alloc(), fault, words), "{words}");
    }
}
