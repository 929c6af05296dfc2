//! The texts of faults, of previews and of settings that are tried.

use feed_edit::FeedTrouble;
use feed_files::{FileRefusal, Kind};
use script_answers::Refusal;
use std::alloc::{AllocError, Global};
use text_copy::{Cause, TextFault};
use view_preview::{PreviewFault, TrialFault};
use view_proof::OtherNumber;

/// Of a feed they are those of its trouble.
const WORDS: [(PreviewFault, &str); 12] = [
    (
        PreviewFault::Feed(FeedTrouble::File(FileRefusal::Missing)),
        "file fault",
    ),
    (PreviewFault::Feed(FeedTrouble::Full), "full"),
    (PreviewFault::TooLong, "too long"),
    (PreviewFault::Input(Refusal::Wedge(4)), "input refused"),
    (PreviewFault::CopyFaults, "copy faults"),
    (PreviewFault::Faulty(None), "no ribbon"),
    (
        PreviewFault::Faulty(Some(OtherNumber::Case { set: 7, number: 1 })),
        "no ribbon",
    ),
    (PreviewFault::Write, "write fault"),
    (PreviewFault::Taken(Kind::Feed), "not replaced"),
    (PreviewFault::Unstored(FileRefusal::Device), "file fault"),
    (
        PreviewFault::Text(TextFault::At {
            line: 1,
            column: 3,
            cause: Cause::Unclosed,
        }),
        "line 1, column 3: a style that is open at the end of the line",
    ),
    (PreviewFault::NoMemory, "no memory"),
];

const TRIAL_WORDS: [(TrialFault, &str); 2] = [
    (TrialFault::NoSetting(3), "no setting"),
    (TrialFault::NoMemory, "no memory"),
];

/// Whether these are the words of a fault.
fn is_worded(alloc: Global, fault: PreviewFault, words: &str) -> bool {
    match format!(in alloc; "{fault}") {
        Ok(reported) => reported.as_str() == words,
        Err(AllocError) => false,
    }
}

/// Whether these are the words of a fault of settings that are tried.
fn is_trial_worded(alloc: Global, fault: TrialFault, words: &str) -> bool {
    match format!(in alloc; "{fault}") {
        Ok(reported) => reported.as_str() == words,
        Err(AllocError) => false,
    }
}

#[test]
fn names_faults_of_previews(rt: HostRuntime) {
    for &(fault, words) in &WORDS {
        assert!(rt; is_worded(rt.alloc(), fault, words), "{words}");
    }
}

#[test]
fn names_faults_of_trials(rt: HostRuntime) {
    for &(fault, words) in &TRIAL_WORDS {
        assert!(rt; is_trial_worded(rt.alloc(), fault, words), "{words}");
    }
}
