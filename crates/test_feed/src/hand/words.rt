//! The texts of faults, of feed_edit and of what it stands on.

use desk_codec::{FeedFault, FeedWhy};
use desk_held::AddRefusal;
use desk_replica::{Refusal, Stopped};
use feed_edit::{
    ExportFault, FeedTrouble, ImportFault, InputFault, KeepFault, MergeFault, RevisionFault,
    SiteStamps, TakeFault,
};
use feed_files::{FileRefusal, ReaderFault};
use feed_stored::{OpenFault, Unsent};
use std::alloc::{AllocError, Global};
use std::fmt::Display;
use text_copy::{Cause, TextFault};

/// Whether these are the words of a fault.
fn is_worded<T: Display>(alloc: Global, fault: &T, words: &str) -> bool {
    match format!(in alloc; "{fault}") {
        Ok(reported) => reported.as_str() == words,
        Err(AllocError) => false,
    }
}

const FILE_WORDS: [(FileRefusal, &str); 4] = [
    (FileRefusal::Missing, "missing"),
    (FileRefusal::Device, "device"),
    (FileRefusal::Large, "large"),
    (FileRefusal::NoMemory, "no memory"),
];

const READER_WORDS: [(ReaderFault, &str); 3] = [
    (ReaderFault::Failed, "read fault"),
    (ReaderFault::TooLong, "too long"),
    (ReaderFault::NoMemory, "no memory"),
];

const BAD_KIND: FeedFault = FeedFault {
    at: 4,
    why: FeedWhy::Kind,
};

const TOO_MANY: Stopped = Stopped {
    taken: 0,
    why: AddRefusal::Full,
};

const OPEN_WORDS: [(OpenFault, &str); 3] = [
    (OpenFault::Feed(BAD_KIND), "feed refused"),
    (OpenFault::Opening(TOO_MANY), "not opened"),
    (OpenFault::NoMemory, "no memory"),
];

const FEED_WORDS: [(FeedTrouble, &str); 4] = [
    (FeedTrouble::File(FileRefusal::Large), "file fault"),
    (FeedTrouble::Feed(BAD_KIND), "feed refused"),
    (FeedTrouble::Full, "full"),
    (FeedTrouble::NoMemory, "no memory"),
];

const TAKE_WORDS: [(TakeFault, &str); 2] = [
    (TakeFault::Untaken(FileRefusal::Device), "file fault"),
    (TakeFault::Feed(FeedTrouble::Full), "full"),
];

const OPEN_STYLE: TextFault = TextFault::At {
    line: 3,
    column: 14,
    cause: Cause::Unclosed,
};

const INPUT_WORDS: [(InputFault, &str); 4] = [
    (InputFault::Read, "read fault"),
    (InputFault::TooLong, "too long"),
    (
        InputFault::Text(OPEN_STYLE),
        "line 3, column 14: a style that is open at the end of the line",
    ),
    (InputFault::NoMemory, "no memory"),
];

/// They are those of the refusal of an edit.
const REVISION_WORDS: [(RevisionFault, Refusal, &str); 4] = [
    (
        RevisionFault::Full,
        Refusal::Full,
        "as many operations are held as may be",
    ),
    (
        RevisionFault::ClockFull,
        Refusal::ClockFull,
        "the greatest counter is held",
    ),
    (
        RevisionFault::Value,
        Refusal::Value,
        "the value is out of its range",
    ),
    (RevisionFault::NoMemory, Refusal::NoMemory, "no memory"),
];

const KEEP_WORDS: [(KeepFault, &str); 3] = [
    (KeepFault::Write, "write fault"),
    (KeepFault::Unstored(FileRefusal::Device), "file fault"),
    (KeepFault::NoMemory, "no memory"),
];

const EXPORT_WORDS: [(ExportFault, &str); 3] = [
    (ExportFault::Feed(FeedTrouble::Full), "full"),
    (ExportFault::Write, "write fault"),
    (ExportFault::NoMemory, "no memory"),
];

const OTHER: MergeFault<Global> = MergeFault::Other {
    at: 1,
    why: FeedTrouble::File(FileRefusal::Missing),
};

/// The words of a phase are those of the call.
#[test]
fn names_faults_of_hands(rt: HostRuntime) {
    for &(fault, words) in &FEED_WORDS {
        assert!(rt; is_worded(rt.alloc(), &fault, words), "{words}");
    }
    for &(fault, words) in &TAKE_WORDS {
        assert!(rt; is_worded(rt.alloc(), &fault, words), "{words}");
        assert!(rt;
            is_worded(rt.alloc(), &MergeFault::<Global>::Take(fault), words),
            "{words}"
        );
        assert!(rt;
            is_worded(rt.alloc(), &ImportFault::Take(fault), words),
            "{words}"
        );
    }
    for &(fault, words) in &INPUT_WORDS {
        assert!(rt; is_worded(rt.alloc(), &fault, words), "{words}");
        assert!(rt;
            is_worded(rt.alloc(), &ImportFault::Input(fault), words),
            "{words}"
        );
    }
    for &(fault, refusal, words) in &REVISION_WORDS {
        assert!(rt; is_worded(rt.alloc(), &fault, words), "{words}");
        assert!(rt; is_worded(rt.alloc(), &refusal, words), "{words}");
        assert!(rt;
            is_worded(rt.alloc(), &ImportFault::Revision(fault), words),
            "{words}"
        );
    }
    for &(fault, words) in &KEEP_WORDS {
        assert!(rt; is_worded(rt.alloc(), &fault, words), "{words}");
        assert!(rt;
            is_worded(rt.alloc(), &MergeFault::<Global>::Keep(fault), words),
            "{words}"
        );
        assert!(rt;
            is_worded(rt.alloc(), &ImportFault::Keep(fault), words),
            "{words}"
        );
    }
    for &(fault, words) in &EXPORT_WORDS {
        assert!(rt; is_worded(rt.alloc(), &fault, words), "{words}");
    }
    assert!(rt; is_worded(rt.alloc(), &OTHER, "file fault"));
}

/// The words of the faults that guard against slips.
#[test]
fn names_guards_of_hands(rt: HostRuntime) {
    let forks = MergeFault::Forks {
        at: 0,
        stamps: SiteStamps::from_vec(Vec::new(rt.alloc())),
    };
    assert!(rt; is_worded(rt.alloc(), &forks, "number used twice"));
    let wipes = ImportFault::Wipes {
        deleted: 30_003,
        of: 30_004,
    };
    let words = "30003 of 30004 symbols would be deleted";
    assert!(rt; is_worded(rt.alloc(), &wipes, words));
}

#[test]
fn names_faults_of_files(rt: HostRuntime) {
    for &(fault, words) in &FILE_WORDS {
        assert!(rt; is_worded(rt.alloc(), &fault, words), "{words}");
    }
    for &(fault, words) in &OPEN_WORDS {
        assert!(rt; is_worded(rt.alloc(), &fault, words), "{words}");
    }
    assert!(rt; is_worded(rt.alloc(), &Unsent, "write fault"));
}

#[test]
fn names_faults_of_readers(rt: HostRuntime) {
    for &(fault, words) in &READER_WORDS {
        assert!(rt; is_worded(rt.alloc(), &fault, words), "{words}");
    }
}
