//! The texts of faults.

use crate::running::have_words;
use desk_codec::{FeedFault, FeedWhy};
use desk_held::AddRefusal;
use desk_replica::Stopped;
use desk_script::{ParseError, RoomFault, RunFault};
use feed_files::FileRefusal;
use std::test::Fail;

#[test]
fn names_faults_of_lines(rt: HostRuntime) -> Result<(), Fail> {
    have_words(
        rt.alloc(),
        &[
            (ParseError::NoMemory, "no memory"),
            (ParseError::Form, "no command"),
        ],
    )
}

const BAD_KIND: FeedFault = FeedFault {
    at: 4,
    why: FeedWhy::Kind,
};

const TOO_MANY: Stopped = Stopped {
    taken: 0,
    why: AddRefusal::Full,
};

const WORDS: [(RunFault, &str); 7] = [
    (RunFault::Read, "read fault"),
    (RunFault::Write, "write fault"),
    (RunFault::TooLong, "too long"),
    (RunFault::NoMemory, "no memory"),
    (RunFault::Feed(BAD_KIND), "feed refused"),
    (RunFault::File(FileRefusal::Device), "file fault"),
    (RunFault::Opening(TOO_MANY), "not opened"),
];

#[test]
fn names_its_faults(rt: HostRuntime) -> Result<(), Fail> {
    have_words(rt.alloc(), &WORDS)
}

const OLDER_WORDS: [(RoomFault, &str); 2] = [
    (RoomFault::Older { made: 2, held: 1 }, "older feed"),
    (RoomFault::Run(RunFault::Read), "read fault"),
];

#[test]
fn names_older_feeds(rt: HostRuntime) -> Result<(), Fail> {
    have_words(rt.alloc(), &OLDER_WORDS)
}
