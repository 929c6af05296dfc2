//! The texts of faults.

use feed_files::{FileRefusal, Kind};
use script_answers::Refusal;
use std::alloc::{AllocError, Global};
use view_ribbon::ReadingFault;

const WORDS: [(ReadingFault, &str); 6] = [
    (ReadingFault::Ribbon(FileRefusal::Missing), "file fault"),
    (ReadingFault::Input(Refusal::Wedge(4)), "input refused"),
    (ReadingFault::Write, "write fault"),
    (ReadingFault::Taken(Kind::Ribbon), "not replaced"),
    (ReadingFault::Unstored(FileRefusal::Device), "file fault"),
    (ReadingFault::NoMemory, "no memory"),
];

/// Whether these are the words of a fault.
fn is_worded(alloc: Global, fault: ReadingFault, words: &str) -> bool {
    match format!(in alloc; "{fault}") {
        Ok(reported) => reported.as_str() == words,
        Err(AllocError) => false,
    }
}

#[test]
fn names_faults_of_readings(rt: HostRuntime) {
    for &(fault, words) in &WORDS {
        assert!(rt; is_worded(rt.alloc(), fault, words), "{words}");
    }
}
