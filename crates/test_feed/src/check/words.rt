//! The texts of faults.

use feed_check::CheckFault;
use std::alloc::{AllocError, Global};

/// They are what stands on standard error then.
const WORDS: [(CheckFault, &str); 2] = [
    (CheckFault::Write, "write fault"),
    (CheckFault::NoMemory, "no memory"),
];

/// Whether these are the words of a fault.
fn is_worded(alloc: Global, fault: CheckFault, words: &str) -> bool {
    match format!(in alloc; "{fault}") {
        Ok(reported) => reported.as_str() == words,
        Err(AllocError) => false,
    }
}

#[test]
fn names_faults_of_checks(rt: HostRuntime) {
    for &(fault, words) in &WORDS {
        assert!(rt; is_worded(rt.alloc(), fault, words), "{words}");
    }
}
