//! The texts of refusals.

use desk_held::AddRefusal;
use desk_replica::{Refusal, Stopped};
use std::alloc::{AllocError, Global};

const WORDS: [(Refusal, &str); 5] = [
    (Refusal::Full, "as many operations are held as may be"),
    (Refusal::ClockFull, "the greatest counter is held"),
    (Refusal::Place, "the copy has no such place"),
    (Refusal::Value, "the value is out of its range"),
    (Refusal::NoMemory, "no memory"),
];

const STOPS: [(AddRefusal, &str); 2] = [
    (
        AddRefusal::Full,
        "stopped after 3 operations: as many operations are held as may be",
    ),
    (
        AddRefusal::NoMemory,
        "stopped after 3 operations: no memory",
    ),
];

/// Whether these are the words of a refusal.
fn is_worded(alloc: Global, refusal: Refusal, words: &str) -> bool {
    match format!(in alloc; "{refusal}") {
        Ok(reported) => reported.as_str() == words,
        Err(AllocError) => false,
    }
}

/// Whether these are the words of a stop after three operations, for this cause.
fn is_stop_worded(alloc: Global, why: AddRefusal, words: &str) -> bool {
    let stopped = Stopped { taken: 3, why };
    match format!(in alloc; "{stopped}") {
        Ok(reported) => reported.as_str() == words,
        Err(AllocError) => false,
    }
}

#[test]
fn names_its_refusals(rt: HostRuntime) {
    for &(refusal, words) in &WORDS {
        assert!(rt; is_worded(rt.alloc(), refusal, words), "{words}");
    }
    for &(why, words) in &STOPS {
        assert!(rt; is_stop_worded(rt.alloc(), why, words), "{words}");
    }
}
