//! The texts of refusals.

use desk_held::AddRefusal;
use desk_replica::{Refusal, Stopped};
use script_world::StepRefusal;
use std::alloc::{AllocError, Global};

const STOPPED: Stopped = Stopped {
    taken: 3,
    why: AddRefusal::Full,
};

const WORDS: [(StepRefusal, &str); 8] = [
    (StepRefusal::Number, "no site has the number 0"),
    (StepRefusal::KnownSite, "the site is there already"),
    (
        StepRefusal::TooManySites,
        "as many sites are there as may be",
    ),
    (StepRefusal::NoSite, "there is no such site"),
    (
        StepRefusal::Strange,
        "no site holds an operation that was given",
    ),
    (
        StepRefusal::Edit(Refusal::Place),
        "the edit was refused: the copy has no such place",
    ),
    (
        StepRefusal::Halted(STOPPED),
        "stopped after 3 operations: as many operations are held as may be",
    ),
    (StepRefusal::NoMemory, "no memory"),
];

/// Whether these are the words of a refusal.
fn is_worded(alloc: Global, refusal: StepRefusal, words: &str) -> bool {
    match format!(in alloc; "{refusal}") {
        Ok(reported) => reported.as_str() == words,
        Err(AllocError) => false,
    }
}

#[test]
fn names_its_refusals(rt: HostRuntime) {
    for &(refusal, words) in &WORDS {
        assert!(rt; is_worded(rt.alloc(), refusal, words), "{words}");
    }
}
