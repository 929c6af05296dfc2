//! Why nothing was done.

ghost use Rattle.std.specs.Prelude.{◌≡◌, None};
ghost use Rattle.script_answers.specs.Failure.{case_refused, edit_refused, failure, file_refused, refusal_of};
ghost use Rattle.script_answers.specs.Failure.{wedge_refused};

use crate::text::Refusal;
use desk_case::CaseFault;
use desk_memory::NoMemory;
use desk_wedge::WedgeFault;
use feed_files::FileRefusal;

/// Why nothing was done: refused, or out of memory.
#[derive(Clone, Copy, Debug, PartialEq, Eq)]
pub enum Failure {
    Refused(Refusal),
    NoMemory,
}

impl From<NoMemory> for Failure {
    ghost from_gives = { λ _ end. end ≡ failure None };

    fn from(_: NoMemory) -> Failure {
        Failure::NoMemory
    }
}

impl From<FileRefusal> for Failure {
    ghost from_gives = { λ why end. end ≡ failure (file_refused why) };

    fn from(why: FileRefusal) -> Failure {
        match why {
            FileRefusal::Missing => Failure::Refused(Refusal::FileMissing),
            FileRefusal::Device => Failure::Refused(Refusal::FileDevice),
            FileRefusal::Large => Failure::Refused(Refusal::FileLarge),
            FileRefusal::NoMemory => Failure::NoMemory,
        }
    }
}

impl From<CaseFault> for Failure {
    ghost from_gives = { λ fault end. end ≡ failure (case_refused fault) };

    fn from(fault: CaseFault) -> Failure {
        match fault.number() {
            Some(number) => Failure::Refused(Refusal::Case(number)),
            None => Failure::NoMemory,
        }
    }
}

impl From<WedgeFault> for Failure {
    ghost from_gives = { λ fault end. end ≡ failure (wedge_refused fault) };

    fn from(fault: WedgeFault) -> Failure {
        match fault.number() {
            Some(number) => Failure::Refused(Refusal::Wedge(number)),
            None => Failure::NoMemory,
        }
    }
}

impl From<desk_replica::Refusal> for Failure {
    ghost from_gives = { λ why end. end ≡ failure (edit_refused why) };

    fn from(why: desk_replica::Refusal) -> Failure {
        match why {
            desk_replica::Refusal::Full => Failure::Refused(Refusal::Full),
            desk_replica::Refusal::ClockFull => Failure::Refused(Refusal::Clock),
            desk_replica::Refusal::Place => Failure::Refused(Refusal::Place),
            desk_replica::Refusal::Value => Failure::Refused(Refusal::Value),
            desk_replica::Refusal::NoMemory => Failure::NoMemory,
        }
    }
}

impl From<Failure> for Refusal {
    ghost from_gives = { λ end why. why ≡ refusal_of end };

    fn from(end: Failure) -> Refusal {
        match end {
            Failure::Refused(why) => why,
            Failure::NoMemory => Refusal::Memory,
        }
    }
}
