//! Why a command is not carried out, and what it is answered then.

ghost use Rattle.std.specs.Prelude.{◌≡◌, Err, None, Ok, Some};
ghost use Rattle.script_answers.specs.Failure.{failure};
ghost use Rattle.script_answers.specs.NotDone.{event_reply, line_refused, reply_of};
ghost use Rattle.script_answers.specs.Reply.{reply_values};
ghost use Rattle.script_world.specs.declared.world.StepRefusal.TheVariants as steps;
ghost use Rattle.script_answers.specs.declared.not_done.NotDone.TheVariants as ends;

use crate::ParseError;
use crate::failure::Failure;
use crate::text::{Refusal, Reply};
use desk_held::AddRefusal;
use desk_memory::NoMemory;
use desk_replica::Stopped;
use script_world::{Answer, StepRefusal};
use std::alloc::Allocator;

/// Why a command is not carried out, or not to its end.
#[derive(Clone, Copy, Debug, PartialEq, Eq)]
pub enum NotDone {
    /// Nothing has changed.
    Failed(Failure),
    /// So many operations were taken before the refusal.
    Stopped(usize, Refusal),
}

impl From<Failure> for NotDone {
    ghost from_gives = { λ why end. end ≡ ends.Failed why };

    fn from(why: Failure) -> NotDone {
        NotDone::Failed(why)
    }
}

impl From<Refusal> for NotDone {
    ghost from_gives = { λ why end. end ≡ ends.Failed (failure (Some why)) };

    fn from(why: Refusal) -> NotDone {
        NotDone::Failed(Failure::Refused(why))
    }
}

impl From<NoMemory> for NotDone {
    ghost from_gives = { λ _ end. end ≡ ends.Failed (failure None) };

    fn from(_: NoMemory) -> NotDone {
        NotDone::Failed(Failure::NoMemory)
    }
}

impl From<ParseError> for NotDone {
    ghost from_gives = { λ why end. end ≡ ends.Failed (failure (line_refused why)) };

    fn from(why: ParseError) -> NotDone {
        match why {
            ParseError::Form => NotDone::from(Refusal::Command),
            ParseError::NoMemory => NotDone::from(NoMemory),
        }
    }
}

impl From<Stopped> for NotDone {
    ghost from_gives = { λ stop end. reply_of end ≡ event_reply (Err (steps.Halted stop)) };

    fn from(stop: Stopped) -> NotDone {
        match stop.why {
            AddRefusal::Full if stop.taken == 0 => NotDone::from(Refusal::Full),
            AddRefusal::Full => NotDone::Stopped(stop.taken, Refusal::Full),
            AddRefusal::NoMemory if stop.taken == 0 => NotDone::from(NoMemory),
            AddRefusal::NoMemory => NotDone::Stopped(stop.taken, Refusal::Memory),
        }
    }
}

impl From<StepRefusal> for NotDone {
    ghost from_gives = { λ why end. reply_of end ≡ event_reply (Err why) };

    fn from(why: StepRefusal) -> NotDone {
        match why {
            StepRefusal::Number => NotDone::from(Refusal::Number),
            StepRefusal::KnownSite => NotDone::from(Refusal::Known),
            StepRefusal::TooManySites => NotDone::from(Refusal::Sites),
            StepRefusal::NoSite | StepRefusal::Strange => NotDone::from(Refusal::Site),
            StepRefusal::Edit(why) => NotDone::Failed(Failure::from(why)),
            StepRefusal::Halted(stop) => NotDone::from(stop),
            StepRefusal::NoMemory => NotDone::from(NoMemory),
        }
    }
}

impl<A: Allocator + Copy> From<Answer> for Reply<A> {
    ghost from_gives = { λ answer reply. event_reply (Ok answer) ≡ reply_values reply };

    fn from(answer: Answer) -> Reply<A> {
        match answer {
            Answer::Made(op) => Reply::Made(op.stamp()),
            Answer::Taken(count) => Reply::Counted {
                new: count.new,
                known: count.known,
            },
            Answer::Done => Reply::Done,
        }
    }
}

impl<A: Allocator + Copy> From<NotDone> for Reply<A> {
    ghost from_gives = { λ end reply. reply_values reply ≡ reply_of end };

    fn from(end: NotDone) -> Reply<A> {
        match end {
            NotDone::Failed(why) => Reply::Refused(Refusal::from(why)),
            NotDone::Stopped(taken, why) => Reply::Stopped(taken, why),
        }
    }
}
