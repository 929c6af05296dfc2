//! A text of a stored feed replaced, and files checked.

ghost use Rattle.std.specs.Prelude.{◌≡◌, ◌≤◌, MatchResult, false, true};
ghost use Rattle.program_words.specs.Words.{texts_of};
ghost use Rattle.feed_edit.specs.Replacing.{IsReplaced};
ghost use Rattle.program_desk.specs.Causes.{check_cause, replace_cause};
ghost use Rattle.program_desk.specs.Explained.{IsSilent, Reports};
ghost use Rattle.program_desk.specs.Texts.{AreFound, AreNotInOrder, IsUnchanged};

use crate::causes::{check_cause, replace_cause};
use crate::previews::memory_of;
use crate::reporting::reported;
use crate::told::{Ending, ended};
use feed_check::{CheckFault, check_files};
use feed_edit::{Exchange, ReplaceFault, Room, replace_text};
use feed_files::Files;
use program_host::Explains;
use std::alloc::Global;
use std::io::Write;

/// How a replacement ended.
fn replace_ending<E: Write, F: Explains>(
    alloc: Global,
    faults: &mut E,
    files: &F,
    feed: &str,
    site: u16,
    outcome: Result<(), ReplaceFault>,
) -> Ending
    ensures { MatchResult outcome (λ _. result.status ≡ 0)
        (λ fault. (result.status ≡ 1) × Reports (replace_cause feed.entry site fault) result.told.is_whole
        (E.contents faults.old) (E.contents faults.new)) }
{
    match outcome {
        Ok(()) => ended(0),
        Err(fault) => reported(alloc, faults, files, replace_cause(feed, site, fault)),
    }
}

/// Makes a text another in the copy of a stored feed, where it has one place, and says how that ended.
pub fn replaced<W: Write, E: Write, F: Files + Explains>(
    alloc: Global,
    room: Room<'_>,
    exchange: &Exchange<'_>,
    writer: &mut W,
    faults: &mut E,
    files: &mut F,
) -> Ending
    requires { 1 ≤ room.site }
    ensures within { result.status ≤ 1 }
    ensures done { result.status ≡ 0
        → IsReplaced room.entry exchange.now (F.shelf files.old) (F.shelf files.new) (W.contents writer.old)
        (W.contents writer.new) }
    ensures stopped { result.status ≡ 1
        → IsUnchanged room.entry exchange.now (F.shelf files.old) (F.shelf files.new) (W.contents writer.old)
        (W.contents writer.new) result.told.is_whole (E.contents faults.old) (E.contents faults.new) }
{
    let outcome = replace_text(alloc, writer, files, room, exchange);
    replace_ending(alloc, faults, files, room.feed, room.site, outcome)
}

/// How a check ended: with status 1 also where each file has its line and one is not in order.
fn check_ending<E: Write, F: Explains>(
    alloc: Global,
    faults: &mut E,
    files: &F,
    outcome: Result<bool, CheckFault>,
) -> Ending
    ensures { MatchResult outcome
        (λ well. (well ≡ true → result.status ≡ 0) × (well ≡ false → result.status ≡ 1)
        × IsSilent result.told.is_whole (E.contents faults.old) (E.contents faults.new))
        (λ fault. (result.status ≡ 1) × Reports (check_cause fault) result.told.is_whole (E.contents faults.old)
        (E.contents faults.new)) }
{
    match outcome {
        Ok(true) => ended(0),
        Ok(false) => ended(1),
        Err(fault) => reported(alloc, faults, files, check_cause(fault)),
    }
}

/// Says of files what they are, and how that ended: with status 0 only where all are in order.
pub fn checked<W: Write, E: Write, F: Files + Explains>(
    alloc: Global,
    names: &[&str],
    writer: &mut W,
    faults: &mut E,
    files: &mut F,
) -> Ending
    ensures within { result.status ≤ 1 }
    ensures done { result.status ≡ 0
        → AreFound (texts_of names.now) (F.shelf files.old) (F.shelf files.new) (W.contents writer.old)
        (W.contents writer.new) }
    ensures stopped { result.status ≡ 1
        → AreNotInOrder (texts_of names.now) (F.shelf files.old) (F.shelf files.new) (W.contents writer.old)
        (W.contents writer.new) result.told.is_whole (E.contents faults.old) (E.contents faults.new) }
{
    let outcome = check_files(memory_of(alloc), writer, files, names);
    check_ending(alloc, faults, files, outcome)
}
