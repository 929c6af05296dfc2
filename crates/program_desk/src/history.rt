//! What a stored feed shows of its sites and its corrections, and where a text is in its copy.

ghost use Rattle.std.specs.Prelude.{◌≡◌, ◌≤◌, MatchResult, false, true};
ghost use Rattle.feed_files.specs.Files.{Stays};
ghost use Rattle.feed_history.specs.Log.{IsLogged};
ghost use Rattle.feed_history.specs.Rooms.{IsRoomsOf};
ghost use Rattle.program_desk.specs.Causes.{preview_cause};
ghost use Rattle.program_desk.specs.Explained.{IsSilent, Reports};
ghost use Rattle.program_desk.specs.History.{AreNoRooms, IsFoundThere, IsLoggedThere, IsNotFound, IsNotLogged};
ghost use Rattle.program_desk.specs.History.{IsNotLoggedBy, sought_in};

use crate::by_hand::export_ending;
use crate::causes::{Origin, preview_cause, text_cause};
use crate::previews::memory_of;
use crate::reporting::reported;
use crate::told::{Ending, ended};
use feed_edit::Version;
use feed_files::Files;
use feed_history::{Asked, report_log, report_rooms};
use program_host::Explains;
use std::alloc::Global;
use std::io::Write;
use text_copy::read_text;
use view_preview::{PreviewFault, Sources};
use view_punch::{Wanted, find_text};

/// Writes what each site of a stored feed made, and says how that ended.
pub fn roomed<W: Write, E: Write, F: Files + Explains>(
    alloc: Global,
    feed: &str,
    writer: &mut W,
    faults: &mut E,
    files: &mut F,
) -> Ending
    ensures within { result.status ≤ 1 }
    ensures done { result.status ≡ 0 → Stays (F.shelf files.old) (F.shelf files.new)
        × IsRoomsOf feed.now (F.shelf files.old) (W.contents writer.old) (W.contents writer.new) }
    ensures stopped { result.status ≡ 1
        → AreNoRooms feed.entry (F.shelf files.old) (F.shelf files.new) (W.contents writer.old)
        (W.contents writer.new) result.told.is_whole (E.contents faults.old) (E.contents faults.new) }
{
    let outcome = report_rooms(alloc, writer, files, feed);
    export_ending(alloc, faults, files, feed, outcome)
}

/// Which corrections are asked for: those of a site, those that end at a counter or later, and those that inserted or
/// deleted a text with marks.
#[derive(Clone, Copy)]
pub struct Sieve<'a> {
    pub site: Option<u16>,
    pub since: Option<u64>,
    pub text: Option<&'a str>,
}

/// Writes the corrections of a stored feed that are asked for, and says how that ended.
fn logged_by<W: Write, E: Write, F: Files + Explains>(
    alloc: Global,
    feed: &str,
    asked: &Asked<'_>,
    writer: &mut W,
    faults: &mut E,
    files: &mut F,
) -> Ending
    ensures within { result.status ≤ 1 }
    ensures done { result.status ≡ 0 → Stays (F.shelf files.old) (F.shelf files.new)
        × IsLogged asked.now feed.now (F.shelf files.old) (W.contents writer.old) (W.contents writer.new) }
    ensures stopped { result.status ≡ 1
        → IsNotLoggedBy feed.entry asked.now (F.shelf files.old) (F.shelf files.new) (W.contents writer.old)
        (W.contents writer.new) result.told.is_whole (E.contents faults.old) (E.contents faults.new) }
{
    let outcome = report_log(alloc, writer, files, feed, asked);
    export_ending(alloc, faults, files, feed, outcome)
}

/// Writes the corrections of a stored feed that are asked for, once the text is read, and says how that ended.
pub fn logged<W: Write, E: Write, F: Files + Explains>(
    alloc: Global,
    feed: &str,
    sieve: &Sieve<'_>,
    writer: &mut W,
    faults: &mut E,
    files: &mut F,
) -> Ending
    ensures within { result.status ≤ 1 }
    ensures done { result.status ≡ 0
        → IsLoggedThere feed.now sieve.now (F.shelf files.old) (F.shelf files.new) (W.contents writer.old)
        (W.contents writer.new) }
    ensures stopped { result.status ≡ 1
        → IsNotLogged feed.entry sieve.now (F.shelf files.old) (F.shelf files.new) (W.contents writer.old)
        (W.contents writer.new) result.told.is_whole (E.contents faults.old) (E.contents faults.new) }
{
    let Some(text) = sieve.text else {
        let asked = Asked {
            site: sieve.site,
            since: sieve.since,
            text: None,
        };
        return logged_by(alloc, feed, &asked, writer, faults, files);
    };
    match read_text(alloc, text.as_bytes(), false) {
        Ok(symbols) => {
            let asked = Asked {
                site: sieve.site,
                since: sieve.since,
                text: Some(&symbols),
            };
            logged_by(alloc, feed, &asked, writer, faults, files)
        }
        Err(why) => reported(alloc, faults, files, text_cause(feed, Origin::Sought, why)),
    }
}

/// The files of a search; where no metal is given none is read but the feed.
fn sought_in<'a>(feed: &'a str, metal: Option<(&'a str, &'a str)>) -> Sources<'a>
    ensures { result ≡ sought_in feed.entry metal.entry }
{
    let (case, wedge) = match metal {
        Some(names) => names,
        None => (feed, feed),
    };
    Sources {
        version: Version { feed, until: None },
        case,
        wedge,
    }
}

/// How a search ended: with status 1 also where the text has no place.
fn search_ending<E: Write, F: Explains>(
    alloc: Global,
    faults: &mut E,
    files: &F,
    from: &Sources<'_>,
    outcome: Result<bool, PreviewFault>,
) -> Ending
    ensures { MatchResult outcome
        (λ found. (found ≡ true → result.status ≡ 0) × (found ≡ false → result.status ≡ 1)
        × IsSilent result.told.is_whole (E.contents faults.old) (E.contents faults.new))
        (λ fault. (result.status ≡ 1) × Reports (preview_cause from.now from.now.version.feed fault)
        result.told.is_whole (E.contents faults.old) (E.contents faults.new)) }
{
    match outcome {
        Ok(true) => ended(0),
        Ok(false) => ended(1),
        Err(fault) => {
            let cause = preview_cause(from, from.version.feed, fault);
            reported(alloc, faults, files, cause)
        }
    }
}

/// Writes the places of a text in the copy of a stored feed, and says how that ended: with status 0 only where there is
/// one.
pub fn sought<W: Write, E: Write, F: Files + Explains>(
    alloc: Global,
    feed: &str,
    asked: &Wanted<'_>,
    writer: &mut W,
    faults: &mut E,
    files: &mut F,
) -> Ending
    ensures within { result.status ≤ 1 }
    ensures done { result.status ≡ 0
        → IsFoundThere feed.entry asked.now (F.shelf files.old) (F.shelf files.new) (W.contents writer.old)
        (W.contents writer.new) true }
    ensures stopped { result.status ≡ 1
        → IsNotFound feed.entry asked.now (F.shelf files.old) (F.shelf files.new) (W.contents writer.old)
        (W.contents writer.new) result.told.is_whole (E.contents faults.old) (E.contents faults.new) }
{
    let from = sought_in(feed, asked.metal);
    let outcome = find_text(memory_of(alloc), writer, files, feed, asked);
    search_ending(alloc, faults, files, &from, outcome)
}
