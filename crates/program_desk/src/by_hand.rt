//! What is done by hand with a stored feed, and how it ended. Where it was not done a line says so, and a second one
//! the cause, unless the first says all.

ghost use Rattle.std.specs.Prelude.{◌≡◌, ◌≤◌, ◌⊎◌, List, MatchResult, [], slice_get, true, ℕ};
ghost use Rattle.feed_edit.specs.Exporting.{IsExported};
ghost use Rattle.feed_edit.specs.Forks.{forks_line};
ghost use Rattle.feed_edit.specs.Importing.{IsImported};
ghost use Rattle.feed_files.specs.Files.{Stays};
ghost use Rattle.feed_sites.specs.Renewing.{IsRenewed};
ghost use Rattle.feed_sites.specs.Renumbering.{IsRenumbered};
ghost use Rattle.program_words.specs.Words.{texts_of};
ghost use Rattle.program_desk.specs.ByHand.{IsForkLine, IsMergedAs, IsNotExported, IsNotImported, IsNotMadeAnew};
ghost use Rattle.program_desk.specs.ByHand.{IsNotMerged, IsNotNumbered, TellsMerge, status_of};
ghost use Rattle.program_desk.specs.Causes.{export_cause, import_cause, renew_cause, renumber_cause};
ghost use Rattle.program_desk.specs.Explained.{IsSilent, Reports, TellsOf};
ghost use Rattle.program_desk.specs.Told.{GoesOn};

use crate::causes::{export_cause, import_cause, merge_cause, renew_cause, renumber_cause};
use crate::reporting::{reported, stopped};
use crate::told::{Ending, Told, ended, tell_more};
use feed_edit::{
    ExportFault, ImportFault, ImportMode, MergeFault, Room, SiteStamps, Version, export_feed,
    forks_line, import_text, merge_feeds,
};
use feed_files::Files;
use feed_sites::{RenewFault, RenumberFault, renew_feed, renumber_feed};
use program_host::Explains;
use std::alloc::Global;
use std::io::{Read, Write};

/// A merge of the feeds of other files into a stored one.
#[derive(Clone, Copy)]
pub struct Merge<'a> {
    pub feed: &'a str,
    pub others: &'a [&'a str],
    /// A number that was used twice stops nothing.
    pub forks: bool,
    /// Words that are open give the status 1.
    pub review: bool,
}

/// An import of a text as the copy of a stored feed.
#[derive(Clone, Copy)]
pub struct Import<'a> {
    pub room: Room<'a>,
    pub mode: ImportMode,
}

/// A new feed with the copy and the settings of a stored one, made by a site.
#[derive(Clone, Copy)]
pub struct Renewal<'a> {
    pub new: &'a str,
    pub feed: &'a str,
    pub site: u16,
}

/// Another number for what a stored feed has under one that another feed used too.
#[derive(Clone, Copy)]
pub struct Renumbering<'a> {
    pub feed: &'a str,
    pub other: &'a str,
    pub site: u16,
}

/// The name at a place, if there is one.
fn name_at<'a>(others: &'a [&'a str], at: usize) -> Option<&'a str>
    ensures { result ≡ slice_get others.now at }
{
    if at >= others.len() {
        return None;
    }
    Some(others[at])
}

/// Writes the line on a number that was used twice, if there is memory for it.
fn tell_forks<E: Write>(
    alloc: Global,
    faults: &mut E,
    told: Told,
    name: &str,
    stamps: &SiteStamps<Global>,
) -> Told
    ensures { (line : List ℕ) × ((line ≡ []) ⊎ (line ≡ forks_line name.now stamps.now))
        × GoesOn told.is_whole result.is_whole (E.contents faults.old) (E.contents faults.new) line }
{
    match forks_line(alloc, name, stamps) {
        Ok(line) => tell_more(faults, told, line.as_bytes()),
        Err(_) => told,
    }
}

/// Writes the line on a number that was used twice, if that is the fault and there is memory for it.
fn explain_forks<E: Write>(
    alloc: Global,
    faults: &mut E,
    told: Told,
    others: &[&str],
    fault: &MergeFault<Global>,
) -> Told
    ensures { (line : List ℕ) × IsForkLine others.now fault.now line
        × GoesOn told.is_whole result.is_whole (E.contents faults.old) (E.contents faults.new) line }
{
    let MergeFault::Forks { at, stamps } = fault else {
        return told;
    };
    let Some(name) = name_at(others, *at) else {
        return told;
    };
    tell_forks(alloc, faults, told, name, stamps)
}

/// The status of a merge that was done: 1 where words are open, and that is to be reviewed.
fn status_of(review: bool, clean: bool) -> u8
    ensures { result ≡ status_of review clean }
{
    if review && !clean { 1 } else { 0 }
}

/// How a merge ended.
fn merge_ending<E: Write, F: Explains>(
    alloc: Global,
    faults: &mut E,
    files: &F,
    merge: Merge<'_>,
    outcome: Result<bool, MergeFault<Global>>,
) -> Ending
    ensures { MatchResult outcome
        (λ clean. (result.status ≡ status_of merge.entry.review clean)
        × IsSilent result.told.is_whole (E.contents faults.old) (E.contents faults.new))
        (λ fault. (result.status ≡ 1) × TellsMerge merge.entry.feed merge.entry.others.now fault
        result.told.is_whole (E.contents faults.old) (E.contents faults.new)) }
{
    let Merge {
        feed,
        others,
        review,
        ..
    } = merge;
    match outcome {
        Ok(clean) => ended(status_of(review, clean)),
        Err(fault) => {
            let cause = merge_cause(feed, others, &fault);
            let first = stopped(alloc, faults, files, true, cause);
            let told = explain_forks(alloc, faults, first.told, others, &fault);
            Ending { status: 1, told }
        }
    }
}

/// Merges feeds of other files into a stored one, and says how that ended: with status 1 also where words are open, if
/// that is to be reviewed.
pub fn merged<W: Write, E: Write, F: Files + Explains>(
    alloc: Global,
    merge: Merge<'_>,
    writer: &mut W,
    faults: &mut E,
    files: &mut F,
) -> Ending
    ensures within { result.status ≤ 1 }
    ensures done { result.status ≡ 0
        → IsMergedAs merge.entry.feed.now (texts_of merge.entry.others.now) merge.entry.forks merge.entry.review
        (F.shelf files.old) (F.shelf files.new) (W.contents writer.old) (W.contents writer.new) }
    ensures stopped { result.status ≡ 1
        → IsNotMerged merge.entry.feed merge.entry.others.now merge.entry.forks merge.entry.review
        (F.shelf files.old) (F.shelf files.new) (W.contents writer.old) (W.contents writer.new)
        result.told.is_whole (E.contents faults.old) (E.contents faults.new) }
{
    let outcome = merge_feeds(alloc, writer, files, merge.feed, merge.others, merge.forks);
    merge_ending(alloc, faults, files, merge, outcome)
}

/// How an export, or another report of a feed alone, ended.
pub fn export_ending<E: Write, F: Explains>(
    alloc: Global,
    faults: &mut E,
    files: &F,
    feed: &str,
    outcome: Result<(), ExportFault>,
) -> Ending
    ensures { MatchResult outcome (λ _. result.status ≡ 0)
        (λ fault. (result.status ≡ 1) × Reports (export_cause feed.entry fault) result.told.is_whole
        (E.contents faults.old) (E.contents faults.new)) }
{
    match outcome {
        Ok(()) => ended(0),
        Err(fault) => reported(alloc, faults, files, export_cause(feed, fault)),
    }
}

/// Writes the copy of a version of a stored feed as text, and says how that ended.
pub fn exported<W: Write, E: Write, F: Files + Explains>(
    alloc: Global,
    version: Version<'_>,
    writer: &mut W,
    faults: &mut E,
    files: &mut F,
) -> Ending
    ensures within { result.status ≤ 1 }
    ensures done { result.status ≡ 0 → Stays (F.shelf files.old) (F.shelf files.new)
        × IsExported version.entry (F.shelf files.old) (W.contents writer.old) (W.contents writer.new) }
    ensures stopped { result.status ≡ 1
        → IsNotExported version.entry (F.shelf files.old) (F.shelf files.new) (W.contents writer.old)
        (W.contents writer.new) result.told.is_whole (E.contents faults.old) (E.contents faults.new) }
{
    let outcome = export_feed(alloc, writer, files, version);
    export_ending(alloc, faults, files, version.feed, outcome)
}

/// How an import ended.
fn import_ending<E: Write, F: Explains>(
    alloc: Global,
    faults: &mut E,
    files: &F,
    feed: &str,
    site: u16,
    outcome: Result<(), ImportFault>,
) -> Ending
    ensures { MatchResult outcome (λ _. result.status ≡ 0)
        (λ fault. (result.status ≡ 1) × TellsOf true (import_cause feed.entry site fault) result.told.is_whole
        (E.contents faults.old) (E.contents faults.new)) }
{
    match outcome {
        Ok(()) => ended(0),
        Err(fault) => stopped(alloc, faults, files, true, import_cause(feed, site, fault)),
    }
}

/// Makes the copy of a stored feed the text of a reader, and says how that ended.
pub fn imported<R: Read, W: Write, E: Write, F: Files + Explains>(
    alloc: Global,
    import: Import<'_>,
    reader: &mut R,
    writer: &mut W,
    faults: &mut E,
    files: &mut F,
) -> Ending
    requires { 1 ≤ import.room.site }
    ensures within { result.status ≤ 1 }
    ensures done { result.status ≡ 0
        → IsImported import.entry.room import.entry.mode (F.shelf files.old) (F.shelf files.new)
        (R.remaining reader.old) (W.contents writer.old) (W.contents writer.new) }
    ensures stopped { result.status ≡ 1
        → IsNotImported import.entry.room import.entry.mode (F.shelf files.old) (F.shelf files.new)
        (R.remaining reader.old) (W.contents writer.old) (W.contents writer.new) result.told.is_whole
        (E.contents faults.old) (E.contents faults.new) }
{
    let Import { room, mode } = import;
    let outcome = import_text(alloc, reader, writer, files, room, mode);
    import_ending(alloc, faults, files, room.feed, room.site, outcome)
}

/// How a renewal ended.
fn renew_ending<E: Write, F: Explains>(
    alloc: Global,
    faults: &mut E,
    files: &F,
    new: &str,
    feed: &str,
    outcome: Result<(), RenewFault>,
) -> Ending
    ensures { MatchResult outcome (λ _. result.status ≡ 0)
        (λ fault. (result.status ≡ 1) × TellsOf true (renew_cause new.entry feed.entry fault) result.told.is_whole
        (E.contents faults.old) (E.contents faults.new)) }
{
    match outcome {
        Ok(()) => ended(0),
        Err(fault) => stopped(alloc, faults, files, true, renew_cause(new, feed, fault)),
    }
}

/// Begins a new feed with the copy and the settings of a stored one, and says how that ended.
pub fn renewed<W: Write, E: Write, F: Files + Explains>(
    alloc: Global,
    renewal: Renewal<'_>,
    writer: &mut W,
    faults: &mut E,
    files: &mut F,
) -> Ending
    requires { 1 ≤ renewal.site }
    ensures within { result.status ≤ 1 }
    ensures done { result.status ≡ 0
        → IsRenewed renewal.entry.new.now renewal.entry.feed.now renewal.entry.site (F.shelf files.old)
        (F.shelf files.new) (W.contents writer.old) (W.contents writer.new) }
    ensures stopped { result.status ≡ 1
        → IsNotMadeAnew renewal.entry.new renewal.entry.feed (F.shelf files.old) (F.shelf files.new)
        (W.contents writer.old) (W.contents writer.new) result.told.is_whole (E.contents faults.old)
        (E.contents faults.new) }
{
    let Renewal { new, feed, site } = renewal;
    let outcome = renew_feed(alloc, writer, files, new, feed, site);
    renew_ending(alloc, faults, files, new, feed, outcome)
}

/// How a renumbering ended.
fn renumber_ending<E: Write, F: Explains>(
    alloc: Global,
    faults: &mut E,
    files: &F,
    asked: Renumbering<'_>,
    outcome: Result<(), RenumberFault>,
) -> Ending
    ensures { MatchResult outcome (λ _. result.status ≡ 0)
        (λ fault. (result.status ≡ 1)
        × TellsOf true (renumber_cause asked.entry.feed asked.entry.other asked.entry.site fault)
        result.told.is_whole (E.contents faults.old) (E.contents faults.new)) }
{
    let Renumbering { feed, other, site } = asked;
    match outcome {
        Ok(()) => ended(0),
        Err(fault) => {
            let cause = renumber_cause(feed, other, site, fault);
            stopped(alloc, faults, files, true, cause)
        }
    }
}

/// Gives another number to the operations of a stored feed whose stamps another feed bears too, and says how that
/// ended.
pub fn renumbered<W: Write, E: Write, F: Files + Explains>(
    alloc: Global,
    asked: Renumbering<'_>,
    writer: &mut W,
    faults: &mut E,
    files: &mut F,
) -> Ending
    requires { 1 ≤ asked.site }
    ensures within { result.status ≤ 1 }
    ensures done { result.status ≡ 0
        → IsRenumbered asked.entry.feed.now asked.entry.other.now asked.entry.site (F.shelf files.old)
        (F.shelf files.new) (W.contents writer.old) (W.contents writer.new) }
    ensures stopped { result.status ≡ 1
        → IsNotNumbered asked.entry.feed asked.entry.other asked.entry.site (F.shelf files.old)
        (F.shelf files.new) (W.contents writer.old) (W.contents writer.new) result.told.is_whole
        (E.contents faults.old) (E.contents faults.new) }
{
    let outcome = renumber_feed(alloc, writer, files, asked.feed, asked.other, asked.site);
    renumber_ending(alloc, faults, files, asked, outcome)
}
