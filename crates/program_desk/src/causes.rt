//! The cause of what stopped, as its second line says it: which file it was, or which end of the program, and why.

ghost use Rattle.std.specs.Prelude.{◌≡◌, slice_get};
ghost use Rattle.program_desk.specs.Causes.{check_cause, desk_cause, difference_cause, export_cause, feed_cause};
ghost use Rattle.program_desk.specs.Causes.{feed_at, file_cause, punch_cause};
ghost use Rattle.program_desk.specs.Causes.{import_cause, input_cause, keep_cause, last_cause, merge_cause};
ghost use Rattle.program_desk.specs.Causes.{number_cause, other_cause, preview_cause, reading_cause, renew_cause};
ghost use Rattle.program_desk.specs.Causes.{renumber_cause, replace_cause, revision_cause, room_cause, sheet_cause};
ghost use Rattle.program_desk.specs.Causes.{comparison_cause, name_of, named_by, proof_cause, unread_cause};
ghost use Rattle.program_desk.specs.Causes.{sorts_cause, stop_cause, take_cause, text_cause, trial_cause};
ghost use Rattle.program_desk.specs.Causes.{unset_cause, unstored_cause};

use desk_codec::FeedFault;
use desk_script::{MAX_SHEET, RoomFault, RunFault, SheetFault};
use feed_check::CheckFault;
use feed_edit::{
    ExchangeFault, ExportFault, FeedTrouble, ImportFault, InputFault, KeepFault, MAX_TEXT,
    MergeFault, PlaceFault, ReplaceFault, RevisionFault, TakeFault, Version,
};
use feed_files::{FileRefusal, Kind};
use feed_sites::{DifferenceFault, NumberFault, RenewFault, RenumberFault};
use feed_stored::LastFault;
use script_answers::Refusal;
use std::alloc::Allocator;
use text_copy::TextFault;
use view_preview::{Job, PreviewFault, Source, Sources, TrialFault};
use view_proof::OtherNumber;
use view_punch::{Galleys, Stop};
use view_ribbon::{ComparisonFault, Pair, ReadingFault};

/// Which text is no copy.
#[derive(Clone, Copy)]
pub enum Origin {
    /// That of standard input.
    Input,
    /// The text that is to be replaced.
    Old,
    /// The text that is to take its place.
    New,
    /// The text that is looked for.
    Sought,
}

/// What stopped something, where the first line says all.
#[derive(Clone, Copy)]
pub enum Said {
    /// Memory ran out for the words of the command line, or for what a check writes.
    NoMemory,
    /// Two rooms used one number. Another line has the counters.
    Forks,
    /// The text has no place in the copy.
    NoPlace,
    /// The text has so many places.
    ManyPlaces(usize),
    /// So many symbols would be deleted of so many.
    Wipes(usize, usize),
    /// A text is no copy: its first fault, by line and column.
    Text(Origin, u64, u64, text_copy::Cause),
}

/// What stopped something: which file, and the cause.
#[derive(Clone, Copy)]
pub enum Cause<'a> {
    /// The first line says all.
    Said(Said),
    /// Memory ran out, over this file or over what was read with it.
    NoMemory(&'a str),
    /// A call failed of this file.
    File(&'a str),
    /// The bytes of this file are no feed.
    Feed(&'a str, FeedFault),
    /// This feed has more operations than a desk can hold.
    TooMany(&'a str),
    /// With the operations of this feed there would be more than a desk can hold.
    Full(&'a str),
    /// The text does not fit into this feed.
    Unfit(&'a str, RevisionFault),
    /// This feed holds less of a site than was stored here: the site, the counter that it made, and the one that is
    /// held.
    Older(&'a str, u16, u64, u64),
    /// This name is that of a file of another kind, which is left.
    Taken(&'a str, Kind),
    /// A file has this name already.
    There(&'a str),
    /// This name is that of a file from which this output would be made.
    Source(&'a str, Output),
    /// This number does not serve.
    Number(u16, NumberFault),
    /// Of these files, that of a case and that of a wedge, one is not read, or is refused.
    CaseOrWedge(&'a str, &'a str, Refusal),
    /// This file of a case is not read, or is refused.
    Case(&'a str, Refusal),
    /// The copy of this feed has faults, and they are on standard output.
    CopyFaults(&'a str),
    /// The job of this feed has faults, and they are on standard output.
    NoRibbon(&'a str),
    /// The number of the case or of the wedge of this file is not that of its setting in this feed.
    Other(&'a str, &'a str, OtherNumber),
    /// This file's text is no copy: its first fault, by line and column.
    Unread(&'a str, u64, u64, text_copy::Cause),
    /// This file's text is longer than any that is set.
    LongText(&'a str),
    /// The ribbon that was to be stored under this name is longer than any file that is read.
    LongRibbon(&'a str),
    /// This text of `--set` names no setting, or gives it no value that it may have.
    NoSetting(&'a str),
    /// The line of this number of a sheet was refused: its answer says why, and this feed is as it was.
    Line(&'a str, u64),
    /// Standard input failed.
    Input,
    /// Standard input did not come to its end within `MAX_READS` calls of `read`.
    Endless,
    /// Standard input has more than so many bytes.
    TooLong(usize),
    /// Standard output failed, and nothing is stored for that.
    Output,
    /// Standard output failed, to which a report goes. Nothing was to be stored.
    ReportOutput,
}

/// A file that is made.
#[derive(Clone, Copy)]
pub enum Output {
    Ribbon,
    Picture,
    Document,
}

/// The cause where a file was refused.
pub fn file_cause<'a>(name: &'a str, why: FileRefusal) -> Cause<'a>
    ensures { result ≡ file_cause name.entry why }
{
    match why {
        FileRefusal::NoMemory => Cause::NoMemory(name),
        FileRefusal::Missing | FileRefusal::Device | FileRefusal::Large => Cause::File(name),
    }
}

/// The cause where the feed of a file does not come in.
fn feed_cause<'a>(feed: &'a str, why: FeedTrouble) -> Cause<'a>
    ensures { result ≡ feed_cause feed.entry why }
{
    match why {
        FeedTrouble::File(refusal) => file_cause(feed, refusal),
        FeedTrouble::Feed(fault) => Cause::Feed(feed, fault),
        FeedTrouble::Full => Cause::Full(feed),
        FeedTrouble::NoMemory => Cause::NoMemory(feed),
    }
}

/// The cause where a run of commands on a feed stopped.
pub fn desk_cause<'a>(feed: &'a str, fault: RunFault) -> Cause<'a>
    ensures { result ≡ desk_cause feed.entry fault }
{
    match fault {
        RunFault::Read => Cause::Input,
        RunFault::Write => Cause::Output,
        RunFault::TooLong => Cause::Endless,
        RunFault::NoMemory => Cause::NoMemory(feed),
        RunFault::Feed(why) => Cause::Feed(feed, why),
        RunFault::File(_) => Cause::File(feed),
        RunFault::Opening(_) => Cause::TooMany(feed),
    }
}

/// The cause where a feed was not let in.
fn last_cause<'a>(feed: &'a str, site: u16, why: LastFault) -> Cause<'a>
    ensures { result ≡ last_cause feed.entry site why }
{
    match why {
        LastFault::Older { made, held } => Cause::Older(feed, site, made, held),
        LastFault::NoMemory => Cause::NoMemory(feed),
    }
}

/// The cause where a run of commands in a room stopped.
pub fn room_cause<'a>(feed: &'a str, site: u16, fault: RoomFault) -> Cause<'a>
    ensures { result ≡ room_cause feed.entry site fault }
{
    match fault {
        RoomFault::Older { made, held } => Cause::Older(feed, site, made, held),
        RoomFault::Run(fault) => desk_cause(feed, fault),
    }
}

/// The cause where a sheet on a feed stopped. A sheet is read whole, and has a limit.
fn sheet_cause<'a>(feed: &'a str, fault: RunFault) -> Cause<'a>
    ensures { result ≡ sheet_cause feed.entry fault }
{
    match fault {
        RunFault::TooLong => Cause::TooLong(MAX_SHEET),
        RunFault::Read
        | RunFault::Write
        | RunFault::NoMemory
        | RunFault::Feed(_)
        | RunFault::File(_)
        | RunFault::Opening(_) => desk_cause(feed, fault),
    }
}

/// The cause where a sheet on a feed stopped, at a line of it, or for the feed or the run.
pub fn stop_cause<'a>(feed: &'a str, site: u16, fault: SheetFault) -> Cause<'a>
    ensures { result ≡ stop_cause feed.entry site fault }
{
    match fault {
        SheetFault::Line(number) => Cause::Line(feed, number),
        SheetFault::Older { made, held } => Cause::Older(feed, site, made, held),
        SheetFault::Run(fault) => sheet_cause(feed, fault),
    }
}

/// The cause where a stored feed was not taken.
fn take_cause<'a>(feed: &'a str, why: TakeFault) -> Cause<'a>
    ensures { result ≡ take_cause feed.entry why }
{
    match why {
        TakeFault::Untaken(refusal) => file_cause(feed, refusal),
        TakeFault::Feed(trouble) => feed_cause(feed, trouble),
    }
}

/// The cause where a text is no copy.
pub fn text_cause<'a>(feed: &'a str, origin: Origin, why: TextFault) -> Cause<'a>
    ensures { result ≡ text_cause feed.entry origin why }
{
    match why {
        TextFault::At {
            line,
            column,
            cause,
        } => Cause::Said(Said::Text(origin, line, column, cause)),
        TextFault::NoMemory => Cause::NoMemory(feed),
    }
}

/// The cause where no text was read.
fn input_cause<'a>(feed: &'a str, why: InputFault) -> Cause<'a>
    ensures { result ≡ input_cause feed.entry why }
{
    match why {
        InputFault::Read => Cause::Input,
        InputFault::TooLong => Cause::TooLong(MAX_TEXT),
        InputFault::Text(fault) => text_cause(feed, Origin::Input, fault),
        InputFault::NoMemory => Cause::NoMemory(feed),
    }
}

/// The cause where a copy was not made a text.
fn revision_cause<'a>(feed: &'a str, why: RevisionFault) -> Cause<'a>
    ensures { result ≡ revision_cause feed.entry why }
{
    match why {
        RevisionFault::NoMemory => Cause::NoMemory(feed),
        RevisionFault::Full | RevisionFault::ClockFull | RevisionFault::Value => Cause::Unfit(
            feed, why,
        ),
    }
}

/// The cause where what was done was not written, or the feed not stored.
fn keep_cause<'a>(feed: &'a str, why: KeepFault) -> Cause<'a>
    ensures { result ≡ keep_cause feed.entry why }
{
    match why {
        KeepFault::Write => Cause::Output,
        KeepFault::Unstored(refusal) => file_cause(feed, refusal),
        KeepFault::NoMemory => Cause::NoMemory(feed),
    }
}

/// The cause where one of some feeds does not come in, by its place among them.
fn other_cause<'a>(feed: &'a str, others: &'a [&'a str], at: usize, why: FeedTrouble) -> Cause<'a>
    ensures { result ≡ other_cause feed.entry (slice_get others.now at) why }
{
    if at >= others.len() {
        return feed_cause(feed, why);
    }
    feed_cause(others[at], why)
}

/// The cause where feeds were not merged. Of a number that was used twice the counters have a line of their own.
pub fn merge_cause<'a, A: Allocator>(
    feed: &'a str,
    others: &'a [&'a str],
    fault: &MergeFault<A>,
) -> Cause<'a>
    ensures { result ≡ merge_cause feed.entry others.now fault.now }
{
    match fault {
        MergeFault::Take(why) => take_cause(feed, *why),
        MergeFault::Other { at, why } => other_cause(feed, others, *at, *why),
        MergeFault::Forks { .. } => Cause::Said(Said::Forks),
        MergeFault::Keep(why) => keep_cause(feed, *why),
    }
}

/// The cause where a feed was not written as text.
pub fn export_cause<'a>(feed: &'a str, fault: ExportFault) -> Cause<'a>
    ensures { result ≡ export_cause feed.entry fault }
{
    match fault {
        ExportFault::Feed(why) => feed_cause(feed, why),
        ExportFault::Write => Cause::ReportOutput,
        ExportFault::NoMemory => Cause::NoMemory(feed),
    }
}

/// The cause where a copy was not made a text that is read.
pub fn import_cause<'a>(feed: &'a str, site: u16, fault: ImportFault) -> Cause<'a>
    ensures { result ≡ import_cause feed.entry site fault }
{
    match fault {
        ImportFault::Take(why) => take_cause(feed, why),
        ImportFault::Last(why) => last_cause(feed, site, why),
        ImportFault::Input(why) => input_cause(feed, why),
        ImportFault::Revision(why) => revision_cause(feed, why),
        ImportFault::Wipes { deleted, of } => Cause::Said(Said::Wipes(deleted, of)),
        ImportFault::Keep(why) => keep_cause(feed, why),
    }
}

/// The cause where a feed got no other number for what another feed bears under the same.
pub fn renumber_cause<'a>(
    feed: &'a str,
    other: &'a str,
    site: u16,
    fault: RenumberFault,
) -> Cause<'a>
    ensures { result ≡ renumber_cause feed.entry other.entry site fault }
{
    match fault {
        RenumberFault::Take(why) => take_cause(feed, why),
        RenumberFault::Other(why) => feed_cause(other, why),
        RenumberFault::Number(NumberFault::NoMemory) => Cause::NoMemory(feed),
        RenumberFault::Number(why) => Cause::Number(site, why),
        RenumberFault::Keep(why) => keep_cause(feed, why),
    }
}

/// The cause where no new feed was made of a stored one.
pub fn renew_cause<'a>(new: &'a str, feed: &'a str, fault: RenewFault) -> Cause<'a>
    ensures { result ≡ renew_cause new.entry feed.entry fault }
{
    match fault {
        RenewFault::Take(why) => take_cause(new, why),
        RenewFault::There => Cause::There(new),
        RenewFault::Feed(why) => feed_cause(feed, why),
        RenewFault::Keep(why) => keep_cause(new, why),
    }
}

/// The cause where nothing was replaced. The places are on standard output.
pub fn replace_cause<'a>(feed: &'a str, site: u16, fault: ReplaceFault) -> Cause<'a>
    ensures { result ≡ replace_cause feed.entry site fault }
{
    match fault {
        ReplaceFault::Exchange(ExchangeFault::NoMemory) => Cause::NoMemory(feed),
        ReplaceFault::Exchange(ExchangeFault::Old(why)) => text_cause(feed, Origin::Old, why),
        ReplaceFault::Exchange(ExchangeFault::New(why)) => text_cause(feed, Origin::New, why),
        ReplaceFault::Take(why) => take_cause(feed, why),
        ReplaceFault::Last(why) => last_cause(feed, site, why),
        ReplaceFault::Place(PlaceFault::NoMemory) => Cause::NoMemory(feed),
        ReplaceFault::Place(PlaceFault::Write) => Cause::ReportOutput,
        ReplaceFault::Place(PlaceFault::NoPlace) => Cause::Said(Said::NoPlace),
        ReplaceFault::Place(PlaceFault::ManyPlaces(count)) => Cause::Said(Said::ManyPlaces(count)),
        ReplaceFault::Revision(why) => revision_cause(feed, why),
        ReplaceFault::Keep(why) => keep_cause(feed, why),
    }
}

/// The cause where feeds are not compared.
pub fn difference_cause<'a>(one: &'a str, other: &'a str, fault: DifferenceFault) -> Cause<'a>
    ensures { result ≡ difference_cause one.entry other.entry fault }
{
    match fault {
        DifferenceFault::One(why) => feed_cause(one, why),
        DifferenceFault::Other(why) => feed_cause(other, why),
        DifferenceFault::Write => Cause::ReportOutput,
        DifferenceFault::NoMemory => Cause::NoMemory(one),
    }
}

/// The cause where what is made of a file was not stored under its own name.
fn unstored_cause<'a>(source: &'a str, target: &'a str, why: FileRefusal) -> Cause<'a>
    ensures { result ≡ unstored_cause source.entry target.entry why }
{
    match why {
        FileRefusal::NoMemory => Cause::NoMemory(source),
        FileRefusal::Missing | FileRefusal::Device | FileRefusal::Large => Cause::File(target),
    }
}

/// The cause where the number of a case or of a wedge is another: its file, the feed with the setting, and both
/// numbers.
fn number_cause<'a>(from: &Sources<'a>, other: OtherNumber) -> Cause<'a>
    ensures { result ≡ number_cause from.now other }
{
    let feed = from.version.feed;
    match other {
        OtherNumber::Case { .. } => Cause::Other(from.case, feed, other),
        OtherNumber::Wedge { .. } => Cause::Other(from.wedge, feed, other),
    }
}

/// The cause where one does not see what one asked for. The faults of a copy or of a job are on standard output.
pub fn preview_cause<'a>(from: &Sources<'a>, target: &'a str, fault: PreviewFault) -> Cause<'a>
    ensures { result ≡ preview_cause from.now target.entry fault }
{
    match fault {
        PreviewFault::Feed(why) => feed_cause(from.version.feed, why),
        PreviewFault::Text(why) => text_cause(from.version.feed, Origin::Sought, why),
        PreviewFault::TooLong => Cause::LongText(from.version.feed),
        PreviewFault::Input(why) => Cause::CaseOrWedge(from.case, from.wedge, why),
        PreviewFault::CopyFaults => Cause::CopyFaults(from.version.feed),
        PreviewFault::Faulty(None) => Cause::NoRibbon(from.version.feed),
        PreviewFault::Faulty(Some(other)) => number_cause(from, other),
        PreviewFault::Write => Cause::ReportOutput,
        PreviewFault::Taken(kind) => Cause::Taken(target, kind),
        PreviewFault::Unstored(why) => unstored_cause(from.version.feed, target, why),
        PreviewFault::NoMemory => Cause::NoMemory(from.version.feed),
    }
}

/// The feed at a place: 0 is the first.
fn feed_at<'a>(from: &Galleys<'a>, at: usize) -> &'a str
    ensures { result ≡ feed_at from.now at }
{
    if at == 0 {
        return from.first;
    }
    let other = at - 1;
    if other >= from.others.len() {
        return from.first;
    }
    from.others[other]
}

/// The cause where no ribbon was stored of feeds: that of the feed that stopped it.
pub fn punch_cause<'a>(from: &Galleys<'a>, target: &'a str, stop: Stop) -> Cause<'a>
    ensures { result ≡ punch_cause from.now target.entry stop }
{
    let version = Version {
        feed: feed_at(from, stop.feed),
        until: None,
    };
    let source = Sources {
        version,
        case: from.case,
        wedge: from.wedge,
    };
    match stop.why {
        PreviewFault::TooLong => Cause::LongRibbon(target),
        other => preview_cause(&source, target, other),
    }
}

/// The name of what is set.
pub fn name_of<'a>(source: Source<'a>) -> &'a str
    ensures { result ≡ name_of source.entry }
{
    match source {
        Source::Feed(version) => version.feed,
        Source::Text { name, .. } => name,
    }
}

/// The names of what is set, and of the case and the wedge.
fn named_by<'a>(job: &Job<'a>) -> Sources<'a>
    ensures { result ≡ named_by job.now }
{
    let version = Version {
        feed: name_of(job.source),
        until: None,
    };
    Sources {
        version,
        case: job.case,
        wedge: job.wedge,
    }
}

/// The cause where a file's text is no copy.
fn unread_cause<'a>(name: &'a str, why: TextFault) -> Cause<'a>
    ensures { result ≡ unread_cause name.entry why }
{
    match why {
        TextFault::At {
            line,
            column,
            cause,
        } => Cause::Unread(name, line, column, cause),
        TextFault::NoMemory => Cause::NoMemory(name),
    }
}

/// The cause where one does not see a galley that one asked for.
pub fn proof_cause<'a>(job: &Job<'a>, target: &'a str, fault: PreviewFault) -> Cause<'a>
    ensures { result ≡ proof_cause job.now target.entry fault }
{
    match fault {
        PreviewFault::Text(why) => unread_cause(name_of(job.source), why),
        other => preview_cause(&named_by(job), target, other),
    }
}

/// The cause where a ribbon is not read or not drawn.
pub fn reading_cause<'a>(
    from: &view_ribbon::Sources<'a>,
    target: &'a str,
    fault: ReadingFault,
) -> Cause<'a>
    ensures { result ≡ reading_cause from.now target.entry fault }
{
    match fault {
        ReadingFault::Ribbon(_) => Cause::File(from.ribbon),
        ReadingFault::Input(why) => Cause::CaseOrWedge(from.case, from.wedge, why),
        ReadingFault::Write => Cause::ReportOutput,
        ReadingFault::Taken(kind) => Cause::Taken(target, kind),
        ReadingFault::Unstored(why) => unstored_cause(from.ribbon, target, why),
        ReadingFault::NoMemory => Cause::NoMemory(from.ribbon),
    }
}

/// The cause where ribbons are not compared.
pub fn comparison_cause<'a>(pair: &Pair<'a>, fault: ComparisonFault) -> Cause<'a>
    ensures { result ≡ comparison_cause pair.now fault }
{
    match fault {
        ComparisonFault::One(_) => Cause::File(pair.one),
        ComparisonFault::Other(_) => Cause::File(pair.other),
        ComparisonFault::Input(why) => Cause::CaseOrWedge(pair.case, pair.wedge, why),
        ComparisonFault::Write => Cause::ReportOutput,
        ComparisonFault::NoMemory => Cause::NoMemory(pair.one),
    }
}

/// The cause where sorts are not listed.
pub fn sorts_cause<'a>(feed: &'a str, case: &'a str, fault: PreviewFault) -> Cause<'a>
    ensures { result ≡ sorts_cause feed.entry case.entry fault }
{
    let version = Version { feed, until: None };
    let from = Sources {
        version,
        case,
        wedge: case,
    };
    match fault {
        PreviewFault::Input(why) => Cause::Case(case, why),
        other => preview_cause(&from, case, other),
    }
}

/// The cause where texts try no settings.
pub fn trial_cause<'a>(sets: &'a [&'a str], fault: TrialFault) -> Cause<'a>
    ensures { result ≡ trial_cause sets.now fault }
{
    match fault {
        TrialFault::NoSetting(place) => unset_cause(sets, place),
        TrialFault::NoMemory => Cause::Said(Said::NoMemory),
    }
}

/// The cause where the text at this place tries no setting.
fn unset_cause<'a>(sets: &'a [&'a str], place: usize) -> Cause<'a>
    ensures { result ≡ unset_cause (slice_get sets.now place) }
{
    if place >= sets.len() {
        return Cause::Said(Said::NoMemory);
    }
    Cause::NoSetting(sets[place])
}

/// The cause where files are not checked to their end.
pub fn check_cause(fault: CheckFault) -> Cause<'static>
    ensures { result ≡ check_cause fault }
{
    match fault {
        CheckFault::NoMemory => Cause::Said(Said::NoMemory),
        CheckFault::Write => Cause::ReportOutput,
    }
}
