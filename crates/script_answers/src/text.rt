//! Answers, and what they say.

ghost use Rattle.std.specs.Prelude.{◌≡◌, ◌+◌, ◌<◌, ◌≤◌, ◌++◌, ◌∷◌, [], true, false, length, List, IfSome, OnOk, codes};
ghost use Rattle.std.specs.Prelude.{is_some, string_bytes, ℕ};
ghost use Rattle.std.specs.Fmt.{decimal, signed_decimal};
ghost use Rattle.std.specs.Io.{StartsWith};
ghost use Rattle.arrayvec.specs.ArrayString.{array_string_len};
ghost use Rattle.desk_ops.specs.Words.{copy_fault_words, stamp_words};
ghost use Rattle.script_answers.specs.Reply.{is_long, reply_values, lines_reported};
ghost use Rattle.script_answers.specs.Reply as replies;
ghost use Rattle.script_answers.specs.Text.{hex_digit, hex_text, refusal_text, cause_number, fault_text, separator};
ghost use Rattle.script_answers.specs.Text.{list_text, faults_text, value_text, settings_text, job_fault_text};
ghost use Rattle.script_answers.specs.Text.{lines_text, text};

use crate::put_copy;
use arrayvec::ArrayString;
use desk_caster::CastLine;
use desk_codec::{FeedFault, FeedWhy};
use desk_job::{JobFault, JobFaults};
use desk_ops::{CopyFault, Stamp, Symbol, Unlawful};
use desk_replica::Settings;
use itoa::{Buffer, Integer};
use std::alloc::{AllocError, Allocator};

/// Why a line changed nothing, or why it stopped.
#[derive(Clone, Copy, Debug, PartialEq, Eq)]
pub enum Refusal {
    /// The line is longer than 65,536 bytes.
    Line,
    /// The line is of no command's form.
    Command,
    /// No site may have the number.
    Number,
    /// The site is there already.
    Known,
    /// 16 sites are there.
    Sites,
    /// A named site is not there.
    Site,
    /// A place is out of range.
    Place,
    /// A symbol or a value is not lawful.
    Value,
    /// Bytes are no feed.
    Feed(FeedFault),
    /// A file is not there.
    FileMissing,
    /// The files' device failed.
    FileDevice,
    /// A file has more bytes than may be.
    FileLarge,
    /// A case file's bytes are no case, by the number of the fault.
    Case(u8),
    /// A wedge file's bytes are no wedge, by the number of the fault.
    Wedge(u8),
    /// As many operations are held as may be.
    Full,
    /// The greatest counter is held.
    Clock,
    /// Memory was refused.
    Memory,
}

/// The bytes of a short answer and its end of line fit in these.
const SHORT: usize = 96;

/// A text of at most 96 bytes, which cannot run out of memory.
pub type Short = ArrayString<SHORT>;

fn put_number(out: &mut Short, n: u64)
    requires { array_string_len out.old + 20 ≤ SHORT }
    ensures text { out.new.bytes ≡ out.old.bytes ++ decimal n }
    ensures len { array_string_len out.new ≤ array_string_len out.old + 20 }
{
    let mut digits = Buffer::new();
    out.push_str(digits.format(n));
}

/// The number of a cause.
fn cause_number(cause: Unlawful) -> u8
    ensures { result ≡ cause_number cause }
{
    match cause {
        Unlawful::Counter => 1,
        Unlawful::Site => 2,
        Unlawful::Target => 3,
        Unlawful::Symbol => 4,
        Unlawful::Key => 5,
        Unlawful::Value => 6,
    }
}

/// Writes a word, and a number behind it.
fn put_numbered(out: &mut Short, word: &str, n: u64)
    requires { array_string_len out.old + length word.now + 20 ≤ SHORT }
    ensures text { out.new.bytes ≡ out.old.bytes ++ word.now ++ decimal n }
    ensures len { array_string_len out.new ≤ array_string_len out.old + length word.now + 20 }
{
    out.push_str(word);
    put_number(out, n);
}

fn put_fault(out: &mut Short, why: FeedWhy)
    requires { array_string_len out.old + 29 ≤ SHORT }
    ensures text { out.new.bytes ≡ out.old.bytes ++ fault_text why }
    ensures len { array_string_len out.new ≤ array_string_len out.old + 29 }
{
    match why {
        FeedWhy::Magic => out.push_str("magic"),
        FeedWhy::Kind => out.push_str("kind"),
        FeedWhy::Unlawful(cause) => {
            put_numbered(out, "unlawful ", u64::from(cause_number(cause)));
        }
        FeedWhy::Cut => out.push_str("cut"),
        FeedWhy::Run => out.push_str("run"),
    }
}

/// Writes a feed's fault: where it is, and what.
fn put_feed_fault(out: &mut Short, fault: FeedFault)
    requires { array_string_len out.old + 55 ≤ SHORT }
    ensures text { out.new.bytes ≡ out.old.bytes ++ codes "feed " ++ decimal fault.at ++ codes " "
        ++ fault_text fault.why }
    ensures len { array_string_len out.new ≤ array_string_len out.old + 55 }
{
    put_numbered(out, "feed ", fault.at);
    out.push_str(" ");
    put_fault(out, fault.why);
}

/// Writes a refusal at the end.
fn put_refusal(out: &mut Short, why: Refusal)
    requires { array_string_len out.old + 55 ≤ SHORT }
    ensures text { out.new.bytes ≡ out.old.bytes ++ refusal_text why }
    ensures len { array_string_len out.new ≤ array_string_len out.old + 55 }
{
    match why {
        Refusal::Line => out.push_str("line"),
        Refusal::Command => out.push_str("command"),
        Refusal::Number => out.push_str("number"),
        Refusal::Known => out.push_str("known"),
        Refusal::Sites => out.push_str("sites"),
        Refusal::Site => out.push_str("site"),
        Refusal::Place => out.push_str("place"),
        Refusal::Value => out.push_str("value"),
        Refusal::Feed(fault) => put_feed_fault(out, fault),
        Refusal::FileMissing => out.push_str("file missing"),
        Refusal::FileDevice => out.push_str("file device"),
        Refusal::FileLarge => out.push_str("file large"),
        Refusal::Case(fault) => put_numbered(out, "case ", u64::from(fault)),
        Refusal::Wedge(fault) => put_numbered(out, "wedge ", u64::from(fault)),
        Refusal::Full => out.push_str("full"),
        Refusal::Clock => out.push_str("clock"),
        Refusal::Memory => out.push_str("memory"),
    }
}

/// What one line is answered.
#[derive(Drop)]
pub enum Reply<A: Allocator + Copy> {
    Done,
    /// An operation was made, with this stamp.
    Made(Stamp),
    /// Operations were made, with stamps from the first to the last.
    MadeMany(Stamp, Stamp),
    /// Operations were taken.
    Counted { new: usize, known: usize },
    Copy(Vec<Symbol, A>),
    Feed(Vec<u8, A>),
    Faults(Vec<CopyFault, A>),
    Settings(Settings),
    Ribbon(Vec<u8, A>),
    NoRibbon(JobFaults<A>),
    Lines(Vec<CastLine<A>, A>),
    Refused(Refusal),
    /// So many operations were taken before the refusal.
    Stopped(usize, Refusal),
}

/// A number below 16 as a hexadecimal digit in lower case.
fn hex_digit(n: u8) -> &'static str
    requires { n < 16 }
    ensures { result.now ≡ hex_digit n ∷ [] }
{
    match n {
        0 => "0",
        1 => "1",
        2 => "2",
        3 => "3",
        4 => "4",
        5 => "5",
        6 => "6",
        7 => "7",
        8 => "8",
        9 => "9",
        10 => "a",
        11 => "b",
        12 => "c",
        13 => "d",
        14 => "e",
        15 => "f",
        _ => {
            prove!(false);
            ""
        }
    }
}

/// Writes bytes in hexadecimal at the end.
#[tactic(auto, using(crate::proofs::Prefixes::prefixes))]
fn put_hex<A: Allocator + Copy>(out: &mut String<A>, bytes: &[u8]) -> Result<(), AllocError>
    ensures text { OnOk result (string_bytes out.new ≡ string_bytes out.old ++ hex_text bytes.now) }
    ensures prefix { StartsWith (string_bytes out.new) (string_bytes out.old) }
{
    for b in bytes {
        out.push_str(hex_digit(*b / 16))?;
        out.push_str(hex_digit(*b % 16))?;
    }
    Ok(())
}

fn put_stamp(out: &mut Short, stamp: Stamp)
    requires { array_string_len out.old + 41 ≤ SHORT }
    ensures text { out.new.bytes ≡ out.old.bytes ++ stamp_words stamp }
    ensures len { array_string_len out.new ≤ array_string_len out.old + 41 }
{
    put_number(out, stamp.counter);
    put_numbered(out, ".", u64::from(stamp.site));
}

fn stamp_of(stamp: Stamp) -> Short
    ensures { result.bytes ≡ stamp_words stamp }
{
    let mut out = Short::new();
    put_stamp(&mut out, stamp);
    out
}

/// Writes the faults of a copy at the end, or that there are none.
#[tactic(auto, using(crate::proofs::Prefixes::prefixes))]
fn put_faults<A: Allocator + Copy>(
    out: &mut String<A>,
    faults: &[CopyFault],
) -> Result<(), AllocError>
    ensures text { OnOk result (string_bytes out.new ≡ string_bytes out.old ++ faults_text faults.now) }
    ensures prefix { StartsWith (string_bytes out.new) (string_bytes out.old) }
{
    if faults.is_empty() {
        return out.push_str("faults none");
    }
    out.push_str("faults")?;
    put_list(out, faults)
}

/// What stands before the first of a list, and before each other.
fn separator(is_first: bool) -> &'static str
    ensures { result.now ≡ separator is_first }
{
    if is_first { " " } else { ", " }
}

/// What stands in a list.
trait Entry: Copy {
    /// What is written of it.
    ghost words: { Self → List ℕ };

    /// Writes it at the end.
    fn put_words<A: Allocator + Copy>(self, out: &mut String<A>) -> Result<(), AllocError>
        ensures text { OnOk result (string_bytes out.new ≡ string_bytes out.old ++ words self) }
        ensures prefix { StartsWith (string_bytes out.new) (string_bytes out.old) };
}

impl Entry for CopyFault {
    ghost words = { copy_fault_words };

    #[tactic(auto, using(crate::proofs::Prefixes::prefixes))]
    fn put_words<A: Allocator + Copy>(self, out: &mut String<A>) -> Result<(), AllocError> {
        out.push_str(self.kind.name())?;
        out.push_str(" ")?;
        out.push_str(stamp_of(self.stamp).as_str())
    }
}

/// Writes each behind a space, or a comma and a space.
#[tactic(auto, using(crate::proofs::Prefixes::prefixes))]
fn put_list<A: Allocator + Copy, E: Entry>(
    out: &mut String<A>,
    entries: &[E],
) -> Result<(), AllocError>
    ensures text { OnOk result (string_bytes out.new ≡ string_bytes out.old ++ list_text E.words true entries.now) }
    ensures prefix { StartsWith (string_bytes out.new) (string_bytes out.old) }
{
    let mut is_first = true;
    for entry in entries {
        out.push_str(separator(is_first))?;
        entry.put_words(out)?;
        is_first = false;
    }
    Ok(())
}

/// Writes a number at the end.
#[tactic(auto, using(crate::proofs::Prefixes::prefixes))]
fn put_decimal<A: Allocator + Copy, N: Integer>(out: &mut String<A>, n: N) -> Result<(), AllocError>
    ensures text { OnOk result (string_bytes out.new ≡ string_bytes out.old ++ N.text n) }
    ensures prefix { StartsWith (string_bytes out.new) (string_bytes out.old) }
{
    let mut digits = Buffer::new();
    out.push_str(digits.format(n))
}

/// Writes a setting's value at the end, or that it has none.
#[tactic(auto, using(crate::proofs::Prefixes::prefixes))]
fn put_value<A: Allocator + Copy>(out: &mut String<A>, value: Option<u32>) -> Result<(), AllocError>
    ensures text { OnOk result (string_bytes out.new ≡ string_bytes out.old ++ value_text value) }
    ensures prefix { StartsWith (string_bytes out.new) (string_bytes out.old) }
{
    match value {
        None => out.push_str("-"),
        Some(value) => put_decimal(out, value),
    }
}

/// Writes a setting's name and its value at the end.
#[tactic(auto, using(crate::proofs::Prefixes::prefixes))]
fn put_setting<A: Allocator + Copy>(
    out: &mut String<A>,
    name: &str,
    value: Option<u32>,
) -> Result<(), AllocError>
    ensures text { OnOk result (string_bytes out.new ≡ string_bytes out.old ++ name.now ++ value_text value) }
    ensures prefix { StartsWith (string_bytes out.new) (string_bytes out.old) }
{
    out.push_str(name)?;
    put_value(out, value)
}

/// Writes the settings of the job at the end.
#[tactic(auto, using(crate::proofs::Prefixes::prefixes))]
fn put_settings<A: Allocator + Copy>(
    out: &mut String<A>,
    settings: &Settings,
) -> Result<(), AllocError>
    ensures text { OnOk result (string_bytes out.new ≡ string_bytes out.old ++ settings_text settings.now) }
    ensures prefix { StartsWith (string_bytes out.new) (string_bytes out.old) }
{
    put_setting(out, "measure=", settings.measure)?;
    put_setting(out, " tight=", settings.tight)?;
    put_setting(out, " loose=", settings.loose)?;
    put_setting(out, " case=", settings.case)?;
    put_setting(out, " wedge=", settings.wedge)
}

/// Writes words, and a number behind them.
#[tactic(auto, using(crate::proofs::Prefixes::prefixes))]
fn put_counted<A: Allocator + Copy>(
    out: &mut String<A>,
    words: &str,
    n: usize,
) -> Result<(), AllocError>
    ensures text { OnOk result (string_bytes out.new ≡ string_bytes out.old ++ words.now ++ decimal n) }
    ensures prefix { StartsWith (string_bytes out.new) (string_bytes out.old) }
{
    out.push_str(words)?;
    put_decimal(out, n)
}

impl Entry for JobFault {
    ghost words = { job_fault_text };

    #[tactic(auto, using(crate::proofs::Prefixes::prefixes))]
    fn put_words<A: Allocator + Copy>(self, out: &mut String<A>) -> Result<(), AllocError> {
        match self {
            JobFault::MissingSetting(key) => {
                out.push_str("missing ")?;
                out.push_str(key.name())
            }
            JobFault::OtherCase => out.push_str("other case"),
            JobFault::OtherWedge => out.push_str("other wedge"),
            JobFault::Crossed => out.push_str("crossed"),
            JobFault::FillOrder => out.push_str("fill order"),
            JobFault::SpaceVanishes => out.push_str("space vanishes"),
            JobFault::NoMatrix(place) => put_counted(out, "no matrix ", place),
            JobFault::TooWide(line) => put_counted(out, "too wide ", line),
            JobFault::TooLoose(line) => put_counted(out, "too loose ", line),
            JobFault::CannotFill(line) => put_counted(out, "cannot fill ", line),
        }
    }
}

#[tactic(auto, using(crate::proofs::Prefixes::prefixes))]
fn put_line<A: Allocator + Copy>(out: &mut String<A>, line: &CastLine<A>) -> Result<(), AllocError>
    ensures text { OnOk result
        (string_bytes out.new ≡ string_bytes out.old ++ codes " " ++ decimal (length line.now.matrices) ++ codes "/"
        ++ signed_decimal line.now.total) }
    ensures prefix { StartsWith (string_bytes out.new) (string_bytes out.old) }
{
    put_counted(out, " ", line.matrices().len())?;
    out.push_str("/")?;
    put_decimal(out, line.total().get())
}

/// Writes each line that was cast behind a space.
#[tactic(auto, using(crate::proofs::Prefixes::prefixes))]
fn put_lines<A: Allocator + Copy>(
    out: &mut String<A>,
    lines: &[CastLine<A>],
) -> Result<(), AllocError>
    ensures text { OnOk result (string_bytes out.new ≡ string_bytes out.old ++ lines_text (lines_reported lines.now)) }
    ensures prefix { StartsWith (string_bytes out.new) (string_bytes out.old) }
{
    for line in lines {
        put_line(out, line)?;
    }
    Ok(())
}

/// The stamp of an operation that was made.
fn made(stamp: Stamp) -> Short
    ensures text { result.bytes ≡ text (replies.Made stamp) }
    ensures len { array_string_len result < SHORT }
{
    let mut out = Short::new();
    out.push_str("ok ");
    put_stamp(&mut out, stamp);
    out
}

/// The first stamp and the last of operations that were made.
fn made_many(first: Stamp, last: Stamp) -> Short
    ensures text { result.bytes ≡ text (replies.MadeMany first last) }
    ensures len { array_string_len result < SHORT }
{
    let mut out = Short::new();
    out.push_str("ok ");
    put_stamp(&mut out, first);
    out.push_str("..");
    put_stamp(&mut out, last);
    out
}

/// How many operations were taken.
fn counted(new: usize, known: usize) -> Short
    ensures text { result.bytes ≡ text (replies.Counted new known) }
    ensures len { array_string_len result < SHORT }
{
    let mut out = Short::new();
    put_numbered(&mut out, "ok new ", new as u64);
    put_numbered(&mut out, " known ", known as u64);
    out
}

fn refused(why: Refusal) -> Short
    ensures text { result.bytes ≡ text (replies.Refused why) }
    ensures len { array_string_len result < SHORT }
{
    let mut out = Short::new();
    out.push_str("refused ");
    put_refusal(&mut out, why);
    out
}

/// How many operations were taken before a refusal, and that.
fn stopped(taken: usize, why: Refusal) -> Short
    ensures text { result.bytes ≡ text (replies.Stopped taken why) }
    ensures len { array_string_len result < SHORT }
{
    let mut out = Short::new();
    put_numbered(&mut out, "stopped ", taken as u64);
    out.push_str(" ");
    put_refusal(&mut out, why);
    out
}

fn done() -> Short
    ensures text { result.bytes ≡ text replies.Done }
    ensures len { array_string_len result < SHORT }
{
    let mut out = Short::new();
    out.push_str("ok");
    out
}

/// An answer's text without its end of line, where it is a refusal or says what a command did: it cannot run out of
/// memory. The other answers say what there is, at any length.
pub fn short<A: Allocator + Copy>(answer: &Reply<A>) -> Option<Short>
    ensures text { IfSome result (λ s. s.bytes ≡ text (reply_values answer.now)) }
    ensures len { IfSome result (λ s. array_string_len s < SHORT) }
    ensures long { is_some result ≡ false → is_long (reply_values answer.now) ≡ true }
{
    match answer {
        Reply::Done => Some(done()),
        Reply::Made(stamp) => Some(made(*stamp)),
        Reply::MadeMany(first, last) => Some(made_many(*first, *last)),
        Reply::Counted { new, known } => Some(counted(*new, *known)),
        Reply::Refused(why) => Some(refused(*why)),
        Reply::Stopped(taken, why) => Some(stopped(*taken, *why)),
        Reply::Copy(_)
        | Reply::Feed(_)
        | Reply::Faults(_)
        | Reply::Settings(_)
        | Reply::Ribbon(_)
        | Reply::NoRibbon(_)
        | Reply::Lines(_) => None,
    }
}

/// Writes a copy, behind a space where there is one.
#[tactic(auto, using(crate::proofs::Prefixes::prefixes))]
fn put_shown<A: Allocator + Copy>(out: &mut String<A>, copy: &[Symbol]) -> Result<(), AllocError>
    ensures text { OnOk result (string_bytes out.new ≡ string_bytes out.old ++ text (replies.Copy copy.now)) }
    ensures prefix { StartsWith (string_bytes out.new) (string_bytes out.old) }
{
    out.push_str("copy")?;
    if !copy.is_empty() {
        out.push(' ')?;
        put_copy(out, copy)?;
    }
    Ok(())
}

/// Writes bytes behind a word.
#[tactic(auto, using(crate::proofs::Prefixes::prefixes))]
fn put_bytes<A: Allocator + Copy>(
    out: &mut String<A>,
    word: &str,
    bytes: &[u8],
) -> Result<(), AllocError>
    ensures text { OnOk result (string_bytes out.new ≡ string_bytes out.old ++ word.now ++ hex_text bytes.now) }
    ensures prefix { StartsWith (string_bytes out.new) (string_bytes out.old) }
{
    out.push_str(word)?;
    put_hex(out, bytes)
}

/// Writes an answer at the end, without its end of line. Where memory is refused, what is there begins with what stood
/// before.
#[tactic(auto, using(crate::proofs::Prefixes::prefixes))]
pub fn put<A: Allocator + Copy>(out: &mut String<A>, answer: &Reply<A>) -> Result<(), AllocError>
    ensures text { OnOk result (string_bytes out.new ≡ string_bytes out.old ++ text (reply_values answer.now)) }
    ensures prefix { StartsWith (string_bytes out.new) (string_bytes out.old) }
{
    match answer {
        Reply::Done => out.push_str(done().as_str()),
        Reply::Made(stamp) => out.push_str(made(*stamp).as_str()),
        Reply::MadeMany(first, last) => out.push_str(made_many(*first, *last).as_str()),
        Reply::Counted { new, known } => out.push_str(counted(*new, *known).as_str()),
        Reply::Copy(copy) => put_shown(out, copy),
        Reply::Feed(feed) => put_bytes(out, "feed ", feed),
        Reply::Faults(faults) => put_faults(out, faults),
        Reply::Settings(settings) => {
            out.push_str("settings ")?;
            put_settings(out, settings)
        }
        Reply::Ribbon(ribbon) => put_bytes(out, "ribbon ", ribbon),
        Reply::NoRibbon(faults) => {
            out.push_str("no ribbon:")?;
            put_list(out, faults.as_slice())
        }
        Reply::Lines(lines) => {
            put_counted(out, "lines ", lines.len())?;
            put_lines(out, lines)
        }
        Reply::Refused(why) => out.push_str(refused(*why).as_str()),
        Reply::Stopped(taken, why) => out.push_str(stopped(*taken, *why).as_str()),
    }
}
