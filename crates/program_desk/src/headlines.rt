//! The first line on what stopped a run.

ghost use Rattle.std.specs.Prelude.{◌≡◌, ◌++◌, codes};
ghost use Rattle.std.specs.Fmt.{decimal};
ghost use Rattle.program_desk.specs.Headlines.{flaw_words, head_line, number_line, origin_words, places_words};
ghost use Rattle.program_desk.specs.Headlines.{said_line, unfit_line};
ghost use Rattle.program_desk.specs.Told.{GoesOn};

use crate::causes::{Cause, Origin, Said};
use crate::told::{Told, tell_more, tell_number};
use feed_edit::RevisionFault;
use feed_sites::NumberFault;
use std::io::Write;

/// Which text is no copy.
fn origin_words(origin: Origin) -> &'static str
    ensures { result.now ≡ origin_words origin }
{
    match origin {
        Origin::Input => "copydesk: line ",
        Origin::Old => "copydesk: OLD, line ",
        Origin::New => "copydesk: NEW, line ",
        Origin::Sought => "copydesk: TEXT, line ",
    }
}

/// What is wrong at a place of a text.
pub fn flaw_words(why: text_copy::Cause) -> &'static str
    ensures { result.now ≡ flaw_words why }
{
    match why {
        text_copy::Cause::Symbol => ": no symbol of a copy\n",
        text_copy::Cause::Encoding => ": no UTF-8\n",
        text_copy::Cause::Escape => ": a backslash that escapes nothing\n",
        text_copy::Cause::Inside => ": a style mark inside the other style\n",
        text_copy::Cause::Unclosed => ": a style that is open at the end of the line\n",
    }
}

/// Why a text does not fit into a feed.
fn unfit_line(why: RevisionFault) -> &'static str
    ensures { result.now ≡ unfit_line why }
{
    match why {
        RevisionFault::Full => "copydesk: as many operations are held as may be\n",
        RevisionFault::ClockFull => "copydesk: the greatest counter is held\n",
        RevisionFault::Value => "copydesk: the value is out of its range\n",
        RevisionFault::NoMemory => "copydesk: no memory\n",
    }
}

/// Why a number does not serve.
fn number_line(why: NumberFault) -> &'static str
    ensures { result.now ≡ number_line why }
{
    match why {
        NumberFault::InUse => "copydesk: number in use\n",
        NumberFault::Seen(_) => "copydesk: seen by another room\n",
        NumberFault::Clash => "copydesk: number in use\n",
        NumberFault::NoMemory => "copydesk: no memory\n",
    }
}

/// Writes a text of the table.
fn tell_words<E: Write>(faults: &mut E, told: Told, words: &str) -> Told
    ensures { GoesOn told.is_whole result.is_whole (E.contents faults.old) (E.contents faults.new) words.now }
{
    tell_more(faults, told, words.as_bytes())
}

/// Writes a number between two texts.
pub fn tell_count<E: Write>(
    faults: &mut E,
    told: Told,
    before: &str,
    number: u64,
    after: &str,
) -> Told
    ensures { GoesOn told.is_whole result.is_whole (E.contents faults.old) (E.contents faults.new)
        (before.now ++ (decimal number ++ after.now)) }
{
    let begun = tell_words(faults, told, before);
    let counted = tell_number(faults, begun, number);
    tell_words(faults, counted, after)
}

/// Writes two numbers, each between texts.
pub fn tell_two<E: Write>(
    faults: &mut E,
    told: Told,
    words: (&str, &str, &str),
    number: u64,
    other: u64,
) -> Told
    ensures { GoesOn told.is_whole result.is_whole (E.contents faults.old) (E.contents faults.new)
        (words.entry.0.now ++ (decimal number ++ (words.entry.1.now ++ (decimal other ++ words.entry.2.now)))) }
{
    let begun = tell_words(faults, told, words.0);
    let counted = tell_number(faults, begun, number);
    tell_count(faults, counted, words.1, other, words.2)
}

/// What follows so many places.
fn places_words(count: usize) -> &'static str
    ensures { result.now ≡ places_words count }
{
    if count == 1 { " place\n" } else { " places\n" }
}

/// Writes the line that says all.
fn tell_said<E: Write>(faults: &mut E, told: Told, said: Said) -> Told
    ensures { GoesOn told.is_whole result.is_whole (E.contents faults.old) (E.contents faults.new) (said_line said) }
{
    match said {
        Said::NoMemory => tell_more(faults, told, b"copydesk: no memory\n"),
        Said::Forks => tell_more(faults, told, b"copydesk: number used twice\n"),
        Said::NoPlace => tell_more(faults, told, b"copydesk: no place\n"),
        Said::ManyPlaces(count) => {
            let after = places_words(count);
            tell_count(faults, told, "copydesk: ", count as u64, after)
        }
        Said::Wipes(deleted, of) => {
            let words = ("copydesk: ", " of ", " symbols would be deleted\n");
            tell_two(faults, told, words, deleted as u64, of as u64)
        }
        Said::Text(origin, line, column, why) => {
            let words = (origin_words(origin), ", column ", flaw_words(why));
            tell_two(faults, told, words, line, column)
        }
    }
}

/// Writes the first line on a cause after what was written, unless that was cut off.
pub fn tell_head<E: Write>(faults: &mut E, told: Told, cause: Cause<'_>) -> Told
    ensures { GoesOn told.is_whole result.is_whole (E.contents faults.old) (E.contents faults.new)
        (head_line cause.entry) }
{
    match cause {
        Cause::Said(said) => tell_said(faults, told, said),
        Cause::NoMemory(_) => tell_more(faults, told, b"copydesk: no memory\n"),
        Cause::File(_) => tell_more(faults, told, b"copydesk: file fault\n"),
        Cause::Feed(_, _) => tell_more(faults, told, b"copydesk: feed refused\n"),
        Cause::TooMany(_) => tell_more(faults, told, b"copydesk: not opened\n"),
        Cause::Full(_) => tell_more(faults, told, b"copydesk: full\n"),
        Cause::Unfit(_, why) => tell_words(faults, told, unfit_line(why)),
        Cause::Older(_, _, _, _) => tell_more(faults, told, b"copydesk: older feed\n"),
        Cause::Taken(_, _) => tell_more(faults, told, b"copydesk: not replaced\n"),
        Cause::There(_) => tell_more(faults, told, b"copydesk: already there\n"),
        Cause::Source(_, _) => tell_more(faults, told, b"copydesk: file fault\n"),
        Cause::Number(_, why) => tell_words(faults, told, number_line(why)),
        Cause::CaseOrWedge(_, _, _) => tell_more(faults, told, b"copydesk: input refused\n"),
        Cause::Case(_, _) => tell_more(faults, told, b"copydesk: input refused\n"),
        Cause::CopyFaults(_) => tell_more(faults, told, b"copydesk: copy faults\n"),
        Cause::NoRibbon(_) => tell_more(faults, told, b"copydesk: no ribbon\n"),
        Cause::Other(_, _, _) => tell_more(faults, told, b"copydesk: no ribbon\n"),
        Cause::Unread(_, _, _, _) => tell_more(faults, told, b"copydesk: input refused\n"),
        Cause::LongText(_) => tell_more(faults, told, b"copydesk: too long\n"),
        Cause::LongRibbon(_) => tell_more(faults, told, b"copydesk: too long\n"),
        Cause::NoSetting(_) => tell_more(faults, told, b"copydesk: input refused\n"),
        Cause::Line(_, number) => tell_count(faults, told, "copydesk: line ", number, " refused\n"),
        Cause::Input => tell_more(faults, told, b"copydesk: read fault\n"),
        Cause::Endless => tell_more(faults, told, b"copydesk: too long\n"),
        Cause::TooLong(_) => tell_more(faults, told, b"copydesk: too long\n"),
        Cause::Output => tell_more(faults, told, b"copydesk: write fault\n"),
        Cause::ReportOutput => tell_more(faults, told, b"copydesk: write fault\n"),
    }
}
