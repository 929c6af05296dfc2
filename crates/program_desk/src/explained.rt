//! The lines on what stopped a run. The second has the file, or the end of the program, and why.

ghost use Rattle.std.specs.Prelude.{◌≡◌, ◌++◌, ℕ, List, true, codes};
ghost use Rattle.std.specs.Fmt.{decimal};
ghost use Rattle.program_desk.specs.Explained.{IsExplainedBy, ExplainsIf, TellsMore, older_words, place_words};
ghost use Rattle.program_desk.specs.Explained.{other_words, source_words};
ghost use Rattle.program_desk.specs.Told.{GoesOn, IsNamed, IsPrintable, IsShown};

use crate::causes::{Cause, Output};
use crate::headlines::{flaw_words, tell_count, tell_head, tell_two};
use crate::told::{Told, tell_more, tell_number};
use crate::words::{explain_case, explain_input, explain_number};
use program_host::{Explains, Plain};
use std::alloc::Global;
use std::io::Write;
use view_proof::OtherNumber;

/// Whether each byte of a name is a printable character of ASCII.
fn is_printable(name: &[u8]) -> bool
    ensures { IsPrintable name.now → result ≡ true }
{
    for place in 0..name.len() {
        if name[place] < 32 || name[place] > 126 {
            return false;
        }
    }
    true
}

/// Writes a name as a terminal shows it. A name that is not printable takes memory, and is cut off where that is
/// refused.
pub fn tell_name<E: Write>(alloc: Global, faults: &mut E, told: Told, name: &str) -> Told
    ensures { (shown : List ℕ) × IsShown name.now shown
        × GoesOn told.is_whole result.is_whole (E.contents faults.old) (E.contents faults.new) shown }
{
    let bytes = name.as_bytes();
    if is_printable(bytes) {
        return tell_more(faults, told, bytes);
    }
    let mut shown = Vec::new(alloc);
    let _ = write!(shown, "{}", Plain(name));
    tell_more(faults, told, &shown)
}

/// Writes a line on a file: its name, and words on it.
fn tell_named<E: Write>(alloc: Global, faults: &mut E, told: Told, name: &str, words: &[u8]) -> Told
    ensures { (line : List ℕ) × IsNamed name.now words.now line
        × GoesOn told.is_whole result.is_whole (E.contents faults.old) (E.contents faults.new) line }
{
    let named = tell_name(alloc, faults, told, name);
    tell_more(faults, named, words)
}

/// Writes what is said of a site's counters.
fn tell_counters<E: Write>(faults: &mut E, told: Told, site: u16, made: u64, held: u64) -> Told
    ensures { GoesOn told.is_whole result.is_whole (E.contents faults.old) (E.contents faults.new)
        (older_words site made held) }
{
    let of = tell_more(faults, told, b": site ");
    let at = tell_number(faults, of, site as u64);
    let by = tell_more(faults, at, b" made ");
    let here = tell_number(faults, by, made);
    let and = tell_more(faults, here, b" here, and it holds ");
    let there = tell_number(faults, and, held);
    tell_more(faults, there, b"\n")
}

/// Writes the place of a text that is no symbol of a copy, and why.
fn tell_place<E: Write>(
    faults: &mut E,
    told: Told,
    line: u64,
    column: u64,
    why: text_copy::Cause,
) -> Told
    ensures { GoesOn told.is_whole result.is_whole (E.contents faults.old) (E.contents faults.new)
        (place_words line column why) }
{
    let words = (": line ", ", column ", flaw_words(why));
    tell_two(faults, told, words, line, column)
}

/// Writes that a sheet has more bytes than this.
fn tell_limit<E: Write>(faults: &mut E, told: Told, most: usize) -> Told
    ensures { GoesOn told.is_whole result.is_whole (E.contents faults.old) (E.contents faults.new)
        (codes "standard input: it has more than " ++ decimal most ++ codes " bytes\n") }
{
    let begun = tell_more(faults, told, b"standard input: it has more than ");
    let counted = tell_number(faults, begun, most as u64);
    tell_more(faults, counted, b" bytes\n")
}

/// Writes that the answer to a line of a sheet says why, and that its feed is as it was.
fn tell_line<E: Write>(alloc: Global, faults: &mut E, told: Told, feed: &str, number: u64) -> Told
    ensures { IsExplainedBy (Cause.Line feed.entry number) told.is_whole result.is_whole (E.contents faults.old)
        (E.contents faults.new) }
{
    let begun = tell_more(faults, told, b"standard input: the answer to line ");
    let counted = tell_number(faults, begun, number);
    let why = tell_more(faults, counted, b" says why; ");
    let named = tell_name(alloc, faults, why, feed);
    tell_more(faults, named, b" is as it was\n")
}

/// What is said of an output that would take the place of its source.
fn source_words(output: Output) -> &'static str
    ensures { result.now ≡ source_words output }
{
    match output {
        Output::Ribbon => ": the ribbon would take its place\n",
        Output::Picture => ": the picture would take its place\n",
        Output::Document => ": the document would take its place\n",
    }
}

/// Writes that a text of `--set` tries no setting.
fn tell_setting<E: Write>(alloc: Global, faults: &mut E, told: Told, text: &str) -> Told
    ensures { IsExplainedBy (Cause.NoSetting text.entry) told.is_whole result.is_whole (E.contents faults.old)
        (E.contents faults.new) }
{
    let begun = tell_more(faults, told, b"--set ");
    let named = tell_name(alloc, faults, begun, text);
    tell_more(
        faults,
        named,
        b": no setting, or no value that it may have\n",
    )
}

/// Writes two numbers, each after words of its own, and the name of a feed between them.
fn tell_numbers<E: Write>(
    alloc: Global,
    faults: &mut E,
    told: Told,
    feed: &str,
    words: (&str, &str),
    numbers: (u64, u64),
) -> Told
    ensures { (shown : List ℕ) × IsShown feed.now shown
        × GoesOn told.is_whole result.is_whole (E.contents faults.old) (E.contents faults.new)
        ((words.entry.0.now ++ (decimal numbers.0 ++ codes ", and "))
        ++ (shown ++ (words.entry.1.now ++ (decimal numbers.1 ++ codes "\n")))) }
{
    let begun = tell_count(faults, told, words.0, numbers.0, ", and ");
    let named = tell_name(alloc, faults, begun, feed);
    tell_count(faults, named, words.1, numbers.1, "\n")
}

/// Writes what follows the name of a case or a wedge whose number is not that of its setting in a feed.
fn tell_other<E: Write>(
    alloc: Global,
    faults: &mut E,
    told: Told,
    feed: &str,
    other: OtherNumber,
) -> Told
    ensures { (shown : List ℕ) × IsShown feed.now shown
        × GoesOn told.is_whole result.is_whole (E.contents faults.old) (E.contents faults.new)
        (other_words other shown) }
{
    match other {
        OtherNumber::Case { set, number } => {
            let words = (": it is case ", " has the setting case ");
            tell_numbers(
                alloc,
                faults,
                told,
                feed,
                words,
                (number as u64, set as u64),
            )
        }
        OtherNumber::Wedge { set, number } => {
            let words = (": it is wedge ", " has the setting wedge ");
            tell_numbers(
                alloc,
                faults,
                told,
                feed,
                words,
                (number as u64, set as u64),
            )
        }
    }
}

/// What is said of a cause in other words than these; nothing where there is no memory for it. Of a feed's fault and a
/// kind it is what follows the name of the file.
fn words_on<F: Explains>(alloc: Global, files: &F, cause: Cause<'_>) -> Vec<u8> {
    let mut words = Vec::new(alloc);
    let written = match cause {
        Cause::File(name) => files.explain(name, &mut words),
        Cause::Feed(_, fault) => {
            let (at, why) = (fault.at, fault.why);
            writeln!(words, ": byte {at}: {why}")
        }
        Cause::Taken(_, kind) => writeln!(words, ": {kind}"),
        Cause::Number(site, why) => explain_number(&mut words, site, why),
        Cause::CaseOrWedge(case, wedge, why) => explain_input(&mut words, files, case, wedge, why),
        Cause::Case(case, why) => explain_case(&mut words, files, case, why),
        _ => Ok(()),
    };
    if written.is_err() {
        words.clear();
    }
    words
}

/// Writes a line on a file: its name, and what is said of it, or that there is no memory for that.
fn tell_of<E: Write, F: Explains>(
    alloc: Global,
    faults: &mut E,
    told: Told,
    files: &F,
    name: &str,
    cause: Cause<'_>,
) -> Told
    ensures { (words : List ℕ) × (line : List ℕ) × IsNamed name.now words line
        × GoesOn told.is_whole result.is_whole (E.contents faults.old) (E.contents faults.new) line }
{
    let words = words_on(alloc, files, cause);
    if words.is_empty() {
        return tell_named(alloc, faults, told, name, b": out of memory\n");
    }
    tell_named(alloc, faults, told, name, &words)
}

/// Writes the line on a cause after what was written, unless that was cut off. A name that is not printable is cut off
/// where memory is refused for it.
fn explain<E: Write, F: Explains>(
    alloc: Global,
    faults: &mut E,
    told: Told,
    files: &F,
    cause: Cause<'_>,
) -> Told
    ensures { IsExplainedBy cause.entry told.is_whole result.is_whole (E.contents faults.old) (E.contents faults.new) }
{
    match cause {
        Cause::Said(_) => told,
        Cause::NoMemory(feed) => tell_named(alloc, faults, told, feed, b": out of memory\n"),
        Cause::Feed(feed, _) => tell_of(alloc, faults, told, files, feed, cause),
        Cause::TooMany(feed) => {
            let words = b": it has more operations than a desk can hold\n";
            tell_named(alloc, faults, told, feed, words)
        }
        Cause::Full(feed) => {
            let words = b": with its operations there would be more than a desk can hold\n";
            tell_named(alloc, faults, told, feed, words)
        }
        Cause::Unfit(feed, _) => {
            let words = b": the text does not fit into it\n";
            tell_named(alloc, faults, told, feed, words)
        }
        Cause::Older(feed, site, made, held) => {
            let named = tell_name(alloc, faults, told, feed);
            tell_counters(faults, named, site, made, held)
        }
        Cause::Taken(name, _) => tell_of(alloc, faults, told, files, name, cause),
        Cause::There(name) => tell_named(alloc, faults, told, name, b": it is there already\n"),
        Cause::Source(name, output) => {
            tell_named(alloc, faults, told, name, source_words(output).as_bytes())
        }
        Cause::CopyFaults(feed) => {
            tell_named(alloc, faults, told, feed, b": its copy has faults\n")
        }
        Cause::NoRibbon(feed) => tell_named(alloc, faults, told, feed, b": its job has faults\n"),
        Cause::Other(name, feed, other) => {
            let named = tell_name(alloc, faults, told, name);
            tell_other(alloc, faults, named, feed, other)
        }
        Cause::Unread(name, line, column, why) => {
            let named = tell_name(alloc, faults, told, name);
            tell_place(faults, named, line, column, why)
        }
        Cause::LongText(name) => {
            let words = b": it has more than 8388608 bytes, or 1048576 symbols\n";
            tell_named(alloc, faults, told, name, words)
        }
        Cause::LongRibbon(name) => {
            let words = b": it would have more than 67108864 bytes\n";
            tell_named(alloc, faults, told, name, words)
        }
        Cause::NoSetting(text) => tell_setting(alloc, faults, told, text),
        Cause::Line(feed, number) => tell_line(alloc, faults, told, feed, number),
        Cause::Input => tell_more(faults, told, b"standard input: it cannot be read\n"),
        Cause::Endless => tell_more(faults, told, b"standard input: it has no end\n"),
        Cause::TooLong(most) => tell_limit(faults, told, most),
        Cause::Output => tell_more(faults, told, b"standard output: it cannot be written\n"),
        Cause::ReportOutput => tell_more(faults, told, b"standard output: it cannot be written\n"),
        Cause::File(_) => tell_more(faults, told, &words_on(alloc, files, cause)),
        Cause::Number(_, _) => tell_more(faults, told, &words_on(alloc, files, cause)),
        Cause::CaseOrWedge(_, _, _) => tell_more(faults, told, &words_on(alloc, files, cause)),
        Cause::Case(_, _) => tell_more(faults, told, &words_on(alloc, files, cause)),
    }
}

/// Writes the line on a cause where it is asked for.
fn explain_if<E: Write, F: Explains>(
    alloc: Global,
    faults: &mut E,
    told: Told,
    files: &F,
    asked: bool,
    cause: Cause<'_>,
) -> Told
    ensures { ExplainsIf asked cause.entry told.is_whole result.is_whole (E.contents faults.old)
        (E.contents faults.new) }
{
    if asked {
        explain(alloc, faults, told, files, cause)
    } else {
        told
    }
}

/// Writes the lines on a cause after what was written, unless that was cut off: the first, and where it is asked for
/// the second.
pub fn tell_cause<E: Write, F: Explains>(
    alloc: Global,
    faults: &mut E,
    told: Told,
    files: &F,
    asked: bool,
    cause: Cause<'_>,
) -> Told
    ensures { TellsMore asked cause.entry told.is_whole result.is_whole (E.contents faults.old)
        (E.contents faults.new) }
{
    let begun = tell_head(faults, told, cause);
    explain_if(alloc, faults, begun, files, asked, cause)
}
