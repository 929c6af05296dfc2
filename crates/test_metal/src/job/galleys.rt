//! Galleys: what is known of each line of a copy, and its matrices. Wanted values are worked out by hand from the
//! rules: at a set of 12 points and the old pica a unit is 12,000 atoms, a step 648, and the measure of 120 points
//! 2,160,000.

ghost use Rattle.std.specs.Prelude.{◌≤◌, All, length};
ghost use Rattle.desk_lines.specs.Words.{most_symbols};
ghost use Rattle.desk_job.specs.Answer.{AreValues};
ghost use Rattle.view_galley.specs.Galley.{Stands};

use crate::job::cases::{FILLS, WEDGE, case_with, wedge_of};
use crate::words::is_worded;
use desk_case::MatrixCase;
use desk_job::JobFault;
use desk_lines::Word;
use desk_ops::{Key, Style, Symbol};
use desk_replica::Settings;
use desk_ribbon::Punch;
use desk_wedge::Wedge;
use std::alloc::{AllocError, Global};
use std::fmt::Write;
use std::test::Fail;
use view_galley::{Galley, GalleyRefusal, Line, make_galley, matrices};

/// A copy, all Roman.
fn copy_of(alloc: Global, text: &str) -> Result<Vec<Symbol>, AllocError> {
    let mut copy = Vec::new(alloc);
    for byte in text.as_bytes() {
        copy.push(Symbol {
            style: Style::Roman,
            ch: char::from(*byte),
        })?;
    }
    Ok(copy)
}

/// The settings of the case and the wedge, with this greatest wedge sum.
fn settings_of(loose: u32) -> Settings
    requires low { 16 ≤ loose }
    requires high { loose ≤ 240 }
    ensures { AreValues result }
{
    Settings {
        measure: Some(120),
        tight: Some(38),
        loose: Some(loose),
        case: Some(1),
        wedge: Some(5),
    }
}

fn show_word(text: &mut String, word: Word) -> Result<(), Fail> {
    Ok(write!(text, " {}..{}", word.from, word.to)?)
}

fn show_words(text: &mut String, words: &[Word]) -> Result<(), Fail> {
    for word in words {
        show_word(text, *word)?;
    }
    Ok(())
}

fn show_count(text: &mut String, count: u32) -> Result<(), Fail> {
    Ok(write!(text, " {count}")?)
}

fn show_fills(text: &mut String, fills: &[u32]) -> Result<(), Fail> {
    text.push_str(", fills")?;
    for count in fills {
        show_count(text, *count)?;
    }
    Ok(())
}

/// Adds how a line is made up: its words, whether it is filled and has a space added, its spaces, width and rest.
fn show_make_up(text: &mut String, line: &Line<Global>) -> Result<(), Fail> {
    write!(text, "{}", line.number())?;
    show_words(text, line.words())?;
    text.push_str(if line.is_filled() { ", filled" } else { "" })?;
    text.push_str(if line.has_added() { ", added" } else { "" })?;
    let (spaces, width, rest) = (line.spaces(), line.width(), line.rest().get());
    Ok(write!(text, ", {spaces} spaces, {width} and {rest}")?)
}

fn show_sum(text: &mut String, line: &Line<Global>) -> Result<(), Fail> {
    match line.wedge_sum() {
        Some(sum) => write!(text, ", sum {sum}")?,
        None => text.push_str(", no sum")?,
    }
    if let Some((coarse, fine)) = line.positions() {
        write!(text, " by {}/{}", coarse.get(), fine.get())?;
    }
    Ok(())
}

fn show_fault(text: &mut String, line: &Line<Global>) -> Result<(), Fail> {
    text.push_str(if line.is_faulty() { ", faulty" } else { "" })?;
    if let Some(fault) = line.fault() {
        write!(text, ": {fault}")?;
    }
    Ok(())
}

fn show_next(text: &mut String, line: &Line<Global>) -> Result<(), Fail> {
    if let Some(next) = line.next() {
        text.push_str(", next")?;
        show_word(text, next.word)?;
        write!(text, " over {} free {}", next.over.get(), next.free.get())?;
    }
    Ok(())
}

fn show_punch(text: &mut String, punch: Punch) -> Result<(), Fail> {
    write!(text, " {}", punch.cell)?;
    text.push_str(if punch.s { "*" } else { "" })?;
    Ok(())
}

fn show_punches(text: &mut String, punches: &[Punch]) -> Result<(), Fail> {
    text.push_str(";")?;
    for punch in punches {
        show_punch(text, *punch)?;
    }
    text.push_str("\n")?;
    Ok(())
}

/// Adds a line, what is known of it and its matrices, one with S before a star.
fn show_line(
    alloc: Global,
    text: &mut String,
    case: &MatrixCase,
    copy: &[Symbol],
    line: &Line<Global>,
) -> Result<(), Fail>
    requires { Stands copy.now case.now line.now }
{
    show_make_up(text, line)?;
    show_fills(text, line.fills())?;
    show_sum(text, line)?;
    show_fault(text, line)?;
    show_next(text, line)?;
    let found = matrices(alloc, case, copy, line)?;
    show_punches(text, &found)
}

fn show_lines(
    alloc: Global,
    text: &mut String,
    case: &MatrixCase,
    copy: &[Symbol],
    lines: &[Line<Global>],
) -> Result<(), Fail>
    requires { All (Stands copy.now case.now) lines.now }
{
    for line in lines {
        show_line(alloc, text, case, copy, line)?;
    }
    Ok(())
}

fn show_lacking(text: &mut String, lacking: &[JobFault]) -> Result<(), Fail> {
    for fault in lacking {
        write!(text, "{fault}\n")?;
    }
    Ok(())
}

/// Whether a galley is by these values and this wedge.
fn is_by(galley: &Galley<'_, Global>, loose: u32) -> bool {
    let values = galley.values();
    let terms = galley.terms();
    let sums = (
        u32::from(terms.tight().get()),
        u32::from(terms.loose().get()),
    );
    (values.measure, values.tight, values.loose) == (120, 38, loose)
        && sums == (38, loose)
        && galley.wedge().number() == 5
}

/// The galley of a copy as text: the symbols that the case lacks, and its lines.
fn galley_in(
    alloc: Global,
    copy: &[Symbol],
    loose: u32,
    case: &MatrixCase,
    wedge: &Wedge,
) -> Result<String, Fail>
    requires copy { length copy.now ≤ most_symbols }
    requires low { 16 ≤ loose }
    requires high { loose ≤ 240 }
{
    let mut text = String::new(alloc);
    match make_galley(alloc, copy, &settings_of(loose), case, wedge) {
        Ok(galley) if is_by(&galley, loose) => {
            show_lacking(&mut text, galley.lacking())?;
            show_lines(alloc, &mut text, case, copy, galley.lines())?;
        }
        Ok(_) => return Err(Fail::new("a galley by other values")),
        Err(_) => return Err(Fail::new("no galley")),
    }
    Ok(text)
}

/// Whether the galley of a text, with these fills and this greatest wedge sum, is as wanted.
fn is_galley(alloc: Global, text: &str, fill: &str, loose: u32, want: &str) -> Result<bool, Fail> {
    let copy = copy_of(alloc, text)?;
    if copy.len() > 1000 || loose < 16 || loose > 240 {
        return Err(Fail::new("more than a test has"));
    }
    let case = case_with(alloc, fill)?;
    let wedge = wedge_of(alloc, WEDGE)?;
    Ok(galley_in(alloc, &copy, loose, &case, &wedge)?.as_str() == want)
}

/// A copy of which the case lacks a symbol, in one line that is filled: a 108,000, n 120,000, q nothing; two spaces of
/// 60,000, one of them added; of the rest 7 fills of 216,000 and one of 108,000, which leave 55 steps for each space.
const LACKING: &str = "the case has no matrix for the symbol at place 1\n\
    1 0..3 4..5, filled, added, 2 spaces, 468000 and 1692000, fills 7 1, sum 108 by 7/3; \
    B5 A8 G1* A8 G1* O15 O15 O15 O15 O15 O15 O15 A5\n";

/// Five words with four spaces of 60,000, and 46 steps for each, too loose for 60; the sixth is wider by 251,400 than
/// what five spaces of 50,280 leave, and stands in a line of its own, with 8 fills, and 18 steps for its added space.
const LOOSE: &str =
    "1 0..3 4..7 8..11 12..15 16..19, 4 spaces, 2040000 and 120000, fills, sum 99 by 6/9, faulty: line 1 is too \
    loose, next 20..23 over 251400 free 108600; \
    A8 A8 A8 G1* A8 A8 A8 G1* A8 A8 A8 G1* A8 A8 A8 G1* A8 A8 A8\n\
    2 20..23, filled, added, 1 spaces, 420000 and 1740000, fills 8 0, sum 71 by 4/11; \
    A8 A8 A8 G1* O15 O15 O15 O15 O15 O15 O15 O15\n";

/// Ten letters of 216,000, which are the measure, with no space.
const WIDE: &str =
    "1 0..10, filled, 0 spaces, 2160000 and 0, fills 0 0, no sum, faulty: line 1 is too wide; \
    A15 A15 A15 A15 A15 A15 A15 A15 A15 A15\n";

/// An empty word: 9 fills, and 240 steps for the one space, which the wedges do not reach.
const UNFILLED: &str =
    "1 0..0, filled, added, 1 spaces, 60000 and 2100000, fills 9, sum 293, faulty: line 1 cannot be filled; \
    G1* O15 O15 O15 O15 O15 O15 O15 O15 O15\n";

/// Texts, fills, greatest wedge sums, and their galleys.
static GALLEYS: [(&str, &str, u32, &str); 5] = [
    ("", FILLS, 150, ""),
    ("aqn n", FILLS, 150, LACKING),
    ("nnn nnn nnn nnn nnn nnn", FILLS, 60, LOOSE),
    ("MMMMMMMMMM", FILLS, 150, WIDE),
    ("\n", "'O15'", 150, UNFILLED),
];

#[test]
fn lines_and_their_matrices(rt: HostRuntime) -> Result<(), Fail> {
    for &(text, fill, loose, want) in &GALLEYS {
        assert!(rt; is_galley(rt.alloc(), text, fill, loose, want)?, "{text}");
    }
    Ok(())
}

/// Whether there is no galley of no symbols by these settings, for this fault.
fn is_refused(alloc: Global, settings: &Settings, want: JobFault) -> Result<bool, Fail>
    requires { AreValues settings.now }
{
    let wedge = wedge_of(alloc, WEDGE)?;
    let case = case_with(alloc, FILLS)?;
    match make_galley(alloc, &[], settings, &case, &wedge) {
        Ok(_) => Ok(false),
        Err(why) => Ok(why == GalleyRefusal::Fault(want)),
    }
}

#[test]
fn causes_against_a_galley(rt: HostRuntime) -> Result<(), Fail> {
    let given = settings_of(16);
    let unset = Settings {
        tight: None,
        ..given
    };
    let missing = JobFault::MissingSetting(Key::Tight);
    assert!(rt; is_refused(rt.alloc(), &unset, missing)?);
    assert!(rt; is_refused(rt.alloc(), &given, JobFault::Crossed)?);
    Ok(())
}

#[test]
fn names_its_refusals(rt: HostRuntime) {
    let fault = GalleyRefusal::Fault(JobFault::OtherCase);
    assert!(rt; is_worded(rt.alloc(), &fault, "the setting names another case"));
    assert!(rt; is_worded(rt.alloc(), &GalleyRefusal::NoMemory, "no memory"));
}
