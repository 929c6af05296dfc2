//! Proofs of texts.

use crate::preview::rooms::{OLD, memory, rooms};
use feed_edit::FeedTrouble;
use feed_files::FileRefusal;
use feed_files::trial::{AtEnd, TrialFiles, TrialWriter};
use linked_list_allocator::LocalHeap;
use script_answers::{Memory, Refusal};
use std::alloc::{AllocError, Global};
use std::test::Fail;
use text_copy::{Cause, TextFault};
use view_preview::{Form, Job, Manner, PreviewFault, Source, proof_job, trial_of};

/// Each form without second looks.
const WHOLE: Manner = Manner {
    form: Form::Whole,
    looks: false,
};

const FAULTS: Manner = Manner {
    form: Form::Faults,
    looks: false,
};

/// The settings that a text has not.
const ALL: [&str; 3] = ["measure=120", "tight=38", "loose=150"];

/// The galley of one empty paragraph: its wedge sum is 127 of 38 to 150, and ten fills stand in it.
const SET: &str = "GALLEY 1 lines, 0 at fault, measure 120 points, tight 38, loose 150\n\
\n  line   place   c/f    sum  tight ...... loose\n\
\x20    1       0   8/7    127  ...............|.....    ··········\n";

/// The symbols have 660,000 atoms and two spaces 120,000. Six fills of 216,000 leave 84,000 of the measure, which 64
/// steps for each of the two spaces take up: 53 and 64 are 117.
const STYLES: &str = "GALLEY 1 lines, 0 at fault, measure 120 points, tight 38, loose 150\n\
\n  line   place   c/f    sum  tight ...... loose\n\
\x20    1       0   7/12   117  ..............|......   _aa a_n^M^ ······\n";

/// In a plain text a mark is a symbol, which the case has not.
const PLAIN: &str =
    "GALLEY 1 lines, 0 at fault, 1 missing sort, measure 120 points, tight 38, loose 150\n\
\nno matrix for Roman '_' (U+005F) at place 1\n\
\x20 | n\\_n\n";

/// The numbers of the case and the wedge are those of the files, and no other setting has a value.
const NONE: &str = "no galley: the settings measure, tight and loose have no value\n";

/// A number that is tried counts in place of that of the file.
const CASE: &str = "no galley: the setting case is 7, and the case has the number 1\n";

const WEDGE: &str = "no galley: the setting wedge is 9, and the wedge has the number 5\n";

/// So many bytes `n`.
fn letters(alloc: Global, count: usize) -> Result<Vec<u8, Global>, AllocError> {
    let mut out = Vec::with_capacity(alloc, count)?;
    for _ in 0..count {
        out.push(b'n')?;
    }
    Ok(out)
}

/// The files of the other tests, of which the k-th call fails, and texts.
fn texts(alloc: Global, k: u64) -> Result<TrialFiles<Global>, AllocError> {
    let mut files = rooms(alloc, k)?;
    files.put("set", b"\n")?;
    files.put("ends", b"\r\n")?;
    files.put("styles", b"_aa a_n^M^")?;
    files.put("marks", b"n_n")?;
    files.put("escape", b"n\nn\\x")?;
    files.put("bytes", b"n\n\xff")?;
    Ok(files)
}

/// What is written of a text, and how that ends.
#[derive(Drop)]
struct Left {
    written: Vec<u8, Global>,
    ended: Result<bool, PreviewFault>,
}

/// Proofs a text by settings that are tried: after a fault nothing is written, and the files stay.
fn proofed(
    alloc: Global,
    files: &mut TrialFiles<Global>,
    job: &Job<'_>,
    sets: &[&str],
    manner: Manner,
) -> Result<Left, Fail> {
    let Ok(trial) = trial_of(alloc, sets) else {
        return Err(Fail::new("no trial"));
    };
    let mut written = Vec::new(alloc);
    let ended = proof_job(memory(alloc), &mut written, files, job, &trial, manner);
    if !files.holds("a.ribbon", OLD) {
        return Err(Fail::new("a file changed"));
    }
    if ended.is_err() && !written.is_empty() {
        return Err(Fail::new("bytes before a fault"));
    }
    Ok(Left { written, ended })
}

/// A text, a case and a wedge.
fn text<'a>(name: &'a str, plain: bool) -> Job<'a> {
    Job {
        source: Source::Text { name, plain },
        case: "c",
        wedge: "w",
    }
}

/// Whether a text has this proof, and is clean or not.
fn has_proof(
    alloc: Global,
    job: &Job<'_>,
    sets: &[&str],
    wanted: &str,
    clean: bool,
) -> Result<bool, Fail> {
    let mut files = texts(alloc, 0)?;
    let left = proofed(alloc, &mut files, job, sets, WHOLE)?;
    Ok(left.written.as_slice() == wanted.as_bytes() && left.ended == Ok(clean))
}

#[test]
fn texts_are_proofed(rt: HostRuntime) -> Result<(), Fail> {
    let alloc = rt.alloc();
    assert!(rt; has_proof(alloc, &text("set", false), &ALL, SET, true)?);
    assert!(rt; has_proof(alloc, &text("ends", true), &ALL, SET, true)?);
    assert!(rt; has_proof(alloc, &text("styles", false), &ALL, STYLES, true)?);
    Ok(())
}

#[test]
fn mark_in_a_plain_text_is_a_symbol(rt: HostRuntime) -> Result<(), Fail> {
    let mut files = texts(rt.alloc(), 0)?;
    let marks = text("marks", true);
    let left = proofed(rt.alloc(), &mut files, &marks, &ALL, FAULTS)?;
    assert_eq!(rt; left.ended, Ok(false));
    assert!(rt; left.written.as_slice() == PLAIN.as_bytes());
    Ok(())
}

#[test]
fn numbers_of_a_text_are_those_of_the_files(rt: HostRuntime) -> Result<(), Fail> {
    let alloc = rt.alloc();
    let set = text("set", false);
    assert!(rt; has_proof(alloc, &set, &[], NONE, false)?);
    let case = ["measure=120", "tight=38", "loose=150", "case=7"];
    assert!(rt; has_proof(alloc, &set, &case, CASE, false)?);
    let wedge = ["measure=120", "tight=38", "loose=150", "wedge=9"];
    assert!(rt; has_proof(alloc, &set, &wedge, WEDGE, false)?);
    Ok(())
}

/// Why a text has no proof.
fn fault_of(alloc: Global, k: u64, job: &Job<'_>) -> Result<Option<PreviewFault>, Fail> {
    let mut files = texts(alloc, k)?;
    let left = proofed(alloc, &mut files, job, &ALL, FAULTS)?;
    Ok(left.ended.err())
}

/// The fault of a text that is no copy.
fn at(line: u64, column: u64, cause: Cause) -> Option<PreviewFault> {
    Some(PreviewFault::Text(TextFault::At {
        line,
        column,
        cause,
    }))
}

/// The text is read first, and then the case and the wedge.
#[test]
fn texts_that_give_no_proof(rt: HostRuntime) -> Result<(), Fail> {
    let alloc = rt.alloc();
    let missing = PreviewFault::Feed(FeedTrouble::File(FileRefusal::Missing));
    assert_eq!(rt; fault_of(alloc, 0, &text("none", false))?, Some(missing));
    let no_case = Job {
        case: "d",
        ..text("escape", false)
    };
    assert_eq!(rt; fault_of(alloc, 0, &no_case)?, at(2, 2, Cause::Escape));
    assert_eq!(rt;
        fault_of(alloc, 0, &text("marks", false))?,
        at(1, 4, Cause::Unclosed)
    );
    assert_eq!(rt;
        fault_of(alloc, 0, &text("bytes", true))?,
        at(2, 1, Cause::Encoding)
    );
    let no_wedge = Job {
        wedge: "broken",
        ..text("set", false)
    };
    let input = PreviewFault::Input(Refusal::Wedge(1));
    assert_eq!(rt; fault_of(alloc, 0, &no_wedge)?, Some(input));
    Ok(())
}

#[test]
fn files_that_fail_under_a_text(rt: HostRuntime) -> Result<(), Fail> {
    let alloc = rt.alloc();
    let set = text("set", false);
    let device = PreviewFault::Feed(FeedTrouble::File(FileRefusal::Device));
    assert_eq!(rt; fault_of(alloc, 1, &set)?, Some(device));
    let input = PreviewFault::Input(Refusal::FileDevice);
    assert_eq!(rt; fault_of(alloc, 2, &set)?, Some(input));
    assert_eq!(rt; fault_of(alloc, 3, &set)?, Some(input));
    assert_eq!(rt; fault_of(alloc, 4, &set)?, None);
    Ok(())
}

/// Why a text of so many letters has no proof.
fn fault_of_letters(alloc: Global, count: usize) -> Result<Option<PreviewFault>, Fail> {
    let mut files = texts(alloc, 0)?;
    files.put("long", &letters(alloc, count)?)?;
    let left = proofed(alloc, &mut files, &text("long", true), &[], WHOLE)?;
    Ok(left.ended.err())
}

/// A copy has 1,048,576 symbols at most, and a text 8,388,608 bytes.
#[test]
fn texts_that_are_too_long(rt: HostRuntime) -> Result<(), Fail> {
    let alloc = rt.alloc();
    let long = PreviewFault::TooLong;
    assert_eq!(rt; fault_of_letters(alloc, 1_048_576)?, None);
    assert_eq!(rt; fault_of_letters(alloc, 1_048_577)?, Some(long));
    assert_eq!(rt; fault_of_letters(alloc, 8_388_609)?, Some(long));
    Ok(())
}

#[test]
fn closed_output_of_a_text(rt: HostRuntime) -> Result<(), Fail> {
    let mut files = texts(rt.alloc(), 0)?;
    let mut writer = TrialWriter::new(rt.alloc()).with_room(5, AtEnd::Fails);
    let Ok(trial) = trial_of(rt.alloc(), &[]) else {
        return Err(Fail::new("no trial"));
    };
    let ended = proof_job(
        memory(rt.alloc()),
        &mut writer,
        &mut files,
        &text("set", false),
        &trial,
        FAULTS,
    );
    assert_eq!(rt; ended, Err(PreviewFault::Write));
    assert!(rt; NONE.as_bytes().starts_with(writer.written()));
    Ok(())
}

/// Whether a proof of a text is out of memory in a cut heap; where it is not, it is whole.
fn is_refused(alloc: Global, cut: usize) -> Result<bool, Fail> {
    let heap = LocalHeap::new(alloc, 1_048_576)?;
    let kept = 1_048_576usize.saturating_sub(cut.saturating_mul(64));
    let ballast: Option<Vec<u8, &LocalHeap>> = Vec::with_capacity(&heap, kept).ok();
    let mut files = texts(alloc, 0)?;
    let mut written = Vec::new(alloc);
    let memory = Memory {
        own: &heap,
        global: alloc,
    };
    let Ok(trial) = trial_of(alloc, &ALL) else {
        return Err(Fail::new("no trial"));
    };
    let job = text("styles", false);
    let ended = proof_job(memory, &mut written, &mut files, &job, &trial, WHOLE);
    drop(ballast);
    match ended {
        Ok(_) if written.as_slice() != STYLES.as_bytes() => Err(Fail::new("another proof")),
        Ok(_) => Ok(false),
        Err(_) if !written.is_empty() => Err(Fail::new("bytes before a fault")),
        Err(_) => Ok(true),
    }
}

#[test]
fn growths_of_a_text_refused(rt: HostRuntime) -> Result<(), Fail> {
    let mut refused = 0u32;
    for cut in 0..256usize {
        refused = refused.saturating_add(u32::from(is_refused(rt.alloc(), cut)?));
    }
    assert!(rt; 6 <= refused && refused <= 250, "refused {refused} times");
    Ok(())
}
