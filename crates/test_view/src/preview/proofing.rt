use crate::preview::rooms::{OLD, job, memory, rooms};
use feed_edit::{FeedTrouble, Version};
use feed_files::FileRefusal;
use feed_files::trial::{AtEnd, TrialWriter};
use script_answers::Refusal;
use std::alloc::Global;
use std::test::Fail;
use view_preview::{
    Form, Job, Manner, PreviewFault, Source, TrialFault, no_trial, proof_job, trial_of,
};

/// The galley of one empty paragraph: its wedge sum is 127 of 38 to 150, and ten fills stand in it.
const SET: &str = "GALLEY 1 lines, 0 at fault, measure 120 points, tight 38, loose 150\n\
\n  line   place   c/f    sum  tight ...... loose\n\
\x20    1       0   8/7    127  ...............|.....    ··········\n";

/// Five words and four spaces leave 6.66 points, which 46 steps for each space take up: 53 and 46 are 99. At tight the
/// next word is 251,400 atoms too wide, and 108,600 are free; a point has 18,000.
const LOOSE: &str = "GALLEY 2 lines, 1 at fault, measure 120 points, tight 38, loose 60\n\
\nline 1: too loose (wedge sum 99, limit 60), places 0..19\n\
\x20 | nnn nnn nnn nnn nnn\n\
\x20 = 4 spaces; the next word, 'nnn', is 14.0 points too wide; 6.0 points are free for a part of it\n";

/// The same paragraph as in SET, whose wedge sum of 127 is above loose, as it may be.
const ABOVE: &str = "GALLEY 1 lines, 0 at fault, measure 120 points, tight 38, loose 100\n\
\n  line   place   c/f    sum  tight ...... loose\n\
\x20    1       0   8/7    127  ....................+    ··········\n";

/// The word has 17 times 120,000 atoms and once 96,000, and 24,000 are left of the measure. A space has 60,000 atoms,
/// and at tight 15 steps fewer, which are 50,280: the word is 26,280 atoms too wide, and a point has 18,000.
const LONE: &str = "GALLEY 1 lines, 1 at fault, measure 120 points, tight 38, loose 150\n\
\nline 1: too wide, places 0..18\n\
\x20 | nnnnnnnnnnnnnnnnnt\n\
\x20 = one word and no space to justify it; with one of at least 2.8 points it is 1.5 points too wide\n";

/// The symbols have 660,000 atoms and two spaces 120,000. Six fills of 216,000 leave 84,000 of the measure, which 64
/// steps for each of the two spaces take up: 53 and 64 are 117.
const STYLES: &str = "GALLEY 1 lines, 0 at fault, measure 120 points, tight 38, loose 150\n\
\n  line   place   c/f    sum  tight ...... loose\n\
\x20    1       0   7/12   117  ..............|......   _aa a_n^M^ ······\n";

/// The case has no `q`.
const LACKING: &str =
    "GALLEY 1 lines, 0 at fault, 1 missing sort, measure 120 points, tight 38, loose 150\n\
\nno matrix for Roman 'q' (U+0071) at place 1\n\
\x20 | nqn\n";

/// A directional mark, which the case has not either, is shown by its name in its style.
const MARKED: &str =
    "GALLEY 1 lines, 0 at fault, 1 missing sort, measure 120 points, tight 38, loose 150\n\
\nno matrix for italic '<U+202E>' (U+202E) at place 1\n\
\x20 | n_<U+202E>_n\n";

/// All settings are missing.
const NONE: &str = "no galley: the settings measure, tight, loose, case and wedge have no value\n";

/// Two settings are missing, and the number of the case is another.
const FEW: &str = "no galley: the settings loose and wedge have no value\n";

/// Both numbers are others: that of the case is written.
const OTHER: &str = "no galley: the setting case is 7, and the case has the number 1\n";

/// The number of the wedge is another.
const OTHER_WEDGE: &str = "no galley: the setting wedge is 9, and the wedge has the number 5\n";

/// What a proof writes, and how it ends.
#[derive(Drop)]
struct Left {
    written: Vec<u8, Global>,
    ended: Result<bool, PreviewFault>,
}

/// A form without second looks.
fn plainly(form: Form) -> Manner {
    Manner { form, looks: false }
}

/// Writes a proof, of which nothing is written where it ends with a fault; the files stay.
fn proofed(alloc: Global, k: u64, names: (&str, &str, &str), form: Form) -> Result<Left, Fail> {
    let (feed, case, wedge) = names;
    let mut files = rooms(alloc, k)?;
    let mut written = Vec::new(alloc);
    let ended = proof_job(
        memory(alloc),
        &mut written,
        &mut files,
        &job(feed, case, wedge),
        &no_trial(),
        plainly(form),
    );
    if !files.holds("a.ribbon", OLD) || files.bytes_of("a.ribbon.new").is_some() {
        return Err(Fail::new("a file changed"));
    }
    if ended.is_err() && !written.is_empty() {
        return Err(Fail::new("bytes before a fault"));
    }
    Ok(Left { written, ended })
}

/// Whether a feed has this proof, and is clean or not.
fn has_proof(alloc: Global, feed: &str, form: Form, text: &str, clean: bool) -> Result<bool, Fail> {
    let proof = proofed(alloc, 0, (feed, "c", "w"), form)?;
    Ok(proof.written.as_slice() == text.as_bytes() && proof.ended == Ok(clean))
}

#[test]
fn proofs_are_written(rt: HostRuntime) -> Result<(), Fail> {
    assert!(rt; has_proof(rt.alloc(), "set.feed", Form::Whole, SET, true)?);
    assert!(rt; has_proof(rt.alloc(), "loose.feed", Form::Faults, LOOSE, false)?);
    assert!(rt; has_proof(rt.alloc(), "above.feed", Form::Whole, ABOVE, true)?);
    assert!(rt; has_proof(rt.alloc(), "lone.feed", Form::Faults, LONE, false)?);
    assert!(rt; has_proof(rt.alloc(), "styles.feed", Form::Whole, STYLES, true)?);
    assert!(rt; has_proof(rt.alloc(), "none.feed", Form::Whole, NONE, false)?);
    Ok(())
}

#[test]
fn proofs_without_a_galley(rt: HostRuntime) -> Result<(), Fail> {
    assert!(rt; has_proof(rt.alloc(), "few.feed", Form::Whole, FEW, false)?);
    assert!(rt; has_proof(rt.alloc(), "other.feed", Form::Faults, OTHER, false)?);
    assert!(rt; has_proof(rt.alloc(), "wedge.feed", Form::Whole, OTHER_WEDGE, false)?);
    Ok(())
}

/// A symbol that the case lacks is a fault, though its line is set.
#[test]
fn lacking_symbol_is_not_clean(rt: HostRuntime) -> Result<(), Fail> {
    assert!(rt; has_proof(rt.alloc(), "lacking.feed", Form::Faults, LACKING, false)?);
    assert!(rt; has_proof(rt.alloc(), "marked.feed", Form::Faults, MARKED, false)?);
    Ok(())
}

/// Why no proof is written.
fn fault_of(
    alloc: Global,
    k: u64,
    names: (&str, &str, &str),
) -> Result<Option<PreviewFault>, Fail> {
    let proof = proofed(alloc, k, names, Form::Whole)?;
    Ok(proof.ended.err())
}

#[test]
fn sources_that_give_no_proof(rt: HostRuntime) -> Result<(), Fail> {
    let missing = PreviewFault::Feed(FeedTrouble::File(FileRefusal::Missing));
    assert_eq!(rt;
        fault_of(rt.alloc(), 0, ("b.feed", "c", "w"))?,
        Some(missing)
    );
    let no_wedge = PreviewFault::Input(Refusal::Wedge(1));
    assert_eq!(rt;
        fault_of(rt.alloc(), 0, ("set.feed", "c", "broken"))?,
        Some(no_wedge)
    );
    let device = PreviewFault::Input(Refusal::FileDevice);
    assert_eq!(rt;
        fault_of(rt.alloc(), 2, ("set.feed", "c", "w"))?,
        Some(device)
    );
    Ok(())
}

#[test]
fn closed_output_of_a_proof(rt: HostRuntime) -> Result<(), Fail> {
    let mut files = rooms(rt.alloc(), 0)?;
    let mut writer = TrialWriter::new(rt.alloc()).with_room(5, AtEnd::Fails);
    let ended = proof_job(
        memory(rt.alloc()),
        &mut writer,
        &mut files,
        &job("loose.feed", "c", "w"),
        &no_trial(),
        plainly(Form::Faults),
    );
    assert_eq!(rt; ended, Err(PreviewFault::Write));
    assert!(rt; LOOSE.as_bytes().starts_with(writer.written()));
    Ok(())
}

/// A setting that is tried counts in place of the copy's, and the copy's stays.
#[test]
fn settings_are_tried(rt: HostRuntime) -> Result<(), Fail> {
    let mut files = rooms(rt.alloc(), 0)?;
    let mut written = Vec::new(rt.alloc());
    let trial = match trial_of(rt.alloc(), &["loose=60", "loose=150"]) {
        Ok(trial) => trial,
        Err(_) => return Err(Fail::new("no trial")),
    };
    let ended = proof_job(
        memory(rt.alloc()),
        &mut written,
        &mut files,
        &job("loose.feed", "c", "w"),
        &trial,
        plainly(Form::Faults),
    );
    assert_eq!(rt; ended, Ok(true));
    assert!(rt; has_proof(rt.alloc(), "loose.feed", Form::Faults, LOOSE, false)?);
    Ok(())
}

/// The settings are the operations up to the fifth: with four of them the wedge has no value.
#[test]
fn galley_as_it_was(rt: HostRuntime) -> Result<(), Fail> {
    let mut files = rooms(rt.alloc(), 0)?;
    let mut written = Vec::new(rt.alloc());
    let version = Version {
        feed: "loose.feed",
        until: Some(4),
    };
    let from = Job {
        source: Source::Feed(version),
        case: "c",
        wedge: "w",
    };
    let ended = proof_job(
        memory(rt.alloc()),
        &mut written,
        &mut files,
        &from,
        &no_trial(),
        plainly(Form::Faults),
    );
    assert_eq!(rt; ended, Ok(false));
    assert!(rt; written.as_slice() == b"no galley: the setting wedge has no value\n".as_slice());
    Ok(())
}

/// A text that tries no setting refuses all, by its place.
#[test]
fn texts_that_try_nothing(rt: HostRuntime) {
    assert_eq!(rt;
        trial_of(rt.alloc(), &["loose=60", "loose"]),
        Err(TrialFault::NoSetting(1))
    );
    for text in &[
        "loose=241",
        "loose=15",
        "size=5",
        "=5",
        "loose =5",
        "loose=5 5",
        "loose=",
    ] {
        assert_eq!(rt;
            trial_of(rt.alloc(), &[*text]),
            Err(TrialFault::NoSetting(0))
        );
    }
}
