//! Proofs for editors, and second looks.

use crate::preview::rooms::{job, memory, rooms};
use std::alloc::Global;
use std::test::Fail;
use view_preview::{Form, Job, Manner, PreviewFault, Source, proof_job, trial_of};

/// A form, with second looks or without.
fn manner(form: Form, looks: bool) -> Manner {
    Manner { form, looks }
}

/// What is written of a job, and how that ends. The text is under the name `a_text`; its settings are tried.
fn proofed(
    alloc: Global,
    text: &[u8],
    job: &Job<'_>,
    sets: &[&str],
    manner: Manner,
) -> Result<(Vec<u8, Global>, Result<bool, PreviewFault>), Fail> {
    let mut files = rooms(alloc, 0)?;
    files.put("a_text", text)?;
    let Ok(trial) = trial_of(alloc, sets) else {
        return Err(Fail::new("no trial"));
    };
    let mut written = Vec::new(alloc);
    let ended = proof_job(memory(alloc), &mut written, &mut files, job, &trial, manner);
    Ok((written, ended))
}

/// A text, its settings, whether it is plain, what is written of it and whether it is clean.
type Row = (
    &'static [u8],
    &'static [&'static str],
    bool,
    &'static str,
    bool,
);

const SET: &[&str] = &["measure=120", "tight=38", "loose=150"];

/// The same where a line is too loose.
const LOOSE: &[&str] = &["measure=120", "tight=38", "loose=60"];

/// Whether a row is so.
fn is_so(alloc: Global, row: Row, manner: Manner) -> Result<bool, Fail> {
    let (text, sets, plain, wanted, clean) = row;
    let job = Job {
        source: Source::Text {
            name: "a_text",
            plain,
        },
        case: "c",
        wedge: "w",
    };
    let (written, ended) = proofed(alloc, text, &job, sets, manner)?;
    Ok(written.as_slice() == wanted.as_bytes() && ended == Ok(clean))
}

/// Columns count characters, and a symbol is at the character that ends it: an escaped one behind its backslash. Marks
/// and carriage returns are no symbols.
#[test]
fn faults_of_texts_have_their_places(rt: HostRuntime) -> Result<(), Fail> {
    let rows: [Row; 8] = [
        ("nn\n".as_bytes(), SET, false, "", true),
        (
            "\u{e9}\\_".as_bytes(),
            SET,
            false,
            "a_text:1:1: no matrix for Roman \u{e9}\na_text:1:3: no matrix for Roman _\n",
            false,
        ),
        (
            b"n_n",
            SET,
            true,
            "a_text:1:2: no matrix for Roman _\n",
            false,
        ),
        (
            b"n\r\n_aq_",
            SET,
            false,
            "a_text:2:3: no matrix for italic q\n",
            false,
        ),
        (
            b"\r\nnnn nnn nnn nnn nnn nnn",
            LOOSE,
            false,
            "a_text:2:1: too loose (wedge sum 99, limit 60)\n",
            false,
        ),
        // A mark stands before the first symbol. The first five words and four spaces leave 156,000 atoms, which 60
        // steps for each space take up: 53 and 60 are 113.
        (
            b"_aaa_ nnn nnn nnn nnn nnn",
            LOOSE,
            false,
            "a_text:1:2: too loose (wedge sum 113, limit 60)\n",
            false,
        ),
        (
            b"",
            &[],
            false,
            "a_text: no galley: the settings measure, tight and loose have no value\n",
            false,
        ),
        (
            b"n",
            &["measure=120", "tight=38", "loose=60", "case=7"],
            false,
            "a_text: no galley: the setting case is 7, and the case has the number 1\n",
            false,
        ),
    ];
    for row in rows {
        assert!(rt;
            is_so(rt.alloc(), row, manner(Form::Located, false))?,
            "{row:?}"
        );
    }
    Ok(())
}

/// A feed's places are in what is exported of it, and its copy faults have none.
#[test]
fn faults_of_feeds_have_their_places(rt: HostRuntime) -> Result<(), Fail> {
    let alloc = rt.alloc();
    let rows = [
        ("set.feed", "", true),
        (
            "marked.feed",
            "marked.feed:1:3: no matrix for italic <U+202E>\n",
            false,
        ),
        (
            "both.feed",
            "both.feed: waiting 40.1\nboth.feed: void 41.1\nboth.feed:1:1: too loose (wedge sum 99, limit 60)\n",
            false,
        ),
        (
            "none.feed",
            "none.feed: no galley: the settings measure, tight, loose, case and wedge have no value\n",
            false,
        ),
    ];
    for (feed, wanted, clean) in rows {
        let from = job(feed, "c", "w");
        let (written, ended) = proofed(alloc, b"", &from, &[], manner(Form::Located, false))?;
        assert_eq!(rt; ended, Ok(clean), "{feed}");
        assert!(rt; written.as_slice() == wanted.as_bytes(), "{feed}");
    }
    Ok(())
}

/// Second looks come below, and are no faults; where there is no galley there are none.
#[test]
fn looks_are_no_faults(rt: HostRuntime) -> Result<(), Fail> {
    let located: [Row; 3] = [
        (
            b"n  n",
            SET,
            false,
            "a_text:1:2: warning: two spaces\n",
            true,
        ),
        (
            b"q  n",
            SET,
            false,
            "a_text:1:1: no matrix for Roman q\na_text:1:2: warning: two spaces\n",
            false,
        ),
        (
            b"n  n",
            &[],
            false,
            "a_text: no galley: the settings measure, tight and loose have no value\n",
            false,
        ),
    ];
    for row in located {
        assert!(rt;
            is_so(rt.alloc(), row, manner(Form::Located, true))?,
            "{row:?}"
        );
    }
    let faults: [Row; 2] = [
        (
            b"n  n",
            SET,
            false,
            "GALLEY 1 lines, 0 at fault, measure 120 points, tight 38, loose 150\n\nlook at 1: two spaces: \"n  n\"\n",
            true,
        ),
        (
            b"n t",
            SET,
            false,
            "GALLEY 1 lines, 0 at fault, measure 120 points, tight 38, loose 150\n",
            true,
        ),
    ];
    for row in faults {
        assert!(rt;
            is_so(rt.alloc(), row, manner(Form::Faults, true))?,
            "{row:?}"
        );
    }
    Ok(())
}
