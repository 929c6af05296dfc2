use feed_files::trial::{AtEnd, TrialFiles, TrialReader, TrialWriter};
use feed_files::{Files, NoFiles};
use program_desk::program;
use program_host::Explains;
use std::alloc::{AllocError, Global};
use std::test::Fail;

/// A status, what was written, and what was said of faults.
#[derive(Drop)]
struct Outcome {
    status: u8,
    written: TrialWriter<Global>,
    faults: TrialWriter<Global>,
}

/// The words of a line.
pub fn words(alloc: Global, line: &str) -> Result<Vec<String>, AllocError> {
    let mut words = Vec::new(alloc);
    for word in line.split(' ') {
        words.push(String::from_str(alloc, word)?)?;
    }
    Ok(words)
}

/// Runs the program on the words.
fn attempt<F: Files + Explains>(
    alloc: Global,
    words: &[String],
    reader: TrialReader<'_>,
    writer: TrialWriter<Global>,
    files: &mut F,
) -> Outcome {
    let mut reader = reader;
    let mut written = writer;
    let mut faults = TrialWriter::new(alloc);
    let status = program(alloc, words, &mut reader, &mut written, &mut faults, files);
    Outcome {
        status,
        written,
        faults,
    }
}

/// Runs the program on the words of a line, with a reader and a writer that do not fail.
fn tried_on<F: Files + Explains>(
    alloc: Global,
    line: &str,
    input: &[u8],
    files: &mut F,
) -> Result<Outcome, AllocError> {
    let words = words(alloc, line)?;
    Ok(attempt(
        alloc,
        &words,
        TrialReader::new(input),
        TrialWriter::new(alloc),
        files,
    ))
}

/// Whether a run ended with this status, and this was written and said.
fn ended(got: &Outcome, status: u8, written: &[u8], reported: &[u8]) -> bool {
    got.status == status && got.written.written() == written && got.faults.written() == reported
}

/// Whether a run on the words of a line, with a reader and a writer that do not fail, ends so.
pub fn ends<F: Files + Explains>(
    alloc: Global,
    files: &mut F,
    line: &str,
    input: &[u8],
    status: u8,
    written: &[u8],
    reported: &[u8],
) -> bool {
    match tried_on(alloc, line, input, files) {
        Ok(got) => ended(&got, status, written, reported),
        Err(_) => false,
    }
}

/// Whether a script stops so, with a reader that may fail and a writer that fails where its room ends.
fn script_ends(
    alloc: Global,
    reader: TrialReader<'_>,
    room: Option<usize>,
    written: &[u8],
    reported: &[u8],
) -> bool {
    let Ok(words) = words(alloc, "script") else {
        return false;
    };
    let writer = match room {
        Some(room) => TrialWriter::new(alloc).with_room(room, AtEnd::Fails),
        None => TrialWriter::new(alloc),
    };
    let got = attempt(alloc, &words, reader, writer, &mut NoFiles);
    ended(&got, 1, written, reported)
}

/// One file with these bytes.
fn one_file(alloc: Global, name: &str, bytes: &[u8]) -> Result<TrialFiles<Global>, AllocError> {
    let mut files = TrialFiles::new(alloc);
    files.put(name, bytes)?;
    Ok(files)
}

/// Two stored feeds.
fn two_feeds(alloc: Global, a: &[u8], b: &[u8]) -> Result<TrialFiles<Global>, AllocError> {
    let mut files = one_file(alloc, "a.feed", a)?;
    files.put("b.feed", b)?;
    Ok(files)
}

const TWO_SITES: &[u8] = b"site 1\nsite 2\ninsert 1 0 r\"ab\"\nsend 1 2\nshow 1\nshow 2\nfeed 2\n";

const TWO_SITES_ANSWERS: &[u8] =
    b"ok\nok\nok 1.1..2.1\nok new 2 known 0\ncopy r\"ab\"\ncopy r\"ab\"\nfeed 4d4644320400000000000000010001000000000000000000000200000000610000000062\n";

#[test]
fn program_of_two_sites(rt: HostRuntime) {
    let want = TWO_SITES_ANSWERS;
    assert!(rt; ends(rt.alloc(), &mut NoFiles, "script", TWO_SITES, 0, want, b""));
}

/// Refused words have the status 2; something is said of them, and nothing is written.
fn is_refused(got: &Outcome) -> bool {
    got.status == 2 && got.written.written().is_empty() && !got.faults.written().is_empty()
}

/// Whether the words of a line are refused.
fn refuses(alloc: Global, line: &str) -> bool {
    match tried_on(alloc, line, TWO_SITES, &mut NoFiles) {
        Ok(got) => is_refused(&got),
        Err(_) => false,
    }
}

/// Whether no words are refused.
fn refuses_none(alloc: Global) -> bool {
    let none = Vec::new(alloc);
    let reader = TrialReader::new(TWO_SITES);
    let writer = TrialWriter::new(alloc);
    is_refused(&attempt(alloc, &none, reader, writer, &mut NoFiles))
}

#[test]
fn refused_words(rt: HostRuntime) {
    assert!(rt; refuses_none(rt.alloc()));
    for &line in &[
        "jump",
        "script script",
        "Script",
        "desk",
        "desk a.feed",
        "desk --site 3",
        "desk a.feed --site 65536",
        "desk a.feed --site x",
        "desk a.feed --site 0",
        "desk a.feed --site 3 --site 3",
        "merge a.feed",
        "export",
        "import a.feed",
        "import a.feed --site 0",
        "proof a.feed --case c",
        "replace a.feed --site 1 old",
        "check",
        "diff a.feed",
        "punch a.feed --case c --wedge w",
        "punch --case c --wedge w -o a.rib",
        "proof a.feed --case c --wedge w --page a4",
        "proof a.feed --case c --wedge w --html a.html --page 199",
        "proof a.feed --case c --wedge w --html a.html --page 14401",
        "proof a.feed --case c --wedge w --svg a.svg --page A4",
    ] {
        assert!(rt; refuses(rt.alloc(), line), "{line}");
    }
}

/// Whether the words of a line get help, or the version: the status is 0, and nothing is said of faults.
fn helps(alloc: Global, line: &str) -> bool {
    match tried_on(alloc, line, b"", &mut NoFiles) {
        Ok(got) => {
            got.status == 0 && !got.written.written().is_empty() && got.faults.written().is_empty()
        }
        Err(_) => false,
    }
}

#[test]
fn help_is_written(rt: HostRuntime) {
    for &line in &[
        "help",
        "--help",
        "script --help",
        "help desk",
        "merge --help",
    ] {
        assert!(rt; helps(rt.alloc(), line), "{line}");
    }
    let version = b"copydesk 0.2.0\n";
    assert!(rt; ends(rt.alloc(), &mut NoFiles, "--version", b"", 0, version, b""));
}

#[test]
fn writer_of_a_program_fails(rt: HostRuntime) {
    let reader = TrialReader::new(b"site 1\nsite 2\n");
    assert!(rt;
        script_ends(
            rt.alloc(),
            reader,
            Some(5),
            b"ok\nok",
            b"copydesk: write fault\n"
        )
    );
}

#[test]
fn reader_of_a_program_fails(rt: HostRuntime) {
    let reader = TrialReader::new(b"site 1\nsite 2\n")
        .in_steps_of(7)
        .failing_at_call(2);
    assert!(rt; script_ends(rt.alloc(), reader, None, b"ok\n", b"copydesk: read fault\n"));
}

/// Whether a script whose reader fails stops so, where standard error fails after this many bytes.
fn is_cut_off(alloc: Global, room: usize, reported: &[u8]) -> bool {
    let Ok(words) = words(alloc, "script") else {
        return false;
    };
    let mut reader = TrialReader::new(b"site 1\n").failing_at_call(1);
    let mut written = TrialWriter::new(alloc);
    let mut faults = TrialWriter::new(alloc).with_room(room, AtEnd::Fails);
    let status = program(
        alloc,
        &words,
        &mut reader,
        &mut written,
        &mut faults,
        &mut NoFiles,
    );
    status == 1 && faults.written() == reported
}

#[test]
fn standard_error_that_fails(rt: HostRuntime) {
    assert!(rt; is_cut_off(rt.alloc(), 0, b""));
    assert!(rt; is_cut_off(rt.alloc(), 14, b"copydesk: read"));
    assert!(rt; is_cut_off(rt.alloc(), 21, b"copydesk: read fault\n"));
}

#[test]
fn feeds_are_compared(rt: HostRuntime) -> Result<(), Fail> {
    let mut files = two_feeds(rt.alloc(), ONE_INSERT, ONE_INSERT)?;
    let line = "diff a.feed b.feed";
    let same = b"a.feed alone none\nb.feed alone none\n";
    assert!(rt; ends(rt.alloc(), &mut files, line, b"", 0, same, b""));
    let mut files = two_feeds(rt.alloc(), ONE_INSERT, b"MFD2")?;
    let other = b"a.feed alone 3: 1\nb.feed alone none\n- 0 x\n+ 0\n";
    assert!(rt; ends(rt.alloc(), &mut files, line, b"", 1, other, b""));
    assert!(rt; is_missing(rt.alloc(), &mut files, "diff a.feed none.feed"));
    Ok(())
}

/// Whether a run on the words of a line stops at a file, and writes nothing.
fn is_missing<F: Files + Explains>(alloc: Global, files: &mut F, line: &str) -> bool {
    match tried_on(alloc, line, b"", files) {
        Ok(got) => {
            got.status == 1
                && got.written.written().is_empty()
                && got.faults.written().starts_with(b"copydesk: file fault\n")
        }
        Err(_) => false,
    }
}

/// One insert, 1.3.
const ONE_INSERT: &[u8] = b"MFD2\x01\0\0\0\0\0\0\0\x01\0\x03\0\0\0\0\0\0\0\0\0\0\0\0\0\0x";

/// A sheet whose fourth line is refused, and one that is not.
const REFUSED_SHEET: &[u8] = b"site 1\n\n# a note\ninsert 1 9 r\"a\"\nshow 1\n";

const SHEET: &[u8] = b"# a note\ninsert 3 0 r\"x\"\nshow 3\n";

#[test]
fn sheets_are_strict(rt: HostRuntime) {
    let strict = b"ok\nrefused place\n";
    let line = "script --strict";
    assert!(rt;
        ends(
            rt.alloc(),
            &mut NoFiles,
            line,
            REFUSED_SHEET,
            1,
            strict,
            b"copydesk: line 4 refused\n"
        )
    );
    let input = b"site 1\nshow 2\nshow 1\n";
    let numbered = b"1 ok\n2 refused site\n3 copy\n";
    assert!(rt;
        ends(
            rt.alloc(),
            &mut NoFiles,
            "script --number",
            input,
            0,
            numbered,
            b""
        )
    );
}

#[test]
fn sheets_are_stored(rt: HostRuntime) {
    let mut files = TrialFiles::new(rt.alloc());
    let line = "desk a.feed --site 3 --strict --number";
    let numbered = b"2 ok 1.3\n3 copy r\"x\"\n";
    assert!(rt; ends(rt.alloc(), &mut files, line, SHEET, 0, numbered, b""));
    assert!(rt; files.holds("a.feed", ONE_INSERT));
}

#[test]
fn stopped_sheets_store_nothing(rt: HostRuntime) -> Result<(), Fail> {
    let mut files = one_file(rt.alloc(), "a.feed", ONE_INSERT)?;
    let line = "desk a.feed --site 3 --strict --why";
    let sheet = b"insert 3 1 r\"y\"\ndelete 3 7\n";
    let answers = b"ok 2.3\nrefused place\n";
    let reported =
        b"copydesk: line 2 refused\nstandard input: the answer to line 2 says why; a.feed is as it was\n";
    assert!(rt; ends(rt.alloc(), &mut files, line, sheet, 1, answers, reported));
    assert!(rt; files.holds("a.feed", ONE_INSERT));
    Ok(())
}

#[test]
fn program_on_a_full_feed(rt: HostRuntime) {
    let mut files = TrialFiles::new(rt.alloc());
    let line = "desk a.feed --site 3";
    let insert = b"insert 3 0 r\"x\"\n";
    assert!(rt; ends(rt.alloc(), &mut files, line, insert, 0, b"ok 1.3\n", b""));
    assert!(rt; files.holds("a.feed", ONE_INSERT));
    let mut files = files.for_next_run();
    let line = "desk a.feed --site=3";
    let copy = b"copy r\"x\"\n";
    assert!(rt; ends(rt.alloc(), &mut files, line, b"show 3\n", 0, copy, b""));
}

#[test]
fn refused_stored_feed(rt: HostRuntime) -> Result<(), Fail> {
    let mut files = one_file(rt.alloc(), "a.feed", b"MF")?;
    let line = "desk a.feed --site 3";
    let reported = b"copydesk: feed refused\n";
    assert!(rt; ends(rt.alloc(), &mut files, line, b"show 3\n", 1, b"", reported));
    assert!(rt; files.holds("a.feed", b"MF"));
    let mut files = files.for_next_run();
    let line = "desk a.feed --site 3 --why";
    let reported = b"copydesk: feed refused\na.feed: byte 0: no feed begins so\n";
    assert!(rt; ends(rt.alloc(), &mut files, line, b"", 1, b"", reported));
    Ok(())
}

/// The feed of so many settings, each of the measure.
fn settings_feed(alloc: Global, count: u64) -> Result<Vec<u8>, AllocError> {
    let mut bytes = Vec::new(alloc);
    bytes.extend_from_slice(b"MFD1")?;
    for counter in 0..count {
        bytes.push(3)?;
        bytes.extend_from_slice(&counter.wrapping_add(1).to_be_bytes())?;
        bytes.extend_from_slice(b"\0\x01\x01\0\0\0\x0c")?;
    }
    Ok(bytes)
}

#[test]
fn program_on_too_many(rt: HostRuntime) -> Result<(), Fail> {
    let feed = settings_feed(rt.alloc(), 1_048_577)?;
    let mut files = one_file(rt.alloc(), "a.feed", &feed)?;
    let line = "desk a.feed --site 3";
    let reported = b"copydesk: not opened\n";
    assert!(rt; ends(rt.alloc(), &mut files, line, b"show 3\n", 1, b"", reported));
    assert!(rt; files.holds("a.feed", &feed));
    Ok(())
}

#[test]
fn failing_files(rt: HostRuntime) {
    let mut files = TrialFiles::new(rt.alloc()).failing_at_call(4);
    let line = "desk a.feed --site 3";
    let reported = b"copydesk: file fault\n";
    assert!(rt;
        ends(
            rt.alloc(),
            &mut files,
            line,
            b"show 3\n",
            1,
            b"copy\n",
            reported
        )
    );
    assert!(rt; files.bytes_of("a.feed").is_none());
}

/// Whether a desk whose writer fails after five bytes stops there.
fn stops_in_answer<F: Files + Explains>(alloc: Global, files: &mut F) -> bool {
    let Ok(words) = words(alloc, "desk a.feed --site 3") else {
        return false;
    };
    let reader = TrialReader::new(b"insert 3 0 r\"y\"\nshow 3\n");
    let writer = TrialWriter::new(alloc).with_room(5, AtEnd::Fails);
    let got = attempt(alloc, &words, reader, writer, files);
    ended(&got, 1, b"ok 2.", b"copydesk: write fault\n")
}

#[test]
fn program_stores_after_a_stopped_run(rt: HostRuntime) -> Result<(), Fail> {
    let mut files = one_file(rt.alloc(), "a.feed", ONE_INSERT)?;
    assert!(rt; stops_in_answer(rt.alloc(), &mut files));
    assert!(rt; files.holds("a.feed", ONE_INSERT));
    Ok(())
}

/// One insert, 1.2: the symbol `y`.
const ANOTHER_INSERT: &[u8] = b"MFD2\x01\0\0\0\0\0\0\0\x01\0\x02\0\0\0\0\0\0\0\0\0\0\0\0\0\0y";

/// Both inserts: the newer of two that stand at one place comes first, and of one counter that of the greater site.
const BOTH_INSERTS: &[u8] =
    b"MFD2\x01\0\0\0\0\0\0\0\x01\0\x02\0\0\0\0\0\0\0\0\0\0\0\0\0\0y\x01\0\0\0\0\0\0\0\x01\0\x03\0\0\0\0\0\0\0\0\0\0\0\0\0\0x";

#[test]
fn feeds_are_merged(rt: HostRuntime) -> Result<(), Fail> {
    let mut files = two_feeds(rt.alloc(), ONE_INSERT, ANOTHER_INSERT)?;
    let line = "merge a.feed b.feed a.feed";
    let lines =
        b"b.feed ok new 1 known 0\nopen at 0\n  now   xy\n  here  x\n  there y\n  was  \na.feed ok new 0 known 1\nfaults none\n";
    assert!(rt; ends(rt.alloc(), &mut files, line, b"", 0, lines, b""));
    assert!(rt; files.holds("a.feed", BOTH_INSERTS));
    assert!(rt; files.holds("b.feed", ANOTHER_INSERT));
    Ok(())
}

/// Words that two rooms changed are written; where they are to be reviewed the status says so, and all is stored.
#[test]
fn open_words_are_reviewed(rt: HostRuntime) -> Result<(), Fail> {
    let mut files = two_feeds(rt.alloc(), ONE_INSERT, ANOTHER_INSERT)?;
    let line = "merge a.feed b.feed --review";
    let lines =
        b"b.feed ok new 1 known 0\nopen at 0\n  now   xy\n  here  x\n  there y\n  was  \nfaults none\n";
    assert!(rt; ends(rt.alloc(), &mut files, line, b"", 1, lines, b""));
    assert!(rt; files.holds("a.feed", BOTH_INSERTS));
    let mut files = files.for_next_run();
    let lines = b"b.feed ok new 0 known 1\nfaults none\n";
    assert!(rt; ends(rt.alloc(), &mut files, line, b"", 0, lines, b""));
    Ok(())
}

#[test]
fn refused_merge(rt: HostRuntime) -> Result<(), Fail> {
    let mut files = two_feeds(rt.alloc(), ONE_INSERT, b"MFD2\x09")?;
    let line = "merge a.feed a.feed b.feed";
    let reported = b"copydesk: feed refused\nb.feed: byte 4: no such kind of operation\n";
    assert!(rt; ends(rt.alloc(), &mut files, line, b"", 1, b"", reported));
    let mut files = files.for_next_run();
    let line = "merge a.feed c.feed";
    let reported = b"copydesk: file fault\nc.feed: a call failed\n";
    assert!(rt; ends(rt.alloc(), &mut files, line, b"", 1, b"", reported));
    assert!(rt; files.holds("a.feed", ONE_INSERT));
    Ok(())
}

#[test]
fn copy_is_exported(rt: HostRuntime) -> Result<(), Fail> {
    let mut files = one_file(rt.alloc(), "a.feed", BOTH_INSERTS)?;
    assert!(rt; ends(rt.alloc(), &mut files, "export a.feed", b"", 0, b"xy", b""));
    assert!(rt; is_missing(rt.alloc(), &mut files, "export b.feed"));
    Ok(())
}

#[test]
fn text_is_imported(rt: HostRuntime) -> Result<(), Fail> {
    let mut files = one_file(rt.alloc(), "a.feed", ONE_INSERT)?;
    let changed = b"ok inserted 1 deleted 1\n";
    let line = "import a.feed --site 3";
    assert!(rt; ends(rt.alloc(), &mut files, line, b"_y_", 0, changed, b""));
    let mut files = files.for_next_run();
    let line = "desk a.feed --site 3";
    assert!(rt;
        ends(
            rt.alloc(),
            &mut files,
            line,
            b"show 3\n",
            0,
            b"copy i\"y\"\n",
            b""
        )
    );
    let mut files = files.for_next_run();
    let line = "import a.feed --site 3 --plain";
    assert!(rt; ends(rt.alloc(), &mut files, line, b"_", 0, changed, b""));
    let mut files = files.for_next_run();
    assert!(rt; ends(rt.alloc(), &mut files, "export a.feed", b"", 0, b"\\_", b""));
    Ok(())
}

#[test]
fn refused_text(rt: HostRuntime) -> Result<(), Fail> {
    let mut files = one_file(rt.alloc(), "a.feed", ONE_INSERT)?;
    let line = "import a.feed --site 3";
    let reported = b"copydesk: line 2, column 1: a backslash that escapes nothing\n";
    assert!(rt; ends(rt.alloc(), &mut files, line, b"ab\n\\c", 1, b"", reported));
    assert!(rt; files.holds("a.feed", ONE_INSERT));
    Ok(())
}

const BLANK_ROW: &[u8] =
    b"[\"\",\"\",\"\",\"\",\"\",\"\",\"\",\"\",\"\",\"\",\"\",\"\",\"\",\"\",\"\"],";

const WEDGE: &[u8] =
    b"wedge = 5\nset_q = 48\npica = \"sixth\"\nunits = [5, 6, 7, 8, 9, 9, 9, 10, 10, 11, 12, 13, 14, 15, 18]\n";

/// A case without symbols, a wedge, and a feed without settings.
pub fn metal(alloc: Global) -> Result<TrialFiles<Global>, AllocError> {
    let mut case = Vec::new(alloc);
    case.extend_from_slice(b"case = 1\nspace = \"G1\"\nfill = [\"O15\", \"A5\"]\nrows = [")?;
    for _ in 0..15 {
        case.extend_from_slice(BLANK_ROW)?;
    }
    case.extend_from_slice(b"]\n")?;
    let mut files = TrialFiles::new(alloc);
    files.put("a.feed", b"MFD2")?;
    files.put("c", &case)?;
    files.put("w", WEDGE)?;
    files.put("b", b"wedge =")?;
    Ok(files)
}

/// Gives the feed its settings, and a copy of one empty paragraph.
pub fn set(alloc: Global, files: &mut TrialFiles<Global>) -> bool {
    let commands =
        b"set 1 measure 120\nset 1 tight 38\nset 1 loose 150\nset 1 case 1\nset 1 wedge 5\ninsert 1 0 r\"\\n\"\n";
    match tried_on(alloc, "desk a.feed --site 1", commands, files) {
        Ok(got) => got.status == 0,
        Err(_) => false,
    }
}

#[test]
fn galley_is_proofed(rt: HostRuntime) -> Result<(), Fail> {
    let mut files = metal(rt.alloc())?;
    let line = "proof a.feed --case c --wedge w";
    let none = b"no galley: the settings measure, tight, loose, case and wedge have no value\n";
    assert!(rt; ends(rt.alloc(), &mut files, line, b"", 1, none, b""));
    assert!(rt; set(rt.alloc(), &mut files));
    let mut files = files.for_next_run();
    let line = "proof a.feed --faults --wedge w --case c";
    let clean = b"GALLEY 1 lines, 0 at fault, measure 120 points, tight 38, loose 150\n";
    assert!(rt; ends(rt.alloc(), &mut files, line, b"", 0, clean, b""));
    let line = "proof a.feed --case c --wedge b";
    let reported = b"copydesk: input refused\nb: it is not TOML\n";
    assert!(rt; ends(rt.alloc(), &mut files, line, b"", 1, b"", reported));
    let line = "proof a.feed --case d --wedge w";
    // Files in memory do not know which of the two they refused: they name the one that is asked for.
    let reported = b"copydesk: input refused\nw: a call failed\n";
    assert!(rt; ends(rt.alloc(), &mut files, line, b"", 1, b"", reported));
    Ok(())
}

/// Whether a file is kept that begins so.
pub fn begins(files: &TrialFiles<Global>, name: &str, first: &[u8]) -> bool {
    match files.bytes_of(name) {
        Some(kept) => kept.starts_with(first),
        None => false,
    }
}

#[test]
fn ribbon_is_punched(rt: HostRuntime) -> Result<(), Fail> {
    let mut files = metal(rt.alloc())?;
    let line = "punch a.feed --case c --wedge w -o a.rib";
    let none =
        b"no ribbon: missing measure, missing tight, missing loose, missing case, missing wedge\n";
    assert!(rt;
        ends(
            rt.alloc(),
            &mut files,
            line,
            b"",
            1,
            none,
            b"copydesk: no ribbon\na.feed: its job has faults\n"
        )
    );
    assert!(rt; files.bytes_of("a.rib").is_none());
    assert!(rt; set(rt.alloc(), &mut files));
    let mut files = files.for_next_run();
    assert!(rt; ends(rt.alloc(), &mut files, line, b"", 0, b"", b""));
    assert!(rt; begins(&files, "a.rib", b"MRB1"));
    let line = "punch b.feed --case c --wedge w --output a.rib";
    let reported = b"copydesk: file fault\nb.feed: a call failed\n";
    assert!(rt; ends(rt.alloc(), &mut files, line, b"", 1, b"", reported));
    Ok(())
}

/// Gives the feed the number of another case.
fn set_other_case(alloc: Global, files: &mut TrialFiles<Global>) -> bool {
    match tried_on(alloc, "desk a.feed --site 1", b"set 1 case 7\n", files) {
        Ok(got) => got.status == 0,
        Err(_) => false,
    }
}

#[test]
fn case_of_another_number(rt: HostRuntime) -> Result<(), Fail> {
    let mut files = metal(rt.alloc())?;
    assert!(rt; set(rt.alloc(), &mut files));
    let mut files = files.for_next_run();
    assert!(rt; set_other_case(rt.alloc(), &mut files));
    let mut files = files.for_next_run();
    let line = "punch a.feed --case c --wedge w -o a.rib";
    let other = b"no ribbon: other case\n";
    let reported = b"copydesk: no ribbon\nc: it is case 1, and a.feed has the setting case 7\n";
    assert!(rt; ends(rt.alloc(), &mut files, line, b"", 1, other, reported));
    let line = "proof a.feed --case c --wedge w";
    let none = b"no galley: the setting case is 7, and the case has the number 1\n";
    assert!(rt; ends(rt.alloc(), &mut files, line, b"", 1, none, b""));
    Ok(())
}

#[test]
fn text_is_replaced(rt: HostRuntime) -> Result<(), Fail> {
    let mut files = one_file(rt.alloc(), "a.feed", BOTH_INSERTS)?;
    let line = "replace a.feed --site 3 y _z_";
    let changed = b"ok inserted 1 deleted 1\n";
    assert!(rt; ends(rt.alloc(), &mut files, line, b"", 0, changed, b""));
    let mut files = files.for_next_run();
    assert!(rt;
        ends(
            rt.alloc(),
            &mut files,
            "export a.feed",
            b"",
            0,
            b"x_z_",
            b""
        )
    );
    let mut files = files.for_next_run();
    let line = "replace a.feed --site 3 y x";
    assert!(rt;
        ends(
            rt.alloc(),
            &mut files,
            line,
            b"",
            1,
            b"no place\n",
            b"copydesk: no place\n"
        )
    );
    let mut files = files.for_next_run();
    let line = "replace a.feed --site 3 x \\q";
    let reported = b"copydesk: NEW, line 1, column 1: a backslash that escapes nothing\n";
    assert!(rt; ends(rt.alloc(), &mut files, line, b"", 1, b"", reported));
    Ok(())
}

#[test]
fn files_are_checked(rt: HostRuntime) -> Result<(), Fail> {
    let mut files = metal(rt.alloc())?;
    let lines =
        b"a.feed ok: 0 operations, 0 symbols shown, faults none\nw ok: wedge 5, set 12 (48 quarter points), pica sixth\n";
    assert!(rt; ends(rt.alloc(), &mut files, "check a.feed w", b"", 0, lines, b""));
    let lines = b"none no file\nw ok: wedge 5, set 12 (48 quarter points), pica sixth\n";
    assert!(rt; ends(rt.alloc(), &mut files, "check none w", b"", 1, lines, b""));
    Ok(())
}
