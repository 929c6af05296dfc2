use desk_script::{Mode, RunFault, SheetFault, run_sheet};
use feed_files::NoFiles;
use feed_files::trial::{AtEnd, TrialReader, TrialWriter};
use std::alloc::Global;
use std::test::Fail;

/// Nothing, where both are the same bytes.
pub fn same(got: &[u8], want: &[u8]) -> Result<(), Fail> {
    if got == want {
        Ok(())
    } else {
        Err(Fail::new("another answer"))
    }
}

/// Carries out a sheet, which must end at this line, or whole where that is 0, and have written this.
fn ends(
    alloc: Global,
    strict: bool,
    number: bool,
    input: &[u8],
    line: u64,
    want: &[u8],
) -> Result<(), Fail> {
    let mode = Mode { strict, number };
    let mut reader = TrialReader::new(input).in_steps_of(5);
    let mut written = Vec::new(alloc);
    let got = run_sheet(alloc, alloc, mode, &mut reader, &mut written, &mut NoFiles);
    let end = if line == 0 {
        Ok(())
    } else {
        Err(SheetFault::Line(line))
    };
    if got != end {
        return Err(Fail::new("another end"));
    }
    same(&written, want)
}

/// The third line names a site that is not there.
const REFUSED: &[u8] = b"site 1\ninsert 1 0 r\"a\"\nshow 2\nshow 1\n";

/// The third line gives the site the last counter but one, so that the fourth stops after one symbol.
const STOPPED: &[u8] =
    b"site 1\n\ntake 1 4d464431013fffffffffffffff0002000000000000000000000000000071\ninsert 1 0 r\"ab\"\nshow 1\n";

/// A comment, two empty lines, one of a carriage return alone, and a last line without an end.
const PASSED: &[u8] = b"# head\n\nsite 1\n\r\n#show 9\r\nshow 1";

/// Strict or not, with numbers or not, the sheet, the line at which it ends, and what is written.
const SHEETS: &[(bool, bool, &[u8], u64, &[u8])] = &[
    (true, true, REFUSED, 3, b"1 ok\n2 ok 1.1\n3 refused site\n"),
    (true, false, REFUSED, 3, b"ok\nok 1.1\nrefused site\n"),
    (
        false,
        true,
        REFUSED,
        0,
        b"1 ok\n2 ok 1.1\n3 refused site\n4 copy r\"a\"\n",
    ),
    (
        false,
        false,
        REFUSED,
        0,
        b"ok\nok 1.1\nrefused site\ncopy r\"a\"\n",
    ),
    (
        true,
        true,
        STOPPED,
        4,
        b"1 ok\n3 ok new 1 known 0\n4 stopped 1 clock\n",
    ),
    (
        false,
        true,
        STOPPED,
        0,
        b"1 ok\n2 refused command\n3 ok new 1 known 0\n4 stopped 1 clock\n5 copy r\"aq\"\n",
    ),
    (true, true, PASSED, 0, b"3 ok\n6 copy\n"),
    (true, false, PASSED, 0, b"ok\ncopy\n"),
    (
        false,
        true,
        PASSED,
        0,
        b"1 refused command\n2 refused command\n3 ok\n4 refused command\n5 refused command\n6 copy\n",
    ),
    (true, true, b" # no comment", 1, b"1 refused command\n"),
    (true, true, b"", 0, b""),
    (false, true, b"", 0, b""),
    (true, true, b"\n", 0, b""),
    (false, false, b"\n", 0, b"refused command\n"),
    (true, true, b"\r", 1, b"1 refused command\n"),
];

#[test]
fn sheets_in_each_mode(rt: HostRuntime) -> Result<(), Fail> {
    for (strict, number, input, line, want) in SHEETS {
        ends(rt.alloc(), *strict, *number, input, *line, want)?;
    }
    Ok(())
}

/// A sheet of one long line with this first byte and so many behind it, and then a command.
fn long_line(alloc: Global, first: u8, more: usize, line: u64, want: &[u8]) -> Result<(), Fail> {
    let mut input = Vec::new(alloc);
    input.push(first)?;
    input.resize(more.saturating_add(1), b'x')?;
    input.extend_from_slice(b"\r\nsite 1\n")?;
    ends(alloc, true, true, &input, line, want)
}

/// A line of more than 65,536 bytes is refused, and no comment.
#[test]
fn long_lines(rt: HostRuntime) -> Result<(), Fail> {
    long_line(rt.alloc(), b'#', 65_535, 0, b"2 ok\n")?;
    long_line(rt.alloc(), b'#', 65_536, 1, b"1 refused line\n")?;
    long_line(rt.alloc(), b'x', 65_535, 1, b"1 refused command\n")?;
    long_line(rt.alloc(), b'x', 65_536, 1, b"1 refused line\n")
}

/// How a strict sheet ends by this reader and this writer, and that the writer has these bytes.
fn breaks(
    alloc: Global,
    mut reader: TrialReader<'_>,
    mut writer: TrialWriter<Global>,
    fault: RunFault,
    want: &[u8],
) -> Result<(), Fail> {
    let mode = Mode {
        strict: true,
        number: true,
    };
    let got = run_sheet(alloc, alloc, mode, &mut reader, &mut writer, &mut NoFiles);
    if got != Err(SheetFault::Run(fault)) {
        return Err(Fail::new("another fault"));
    }
    same(writer.written(), want)
}

/// Nothing is written where the reader fails, and a prefix where the writer does; a stop is not reported then.
#[test]
fn failing_reader_and_writer(rt: HostRuntime) -> Result<(), Fail> {
    let alloc = rt.alloc();
    for call in 1..4u64 {
        let reader = TrialReader::new(REFUSED)
            .in_steps_of(20)
            .failing_at_call(call);
        breaks(alloc, reader, TrialWriter::new(alloc), RunFault::Read, b"")?;
    }
    let all: &[u8] = b"1 ok\n2 ok 1.1\n3 refused site\n";
    for room in 0..all.len() {
        let writer = TrialWriter::new(alloc).with_room(room, AtEnd::Fails);
        let want = &all[..room];
        breaks(
            alloc,
            TrialReader::new(REFUSED),
            writer,
            RunFault::Write,
            want,
        )?;
    }
    let writer = TrialWriter::new(alloc).with_room(3, AtEnd::TakesNone);
    breaks(
        alloc,
        TrialReader::new(REFUSED),
        writer,
        RunFault::Write,
        b"1 o",
    )
}

#[test]
fn words_of_the_faults(rt: HostRuntime) -> Result<(), Fail> {
    let mut text = String::new(rt.alloc());
    write!(text, "{}", SheetFault::Line(226))?;
    assert_eq!(rt; text.as_str(), "line 226 refused");
    let mut text = String::new(rt.alloc());
    write!(text, "{}", SheetFault::Run(RunFault::TooLong))?;
    assert_eq!(rt; text.as_str(), "too long");
    Ok(())
}
