//! Readers and writers that fail, and lines of every form.

use crate::running::{answers, ran, same};
use desk_script::RunFault;
use feed_files::NoFiles;
use feed_files::trial::{AtEnd, TrialReader, TrialWriter};
use linked_list_allocator::LocalHeap;
use std::alloc::Global;
use std::io::{self, ErrorKind, Read, Write};
use std::test::Fail;

const FAILURES: &[u8] = b"site 1\nsite 2\n";

/// Runs two commands, which must end so and have written this.
fn ends(
    mut reader: TrialReader<'_>,
    mut writer: TrialWriter<Global>,
    alloc: Global,
    end: RunFault,
    want: &[u8],
) -> Result<(), Fail> {
    let got = ran(alloc, alloc, &mut reader, &mut writer, &mut NoFiles);
    if got != Err(end) {
        return Err(Fail::new("another end"));
    }
    same(writer.written(), want, 0)
}

#[test]
fn failing_writer(rt: HostRuntime) -> Result<(), Fail> {
    let alloc = rt.alloc();
    for (bytes, calls, at_end, want) in [
        (5usize, u64::MAX, AtEnd::Fails, b"ok\nok".as_slice()),
        (5, u64::MAX, AtEnd::TakesNone, b"ok\nok"),
        (usize::MAX, 1, AtEnd::Fails, b"ok\n"),
    ] {
        let reader = TrialReader::new(FAILURES);
        let writer = TrialWriter::new(alloc)
            .with_room(bytes, at_end)
            .with_calls(calls, at_end);
        ends(reader, writer, alloc, RunFault::Write, want)?;
    }
    for k in 0..=TWO_SITES_ANSWERS.len() {
        written_up_to(alloc, k, None)?;
        for &kind in &FAILURE_KINDS {
            written_up_to(alloc, k, Some(kind))?;
        }
    }
    Ok(())
}

/// What a reader or a writer may fail with; of the last two some callers try again.
const FAILURE_KINDS: [ErrorKind; 3] = [
    ErrorKind::Other,
    ErrorKind::Interrupted,
    ErrorKind::WouldBlock,
];

/// Takes a byte in each call, and at one call alone fails so, or takes none.
#[derive(Drop)]
struct OnceFailing {
    written: Vec<u8>,
    calls: usize,
    failing_call: usize,
    kind: Option<ErrorKind>,
}

impl Write for OnceFailing {
    fn write(&mut self, buf: &[u8]) -> io::Result<usize> {
        self.calls = self.calls.saturating_add(1);
        if self.calls == self.failing_call {
            return match self.kind {
                Some(kind) => Err(io::Error::from(kind)),
                None => Ok(0),
            };
        }
        let Some(byte) = buf.first() else {
            return Ok(0);
        };
        self.written.push(*byte)?;
        Ok(1)
    }

    fn flush(&mut self) -> io::Result<()> {
        Ok(())
    }
}

/// A write that was refused so is not tried again, nor is there one after it: exactly the bytes before it are written.
fn written_up_to(alloc: Global, k: usize, kind: Option<ErrorKind>) -> Result<(), Fail> {
    let mut reader = TrialReader::new(TWO_SITES);
    let mut writer = OnceFailing {
        written: Vec::new(alloc),
        calls: 0,
        failing_call: k.saturating_add(1),
        kind,
    };
    let end = ran(alloc, alloc, &mut reader, &mut writer, &mut NoFiles);
    let (calls, want) = if k == TWO_SITES_ANSWERS.len() {
        (k, Ok(()))
    } else {
        (k.saturating_add(1), Err(RunFault::Write))
    };
    if end != want || writer.calls != calls {
        return Err(Fail::new("another end"));
    }
    same(
        &writer.written,
        &TWO_SITES_ANSWERS[..k.min(TWO_SITES_ANSWERS.len())],
        k,
    )
}

/// How many bytes the first lines of a text have.
fn length_of_lines(text: &[u8], lines: usize) -> usize {
    let mut left = lines;
    for (k, byte) in text.iter().enumerate() {
        if left == 0 {
            return k;
        }
        if *byte == b'\n' {
            left -= 1;
        }
    }
    text.len()
}

/// How many lines end in a text.
fn ended(text: &[u8]) -> usize {
    let mut lines = 0usize;
    for byte in text {
        if *byte == b'\n' {
            lines = lines.saturating_add(1);
        }
    }
    lines
}

/// Gives a byte in each call, may fail so at one call, and counts them.
#[derive(Drop)]
struct Counting<'a> {
    bytes: &'a [u8],
    calls: usize,
    failing_call: usize,
    kind: ErrorKind,
}

impl<'a> Read for Counting<'a> {
    fn read(&mut self, buf: &mut [u8]) -> io::Result<usize> {
        self.calls = self.calls.saturating_add(1);
        if self.calls == self.failing_call {
            return Err(io::Error::from(self.kind));
        }
        let Some((byte, later)) = self.bytes.split_first() else {
            return Ok(0);
        };
        let Some(first) = buf.first_mut() else {
            return Ok(0);
        };
        *first = *byte;
        self.bytes = later;
        Ok(1)
    }
}

/// A read that failed is not tried again, nor is one that found the end: what was written is the answers to the lines
/// that were read to their end.
fn read_up_to(alloc: Global, failing_call: usize, kind: ErrorKind) -> Result<(), Fail> {
    let mut reader = Counting {
        bytes: TWO_SITES,
        calls: 0,
        failing_call,
        kind,
    };
    let mut written = Vec::new(alloc);
    let end = ran(alloc, alloc, &mut reader, &mut written, &mut NoFiles);
    let whole = TWO_SITES.len().saturating_add(1);
    let calls = failing_call.min(whole);
    let right = if failing_call > whole {
        end == Ok(())
    } else {
        end == Err(RunFault::Read)
    };
    if !right || reader.calls != calls {
        return Err(Fail::new("another end"));
    }
    let read = calls.saturating_sub(1).min(TWO_SITES.len());
    let lines = ended(&TWO_SITES[..read]);
    let answers = TWO_SITES_ANSWERS;
    let length = length_of_lines(answers, lines).min(answers.len());
    same(&written, &answers[..length], failing_call)
}

#[test]
fn failing_reader(rt: HostRuntime) -> Result<(), Fail> {
    let alloc = rt.alloc();
    let reader = TrialReader::new(FAILURES).in_steps_of(7).failing_at_call(2);
    ends(
        reader,
        TrialWriter::new(alloc),
        alloc,
        RunFault::Read,
        b"ok\n",
    )?;
    for k in 1..=TWO_SITES.len().saturating_add(2) {
        for &kind in &FAILURE_KINDS {
            read_up_to(alloc, k, kind)?;
        }
    }
    Ok(())
}

const TWO_SITES: &[u8] = b"site 1\nsite 2\ninsert 1 0 r\"ab\"\nsend 1 2\nshow 1\nshow 2\nfeed 2\n";

const TWO_SITES_ANSWERS: &[u8] =
    b"ok\nok\nok 1.1..2.1\nok new 2 known 0\ncopy r\"ab\"\ncopy r\"ab\"\nfeed 4d4644320400000000000000010001000000000000000000000200000000610000000062\n";

/// Scripts and their answers, read in steps of 1, 7 and 1,000 bytes.
fn answered_in_steps(alloc: Global, scripts: &[(&[u8], &[u8])]) -> Result<(), Fail> {
    for (row, (input, want)) in scripts.iter().enumerate() {
        for step in [1usize, 7, 1000] {
            let got = answers(alloc, alloc, input, step, &mut NoFiles)?;
            same(&got, want, row)?;
        }
    }
    Ok(())
}

#[test]
fn two_sites_show_ab(rt: HostRuntime) -> Result<(), Fail> {
    answered_in_steps(rt.alloc(), &[(TWO_SITES, TWO_SITES_ANSWERS)])
}

/// Places and values are refused in this order, and nothing changes.
const REFUSED_INSERTS: &[(&[u8], &[u8])] = &[(
    b"insert 1 0 r\"a\"\nsite 1\ninsert 1 5 r\"a\"\ninsert 1 1 r\"\t\"\ninsert 1 0 i\" \"\nshow 1\ninsert 1 0 r\"b\\n\" i\"c\"\nshow 1\n",
    b"refused site\nok\nrefused place\nrefused place\nrefused value\ncopy\nok 1.1..3.1\ncopy r\"b\\n\" i\"c\"\n",
)];

#[test]
fn refused_inserts(rt: HostRuntime) -> Result<(), Fail> {
    answered_in_steps(rt.alloc(), REFUSED_INSERTS)
}

/// Scripts, and what they are answered.
#[rattlefmt::skip]
const SCRIPTS: &[(&[u8], &[u8])] = &[
    // A line ends with a line feed, and one carriage return before it goes; at the end none does.
    (b"site 1\nsite 2\r\nsite 3", b"ok\nok\nok\n"),
    (b"site 1\r\r\nsite 2\r", b"refused command\nrefused command\n"),
    (b"\n\r\n\r", b"refused command\nrefused command\nrefused command\n"),
    (b"\xef\xbb\xbfsite 1\n\xffsite 1\n", b"refused command\nrefused command\n"),
    // Words are separated by exactly one space.
    (b"site  1\n site 1\nsite 1 \nsite\t1\nsite\n", b"refused command\nrefused command\nrefused command\nrefused command\nrefused command\n"),
    // A number has 1 to 10 digits.
    (b"site 0000000001\nsite 00000000001\nsite +1\nsite 4294967296\n", b"ok\nrefused command\nrefused command\nrefused command\n"),
    (b"site 0\nsite 65535\nsite 65536\nsite 4294967295\n", b"refused number\nok\nrefused number\nrefused number\n"),
    (b"site 1\nsend 1 65537\nsend 65537 1\nsend 0 1\nfeed 65537\nfeed 2\n", b"ok\nrefused site\nrefused site\nrefused site\nrefused site\nrefused site\n"),
    // The whole line's form comes before anything else.
    (b"insert 9 9 i\"\"\ntake 9 4d4\nsend 9 1 0..x\nset 9 Measure 1\n", b"refused command\nrefused command\nrefused command\nrefused command\n"),
    (b"site 1\nsend 1 1\nfeed 1\nshow 1\n", b"ok\nok new 0 known 0\nfeed 4d464432\ncopy\n"),
];

#[test]
fn lines_words_and_numbers(rt: HostRuntime) -> Result<(), Fail> {
    answered_in_steps(rt.alloc(), SCRIPTS)
}

/// A line of so many of one byte, with what comes before and after it, and the answers.
fn long_line(
    alloc: Global,
    start: &[u8],
    (byte, length): (u8, usize),
    end: &[u8],
    want: &[u8],
) -> Result<(), Fail> {
    let whole = start.len().saturating_add(length);
    let mut input = Vec::with_capacity(alloc, whole)?;
    input.extend_from_slice(start)?;
    input.resize(whole, byte)?;
    input.extend_from_slice(end)?;
    let got = answers(alloc, alloc, &input, 1000, &mut NoFiles)?;
    same(&got, want, length)
}

#[rattlefmt::skip]
const LONG_LINES: &[(&[u8], usize, &[u8], &[u8])] = &[
    (b"", 65_536, b"\n", b"refused command\n"),
    (b"", 65_536, b"\r\n", b"refused command\n"),
    (b"", 65_536, b"", b"refused command\n"),
    (b"", 65_537, b"\n", b"refused line\n"),
    (b"", 65_536, b"\r", b"refused line\n"),
    (b"", 200_000, b"\r\nsite 1\n", b"refused line\nok\n"),
    (b"site 1\n", 65_536,
        b"\nsite 2\n",
        b"ok\nrefused command\nok\n"),
    (b"site 1\n", 65_537,
        b"\nsite 2\n",
        b"ok\nrefused line\nok\n"),
];

#[test]
fn long_lines(rt: HostRuntime) -> Result<(), Fail> {
    for &(start, length, end, want) in LONG_LINES {
        long_line(rt.alloc(), start, (b'x', length), end, want)?;
        long_line(rt.alloc(), start, (0xff, length), end, want)?;
    }
    Ok(())
}

#[rattlefmt::skip]
const REFUSED_COMMANDS: &[(&[u8], &[u8])] = &[
    (b"site 1\nsite 1\nsite 0\nsend 1 3\ninsert 1 5 r\"a\"\ninsert 1 0 i\" \"\nset 1 measure 11\njump\nribbon 1 none.toml w\n", b"ok\nrefused known\nrefused number\nrefused site\nrefused place\nrefused value\nrefused value\nrefused command\nrefused file missing\n"),
    (b"site 1\nsite 2\nsite 3\nsite 4\nsite 5\nsite 6\nsite 7\nsite 8\nsite 9\nsite 10\nsite 11\nsite 12\nsite 13\nsite 14\nsite 15\nsite 16\nsite 17\nsite 16\nsite 0\n", b"ok\nok\nok\nok\nok\nok\nok\nok\nok\nok\nok\nok\nok\nok\nok\nok\nrefused sites\nrefused known\nrefused number\n"),
];

#[test]
fn refused_commands(rt: HostRuntime) -> Result<(), Fail> {
    answered_in_steps(rt.alloc(), REFUSED_COMMANDS)
}

#[test]
fn always_out_of_memory(rt: HostRuntime) -> Result<(), Fail> {
    let heap = LocalHeap::new(rt.alloc(), 1 << 20)?;
    let got = answers(&heap, rt.alloc(), TWO_SITES, 100, &mut NoFiles)?;
    same(&got, TWO_SITES_ANSWERS, 0)
}
