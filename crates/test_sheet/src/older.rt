use desk_script::{Memory, Mode, Room, RunFault, SheetFault, run_sheet_on_feed};
use feed_files::trial::{AtEnd, TrialFiles, TrialReader, TrialWriter};
use feed_files::{FileRefusal, Files};
use std::alloc::{AllocError, Global};
use std::test::Fail;

const STRICT: Mode = Mode {
    strict: true,
    number: true,
};

const PLAIN: Mode = Mode {
    strict: false,
    number: false,
};

/// One insert, 1.3 of a Roman x.
const X: &[u8] = b"MFD2\x01\0\0\0\0\0\0\0\x01\0\x03\0\0\0\0\0\0\0\0\0\0\0\0\0\0x";

const MAKES_Y: &[u8] = b"insert 3 1 r\"y\"\n";

/// How a sheet on a feed ends by site 3, with what it wrote.
fn ended(
    alloc: Global,
    files: &mut TrialFiles<Global>,
    mode: Mode,
    older: bool,
    input: &[u8],
) -> Result<Vec<u8>, SheetFault> {
    let mut reader = TrialReader::new(input);
    let mut written = Vec::new(alloc);
    match run_sheet_on_feed(
        Memory {
            own: alloc,
            global: alloc,
        },
        mode,
        &mut reader,
        &mut written,
        files,
        Room {
            feed: "a.feed",
            site: 3,
            older,
        },
    ) {
        Ok(()) => Ok(written),
        Err(fault) => Err(fault),
    }
}

/// How a sheet ends that writes nothing and asks its reader for nothing.
fn silent_on(alloc: Global, files: &mut TrialFiles<Global>, mode: Mode) -> Result<(), SheetFault> {
    let mut writer = TrialWriter::new(alloc).with_room(0, AtEnd::Fails);
    let mut reader = TrialReader::new(MAKES_Y).failing_at_call(1);
    run_sheet_on_feed(
        Memory {
            own: alloc,
            global: alloc,
        },
        mode,
        &mut reader,
        &mut writer,
        files,
        Room {
            feed: "a.feed",
            site: 3,
            older: false,
        },
    )
}

/// A sheet leaves FEED.last, and an older feed is refused, strict or not.
#[test]
fn older_feed_is_refused_of_sheets(rt: HostRuntime) -> Result<(), Fail> {
    let mut files = TrialFiles::new(rt.alloc());
    let first = ended(
        rt.alloc(),
        &mut files,
        STRICT,
        false,
        b"insert 3 0 r\"x\"\n",
    )?;
    assert_eq!(rt; first.as_slice(), b"1 ok 1.3\n".as_slice());
    assert!(rt; files.holds("a.feed", X));
    assert!(rt; files.holds("a.feed.last", b"site 3 1\n"));
    let mut files = files.for_next_run();
    files.put("a.feed.last", b"site 3 785\n")?;
    let older = Err(SheetFault::Older { made: 785, held: 1 });
    assert_eq!(rt; silent_on(rt.alloc(), &mut files, STRICT), older);
    let mut files = files.for_next_run();
    assert_eq!(rt; silent_on(rt.alloc(), &mut files, PLAIN), older);
    let mut files = files.for_next_run();
    let taken = ended(rt.alloc(), &mut files, PLAIN, true, MAKES_Y)?;
    assert_eq!(rt; taken.as_slice(), b"ok 2.3\n".as_slice());
    assert!(rt; files.holds("a.feed.last", b"site 3 2\n"));
    Ok(())
}

/// A sheet that stops at a line stores nothing, and leaves FEED.last.
#[test]
fn stopped_sheet_leaves_last(rt: HostRuntime) -> Result<(), Fail> {
    let mut files = TrialFiles::new(rt.alloc());
    files.put("a.feed", X)?;
    files.put("a.feed.last", b"site 3 1\n")?;
    let end = ended(
        rt.alloc(),
        &mut files,
        STRICT,
        false,
        b"insert 3 1 r\"y\"\ndelete 3 7\n",
    );
    assert!(rt; end.err() == Some(SheetFault::Line(2)));
    assert!(rt; files.holds("a.feed", X));
    assert!(rt; files.holds("a.feed.last", b"site 3 1\n"));
    Ok(())
}

/// A sheet whose k-th call of the files fails: 3 reads FEED.last, 4 and 5 store the feed, 6 to 8 write FEED.last.
#[test]
fn failing_calls_of_sheets_with_last(rt: HostRuntime) -> Result<(), Fail> {
    for k in 1..10u64 {
        let mut files = TrialFiles::new(rt.alloc()).failing_at_call(k);
        files.put("a.feed", X)?;
        files.put("a.feed.last", b"site 3 1\n")?;
        let end = ended(rt.alloc(), &mut files, STRICT, false, MAKES_Y);
        let is_stored = k == 3 || k > 5;
        let device = SheetFault::Run(RunFault::File(FileRefusal::Device));
        assert!(rt; end.is_ok() == is_stored);
        assert!(rt; is_stored || end.err() == Some(device));
        assert!(rt; files.holds("a.feed", X) != is_stored);
        let last: &[u8] = if k == 3 || k > 8 {
            b"site 3 2\n"
        } else {
            b"site 3 1\n"
        };
        assert!(rt; files.holds("a.feed.last", last));
    }
    Ok(())
}

#[test]
fn names_older_feeds_of_sheets(rt: HostRuntime) -> Result<(), AllocError> {
    let fault = SheetFault::Older {
        made: 785,
        held: 774,
    };
    let words = format!(in rt.alloc(); "{fault}")?;
    assert_eq!(rt; words.as_str(), "older feed");
    Ok(())
}
