use crate::difference::rooms::{Letter, keyed, lettered, reported, reports};
use feed_files::trial::TrialFiles;
use std::test::Fail;

/// What is said where neither feed has anything alone.
const NONE: &str = "one.feed alone none\ntwo.feed alone none\n";

#[test]
fn feeds_that_are_one(rt: HostRuntime) -> Result<(), Fail> {
    let mut files = keyed(rt.alloc(), b"Send word.", b"Send word.")?;
    assert!(rt; reports(rt.alloc(), &mut files, NONE, true)?);
    let mut none = lettered(rt.alloc(), &[], &[])?;
    assert!(rt; reports(rt.alloc(), &mut none, NONE, true)?);
    // A feed and itself.
    let left = reported(rt.alloc(), &mut files, "one.feed", "one.feed")?;
    assert_eq!(rt; left.ended, Ok(true));
    let text = b"one.feed alone none\none.feed alone none\n";
    assert!(rt; left.text.as_slice() == text.as_slice());
    Ok(())
}

/// The order of the operations in the feeds is no matter, nor how often one stands there.
#[test]
fn feeds_of_one_set(rt: HostRuntime) -> Result<(), Fail> {
    let one: [Letter; 3] = [(1, 1, b'a'), (2, 1, b'b'), (2, 2, b'c')];
    let two: [Letter; 4] = [(2, 2, b'c'), (1, 1, b'a'), (2, 1, b'b'), (1, 1, b'a')];
    let mut files = lettered(rt.alloc(), &one, &two)?;
    assert!(rt; reports(rt.alloc(), &mut files, NONE, true)?);
    Ok(())
}

/// Counters stand by site, and those that follow one another as the first and the last.
#[test]
fn runs_of_counters(rt: HostRuntime) -> Result<(), Fail> {
    let one: [Letter; 9] = [
        (1, 2, b'a'),
        (7, 3, b'a'),
        (20, 1, b'a'),
        (21, 1, b'a'),
        (22, 1, b'a'),
        (23, 1, b'a'),
        (24, 1, b'a'),
        (25, 1, b'a'),
        (31, 1, b'a'),
    ];
    let mut files = lettered(rt.alloc(), &one, &[(1, 2, b'a')])?;
    let text = "one.feed alone 1: 20..25 31, 3: 7\ntwo.feed alone none\n- 0 aaaaaaaaa\n+ 0 a\n";
    assert!(rt; reports(rt.alloc(), &mut files, text, false)?);
    Ok(())
}

/// The same counter of two sites makes no run, and a run may have two.
#[test]
fn counters_of_several_sites(rt: HostRuntime) -> Result<(), Fail> {
    let one: [Letter; 5] = [
        (3, 9, b'v'),
        (3, 4, b'w'),
        (4, 4, b'x'),
        (4, 65535, b'y'),
        (6, 4, b'z'),
    ];
    let two: [Letter; 2] = [(5, 9, b'p'), (4, 9, b'q')];
    let mut files = lettered(rt.alloc(), &one, &two)?;
    // The newest stands first.
    let text =
        "one.feed alone 4: 3..4 6, 9: 3, 65535: 4\ntwo.feed alone 9: 4..5\n- 0 zyxvw\n+ 0 pq\n\
open at 0\n  now   zpyqxvw\n  here  zyxvw\n  there pq\n  was  \n";
    assert!(rt; reports(rt.alloc(), &mut files, text, false)?);
    Ok(())
}

/// The greatest counters.
#[test]
fn counters_at_their_end(rt: HostRuntime) -> Result<(), Fail> {
    let last = 1u64 << 62;
    let one: [Letter; 2] = [(last, 1, b'a'), (last.saturating_sub(1), 1, b'b')];
    let mut files = lettered(rt.alloc(), &one, &[(last, 2, b'c')])?;
    let text =
        "one.feed alone 1: 4611686018427387903..4611686018427387904\ntwo.feed alone 2: 4611686018427387904\n- 0 ab\n+ 0 c\n\
open at 0\n  now   cab\n  here  ab\n  there c\n  was  \n";
    assert!(rt; reports(rt.alloc(), &mut files, text, false)?);
    Ok(())
}

/// One stamp with two contents is alone on both sides.
#[test]
fn stamps_with_two_contents(rt: HostRuntime) -> Result<(), Fail> {
    let mut files = lettered(rt.alloc(), &[(1, 1, b'a')], &[(1, 1, b'b')])?;
    let text = "one.feed alone 1: 1\ntwo.feed alone 1: 1\n- 0 a\n+ 0 b\n\
open at 0\n  now  \n  here  a\n  there b\n  was  \n";
    assert!(rt; reports(rt.alloc(), &mut files, text, false)?);
    Ok(())
}

/// A forked stamp is reported once, and neither of its inserts is shown.
#[test]
fn forked_stamps(rt: HostRuntime) -> Result<(), Fail> {
    let fork: [Letter; 2] = [(1, 1, b'a'), (1, 1, b'b')];
    let mut files = lettered(rt.alloc(), &fork, &[])?;
    let text = "one.feed alone 1: 1\ntwo.feed alone none\n";
    assert!(rt; reports(rt.alloc(), &mut files, text, false)?);
    let mut files = lettered(rt.alloc(), &[(1, 1, b'a')], &fork)?;
    let text = "one.feed alone none\ntwo.feed alone 1: 1\n- 0 a\n+ 0\n";
    assert!(rt; reports(rt.alloc(), &mut files, text, false)?);
    Ok(())
}

/// Deletes are operations too, and a copy may be the same by others.
#[test]
fn deletes_that_one_has_alone(rt: HostRuntime) -> Result<(), Fail> {
    let mut files = keyed(rt.alloc(), b"Send word.", b"Send word")?;
    let text = "one.feed alone none\ntwo.feed alone 2: 11\n- 5 word.\n+ 5 word\n";
    assert!(rt; reports(rt.alloc(), &mut files, text, false)?);
    let mut files = lettered(rt.alloc(), &[(1, 1, b'a')], &[(1, 2, b'a')])?;
    let text = "one.feed alone 1: 1\ntwo.feed alone 2: 1\n\
open at 0\n  now   aa\n  here  a\n  there a\n  was  \n";
    assert!(rt; reports(rt.alloc(), &mut files, text, false)?);
    Ok(())
}

/// Names are written as they were given.
#[test]
fn names_of_the_feeds(rt: HostRuntime) -> Result<(), Fail> {
    let mut files = TrialFiles::new(rt.alloc());
    files.put("a b/\u{e9}.feed", b"MFD2")?;
    files.put("", b"MFD2")?;
    let left = reported(rt.alloc(), &mut files, "a b/\u{e9}.feed", "")?;
    let text = "a b/\u{e9}.feed alone none\n alone none\n";
    assert!(rt; left.text.as_slice() == text.as_bytes());
    Ok(())
}
