//! A case and a wedge among files that are checked.

use crate::check::cases::file_of;
use crate::check::rooms::{checked, memory};
use crate::check::wedges::UNITS;
use feed_check::{CheckFault, check_files};
use feed_files::trial::{AtEnd, TrialFiles, TrialWriter};
use std::alloc::Global;
use std::test::Fail;

const CASE: &str = " ok: case 21, 225 cells, 0 sorts\n";

const WEDGE: &str = " ok: wedge 5, set 12 (48 quarter points), pica sixth\n";

const UNFIT: &str = "c with w: the units of the fills do not descend\n";

/// A wedge file with these units.
fn wedge_of(alloc: Global, units: &str) -> Result<String, Fail> {
    Ok(format!(in alloc; "wedge = 5\nset_q = 48\npica = 'sixth'\n{units}\n")?)
}

/// Two case files, whose fills stand in the rows 15 and 5, and wedge files: `fit` has more units for row 15, `w` as
/// many.
fn rooms(alloc: Global) -> Result<TrialFiles<Global>, Fail> {
    let mut files = TrialFiles::new(alloc);
    let case = file_of(alloc, 15, &[])?;
    files.put("c", case.as_bytes())?;
    files.put("c2", case.as_bytes())?;
    files.put("bad", b"case = 0")?;
    files.put("fit", wedge_of(alloc, UNITS)?.as_bytes())?;
    let even = "units = [9, 9, 9, 9, 9, 9, 9, 9, 9, 9, 9, 9, 9, 9, 9]";
    files.put("w", wedge_of(alloc, even)?.as_bytes())?;
    Ok(files)
}

/// Whether a check of these names writes these lines, and ends so.
fn gives(alloc: Global, names: &[&str], lines: &[(&str, &str)], well: bool) -> Result<bool, Fail> {
    let mut files = rooms(alloc)?;
    let (written, ended) = checked(alloc, &mut files, names);
    let mut wanted = String::new(alloc);
    for (name, said) in lines {
        wanted.push_str(name)?;
        wanted.push_str(said)?;
    }
    Ok(written.as_slice() == wanted.as_bytes() && ended == Ok(well))
}

#[test]
fn case_and_wedge_that_do_not_go_together(rt: HostRuntime) -> Result<(), Fail> {
    let alloc = rt.alloc();
    let lines = [("c", CASE), ("w", WEDGE), ("", UNFIT)];
    assert!(rt; gives(alloc, &["c", "w"], &lines, false)?);
    let lines = [("w", WEDGE), ("c", CASE), ("", UNFIT)];
    assert!(rt; gives(alloc, &["w", "c"], &lines, false)?);
    let lines = [("c", CASE), ("fit", WEDGE)];
    assert!(rt; gives(alloc, &["c", "fit"], &lines, true)?);
    Ok(())
}

/// A case that is refused counts as none.
#[test]
fn refused_case_is_not_compared(rt: HostRuntime) -> Result<(), Fail> {
    let alloc = rt.alloc();
    let refused = " case refused: `case` is of another type, number, length or name\n";
    let lines = [("bad", refused), ("c", CASE), ("w", WEDGE), ("", UNFIT)];
    assert!(rt; gives(alloc, &["bad", "c", "w"], &lines, false)?);
    let lines = [("bad", refused), ("w", WEDGE)];
    assert!(rt; gives(alloc, &["bad", "w"], &lines, false)?);
    Ok(())
}

#[test]
fn several_cases_or_wedges_are_not_compared(rt: HostRuntime) -> Result<(), Fail> {
    let alloc = rt.alloc();
    let lines = [("c", CASE), ("c2", CASE), ("w", WEDGE)];
    assert!(rt; gives(alloc, &["c", "c2", "w"], &lines, true)?);
    let lines = [("w", WEDGE), ("c", CASE), ("fit", WEDGE)];
    assert!(rt; gives(alloc, &["w", "c", "fit"], &lines, true)?);
    let lines = [("c", CASE), ("c", CASE), ("c", CASE), ("w", WEDGE)];
    assert!(rt; gives(alloc, &["c", "c", "c", "w"], &lines, true)?);
    Ok(())
}

/// The writer fails within the last line: what was written is a prefix.
#[test]
fn closed_output_of_the_last_line(rt: HostRuntime) -> Result<(), Fail> {
    let alloc = rt.alloc();
    let mut files = rooms(alloc)?;
    let (whole, _) = checked(alloc, &mut files, &["c", "w"]);
    let room = whole.len().saturating_sub(UNFIT.len()).saturating_add(3);
    let mut writer = TrialWriter::new(alloc).with_room(room, AtEnd::Fails);
    let ended = check_files(memory(alloc), &mut writer, &mut files, &["c", "w"]);
    assert_eq!(rt; ended, Err(CheckFault::Write));
    assert!(rt; writer.written().len() == room && whole.starts_with(writer.written()));
    Ok(())
}
