use crate::job::cases::{FILLS, SMALL_WEDGE, WEDGE, case_with, wedge_of};
use crate::words::is_worded;
use desk_case::MatrixCase;
use desk_caster::{CastLine, cast, read_ribbon};
use desk_job::{JobFault, JobRefusal, make};
use desk_ops::{Key, Style, Symbol};
use desk_replica::{Refusal, Replica};
use desk_seq::Flat;
use desk_signals::RibbonRow;
use desk_wedge::Wedge;
use std::alloc::{Allocator, Global};
use std::test::Fail;

/// A job: the copy's text, all Roman, the fills of the case, and what is set once measure 120, tight 38, loose 150,
/// case 1 and wedge 5 are.
#[derive(Clone, Copy)]
pub struct Job<'a> {
    pub text: &'a str,
    pub fill: &'a str,
    pub more: &'a [(Key, u32)],
}

pub const STANDARD: [(Key, u32); 5] = [
    (Key::Measure, 120),
    (Key::Tight, 38),
    (Key::Loose, 150),
    (Key::Case, 1),
    (Key::Wedge, 5),
];

/// Gives a replica a setting.
fn set_one<A: Allocator + Copy>(
    replica: &mut Replica<Flat<A>>,
    key: Key,
    value: u32,
) -> Result<(), Refusal> {
    match replica.set(key, value) {
        Ok(_) => Ok(()),
        Err(refusal) => Err(refusal),
    }
}

/// Gives a replica these settings.
pub fn set_all<A: Allocator + Copy>(
    replica: &mut Replica<Flat<A>>,
    settings: &[(Key, u32)],
) -> Result<(), Refusal> {
    for (key, value) in settings {
        set_one(replica, *key, *value)?;
    }
    Ok(())
}

/// Puts a Roman character into a replica's copy.
fn type_one<A: Allocator + Copy>(
    replica: &mut Replica<Flat<A>>,
    place: usize,
    byte: u8,
) -> Result<(), Refusal> {
    let (style, ch) = (Style::Roman, char::from(byte));
    match replica.insert_at(place, Symbol { style, ch }) {
        Ok(_) => Ok(()),
        Err(refusal) => Err(refusal),
    }
}

/// Gives a replica the job's text and settings.
fn prepare<A: Allocator + Copy>(
    replica: &mut Replica<Flat<A>>,
    job: Job<'_>,
) -> Result<(), Refusal> {
    for (place, byte) in job.text.as_bytes().iter().enumerate() {
        type_one(replica, place, *byte)?;
    }
    set_all(replica, &STANDARD)?;
    set_all(replica, job.more)
}

/// A replica of site 1 with the job's text and settings.
pub fn replica_of<A: Allocator + Copy>(
    alloc: A,
    job: Job<'_>,
) -> Result<Replica<Flat<A>>, Refusal> {
    let mut replica = Replica::new(alloc, 1);
    prepare(&mut replica, job)?;
    Ok(replica)
}

/// Whether an answer is these faults, and no ribbon.
pub fn are_faults<A: Allocator>(
    answer: &Result<Vec<u8, A>, JobRefusal<A>>,
    want: &[JobFault],
) -> bool {
    match answer {
        Err(JobRefusal::Faults(faults)) => faults.as_slice() == want,
        _ => false,
    }
}

/// The ribbon of a job.
pub fn ribbon(alloc: Global, job: Job<'_>) -> Result<Vec<u8>, Fail> {
    let wedge = wedge_of(alloc, WEDGE)?;
    let case = case_with(alloc, job.fill)?;
    let replica = replica_of(alloc, job)?;
    match make(alloc, &replica, &case, &wedge) {
        Ok(bytes) => Ok(bytes),
        Err(_) => Err(Fail::new("no ribbon where one is")),
    }
}

/// Whether lines have so many matrices and these totals.
fn are_lines<A: Allocator>(lines: &[CastLine<A>], want: &[(usize, i64)]) -> bool {
    for (at, line) in lines.iter().enumerate() {
        let Some(&(matrices, total)) = want.get(at) else {
            return false;
        };
        if line.matrices().len() != matrices || line.total().get() != total {
            return false;
        }
    }
    lines.len() == want.len()
}

/// Whether rows are cast as lines with so many matrices and these totals.
fn are_rows_cast_as(
    alloc: Global,
    rows: &[RibbonRow],
    case: &MatrixCase,
    wedge: &Wedge,
    want: &[(usize, i64)],
) -> bool {
    if rows.len() > 1000 {
        return false;
    }
    match cast(alloc, rows, case, wedge) {
        Ok(lines) => are_lines(&lines, want),
        Err(_) => false,
    }
}

/// Whether a ribbon is read, and cast as lines with so many matrices and these totals.
pub fn are_bytes_cast_as(
    alloc: Global,
    bytes: &[u8],
    case: &MatrixCase,
    wedge: &Wedge,
    want: &[(usize, i64)],
) -> bool {
    match read_ribbon(alloc, bytes) {
        Ok(rows) => are_rows_cast_as(alloc, &rows, case, wedge, want),
        Err(_) => false,
    }
}

/// Whether the ribbon of a job is cast as lines with so many matrices and these totals.
fn is_cast_as(alloc: Global, job: Job<'_>, want: &[(usize, i64)]) -> Result<bool, Fail> {
    let wedge = wedge_of(alloc, WEDGE)?;
    let case = case_with(alloc, FILLS)?;
    let bytes = ribbon(alloc, job)?;
    Ok(are_bytes_cast_as(alloc, &bytes, &case, &wedge, want))
}

pub const EMPTY_COPY: [u8; 12] = [0x4d, 0x52, 0x42, 0x31, 0, 0, 0, 1, 0, 0, 2, 6];

pub const EMPTY_PARAGRAPH: [u8; 64] = [
    0x4d, 0x52, 0x42, 0x31, 0, 0, 0, 14, 0, 0, 2, 6, 1, 1, 0, 1, 0, 0, 0, 0, 0, 0, 0, 0, 0, 0, 0,
    0, 0, 0, 0, 0, 0, 0, 0, 0, 0, 0, 0, 0, 0, 0, 0, 0, 0, 0, 0, 0, 0, 0, 0, 0, 0x40, 0, 0x10, 0, 0,
    0, 2, 2, 0, 0, 4, 6,
];

/// A job with all else as it is in most.
fn most<'a>(text: &'a str, more: &'a [(Key, u32)]) -> Job<'a> {
    Job {
        text,
        fill: FILLS,
        more,
    }
}

#[test]
fn empty_copy_ribbon(rt: HostRuntime) -> Result<(), Fail> {
    assert!(rt; ribbon(rt.alloc(), most("", &[]))?.as_slice() == EMPTY_COPY.as_slice());
    assert!(rt; is_cast_as(rt.alloc(), most("", &[]), &[])?);
    Ok(())
}

#[test]
fn empty_paragraph_ribbon(rt: HostRuntime) -> Result<(), Fail> {
    assert!(rt; ribbon(rt.alloc(), most("\n", &[]))?.as_slice() == EMPTY_PARAGRAPH.as_slice());
    assert!(rt; is_cast_as(rt.alloc(), most("\n", &[]), &[(11, 2_159_952)])?);
    Ok(())
}

/// The ribbon of the six words, as the independent caster has it.
pub const TWO_LINES: [u8; 152] = [
    0x4d, 0x52, 0x42, 0x31, 0, 0, 0, 0x24, 0, 0, 2, 6, 0x40, 0, 2, 0, 0x40, 0, 2, 0, 0x40, 0, 2, 0,
    1, 1, 0, 1, 0x40, 0, 2, 0, 0x40, 0, 2, 0, 0x40, 0, 2, 0, 1, 1, 0, 1, 0x40, 0, 2, 0, 0x40, 0, 2,
    0, 0x40, 0, 2, 0, 1, 1, 0, 1, 0x40, 0, 2, 0, 0x40, 0, 2, 0, 0x40, 0, 2, 0, 1, 1, 0, 1, 0x40, 0,
    2, 0, 0x40, 0, 2, 0, 0x40, 0, 2, 0, 0, 0, 8, 2, 0, 0, 1, 6, 0x40, 0, 2, 0, 0x40, 0, 2, 0, 0x40,
    0, 2, 0, 1, 1, 0, 1, 0, 0, 0, 0, 0, 0, 0, 0, 0, 0, 0, 0, 0, 0, 0, 0, 0, 0, 0, 0, 0, 0, 0, 0, 0,
    0, 0, 0, 0, 0, 0, 0, 0, 0, 0x20, 2, 0, 0, 0, 0x46,
];

const SIX_WORDS: &str = "nnn nnn nnn nnn nnn nnn";

#[test]
fn two_lines(rt: HostRuntime) -> Result<(), Fail> {
    let lines = [(19, 2_159_232), (12, 2_159_664)];
    assert!(rt; ribbon(rt.alloc(), most(SIX_WORDS, &[]))?.as_slice() == TWO_LINES.as_slice());
    assert!(rt; is_cast_as(rt.alloc(), most(SIX_WORDS, &[]), &lines)?);
    let (loose, fault) = ([(Key::Loose, 60)], [JobFault::TooLoose(1)]);
    assert!(rt; has_faults(rt.alloc(), SIX_WORDS, FILLS, &loose, &fault)?);
    Ok(())
}

/// Texts of one line, each with the tight wedge sum, and the number of matrices and the total of its line.
const WIDEST: [(&str, u32, (usize, i64)); 2] = [
    ("nnnnnnnnnnnnnnnnm", 53, (18, 2_160_000)),
    ("nnnnnnnnnnnnnnnntt", 16, (19, 2_159_688)),
];

/// Whether a text is cast as one line where tight is this.
fn is_line(alloc: Global, text: &str, tight: u32, line: (usize, i64)) -> Result<bool, Fail> {
    is_cast_as(alloc, most(text, &[(Key::Tight, tight)]), &[line])
}

#[test]
fn widest_lines(rt: HostRuntime) -> Result<(), Fail> {
    let wide = [JobFault::TooWide(1)];
    assert!(rt; has_faults(rt.alloc(), "nnnnnnnnnnnnnnnnnn", FILLS, &[], &wide)?);
    for &(text, tight, line) in &WIDEST {
        assert!(rt; is_line(rt.alloc(), text, tight, line)?, "{text}");
    }
    Ok(())
}

/// Whether a job with this text, these fills and what else is set has these faults.
pub fn has_faults(
    alloc: Global,
    text: &str,
    fill: &str,
    more: &[(Key, u32)],
    want: &[JobFault],
) -> Result<bool, Fail> {
    let wedge = wedge_of(alloc, WEDGE)?;
    let case = case_with(alloc, fill)?;
    let replica = replica_of(alloc, Job { text, fill, more })?;
    let made = make(alloc, &replica, &case, &wedge);
    Ok(are_faults(&made, want))
}

/// Texts, fills and what else is set, and the faults.
const FAULTS: [(&str, &str, &[(Key, u32)], &[JobFault]); 4] = [
    (
        "aqnz",
        FILLS,
        &[],
        &[JobFault::NoMatrix(1), JobFault::NoMatrix(3)],
    ),
    ("", "'A5', 'O15'", &[], &[JobFault::FillOrder]),
    ("", FILLS, &[(Key::Wedge, 6)], &[JobFault::OtherWedge]),
    (
        "",
        FILLS,
        &[(Key::Wedge, 6), (Key::Case, 2)],
        &[JobFault::OtherCase],
    ),
];

#[test]
fn job_faults(rt: HostRuntime) -> Result<(), Fail> {
    for &(text, fill, more, want) in &FAULTS {
        assert!(rt; has_faults(rt.alloc(), text, fill, more, want)?, "{want:?}");
    }
    Ok(())
}

/// A setting that is set again has its new value.
#[test]
fn settings_by_stamp(rt: HostRuntime) -> Result<(), Fail> {
    let more = [(Key::Tight, 100), (Key::Loose, 60)];
    assert!(rt; has_faults(rt.alloc(), "", FILLS, &more, &[JobFault::Crossed])?);
    Ok(())
}

/// Fills and what else is set, with which an empty paragraph cannot be filled.
const UNFILLED: [(&str, &[(Key, u32)]); 2] = [("'O15'", &[]), (FILLS, &[(Key::Tight, 128)])];

#[test]
fn cannot_fill(rt: HostRuntime) -> Result<(), Fail> {
    for &(fill, more) in &UNFILLED {
        assert!(rt;
            has_faults(rt.alloc(), "\n", fill, more, &[JobFault::CannotFill(1)])?,
            "{fill}"
        );
    }
    let made = ribbon(rt.alloc(), most("\n", &[(Key::Tight, 127)]))?;
    assert!(rt; made.as_slice() == EMPTY_PARAGRAPH.as_slice());
    Ok(())
}

/// Whether an empty copy with no setting at all lacks its measure.
fn lacks_measure(alloc: Global, case: &MatrixCase, wedge: &Wedge) -> bool {
    let made = make(alloc, &Replica::<Flat<_>>::new(alloc, 1), case, wedge);
    are_faults(&made, &[JobFault::MissingSetting(Key::Measure)])
}

/// A space of no width at tight, and no setting at all.
#[test]
fn space_vanishes(rt: HostRuntime) -> Result<(), Fail> {
    let wedge = wedge_of(rt.alloc(), SMALL_WEDGE)?;
    let case = case_with(rt.alloc(), FILLS)?;
    let replica = replica_of(rt.alloc(), most("", &[(Key::Tight, 16)]))?;
    let made = make(rt.alloc(), &replica, &case, &wedge);
    assert!(rt; are_faults(&made, &[JobFault::SpaceVanishes]));
    assert!(rt; lacks_measure(rt.alloc(), &case, &wedge));
    Ok(())
}

const WORDS: [(JobFault, &str); 10] = [
    (JobFault::MissingSetting(Key::Case), "case has no value"),
    (JobFault::OtherCase, "the setting names another case"),
    (JobFault::OtherWedge, "the setting names another wedge"),
    (JobFault::Crossed, "tight is above loose"),
    (JobFault::FillOrder, "the units of the fills do not descend"),
    (
        JobFault::SpaceVanishes,
        "a space at tight is not wider than 0",
    ),
    (
        JobFault::NoMatrix(7),
        "the case has no matrix for the symbol at place 7",
    ),
    (JobFault::TooWide(7), "line 7 is too wide"),
    (JobFault::TooLoose(7), "line 7 is too loose"),
    (JobFault::CannotFill(7), "line 7 cannot be filled"),
];

#[test]
fn names_its_faults(rt: HostRuntime) {
    for &(fault, words) in &WORDS {
        assert!(rt; is_worded(rt.alloc(), &fault, words), "{words}");
    }
}
