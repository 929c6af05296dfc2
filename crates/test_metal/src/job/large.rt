//! Jobs of a thousand lines.

use crate::job::cases::{FILLS, WEDGE, case_with, wedge_of};
use crate::job::jobs::{STANDARD, set_all};
use desk_case::MatrixCase;
use desk_caster::{CastLine, cast, read_ribbon};
use desk_job::{JobFault, JobRefusal, make};
use desk_ops::{Key, Op, Stamp, Style, Symbol};
use desk_replica::{Refusal, Replica};
use desk_seq::Flat;
use desk_signals::RibbonRow;
use desk_wedge::Wedge;
use std::alloc::{Allocator, Global};
use std::test::Fail;

/// How often a text stands in a copy.
const COUNT: usize = 1000;

/// The insert behind a stamp, by site 1, of a Roman character.
fn behind(parent: Stamp, byte: u8) -> Op {
    let counter = parent.counter.saturating_add(1);
    Op::Insert {
        stamp: Stamp { counter, site: 1 },
        parent,
        symbol: Symbol {
            style: Style::Roman,
            ch: char::from(byte),
        },
    }
}

/// Gives a replica an operation, if it is lawful.
fn take_one<A: Allocator + Copy>(replica: &mut Replica<Flat<A>>, op: Op) -> Result<(), Refusal> {
    if op.check().is_err() {
        return Err(Refusal::Value);
    }
    match replica.take(op) {
        Ok(_) => Ok(()),
        Err(refusal) => Err(refusal),
    }
}

/// Gives a replica a text a thousand times, and the settings of most jobs with this tight wedge sum.
fn prepare<A: Allocator + Copy>(
    replica: &mut Replica<Flat<A>>,
    text: &str,
    tight: u32,
) -> Result<(), Refusal> {
    let mut last = Stamp::HEAD;
    for _ in 0..COUNT {
        for byte in text.as_bytes() {
            let op = behind(last, *byte);
            take_one(replica, op)?;
            last = op.stamp();
        }
    }
    set_all(replica, &STANDARD)?;
    set_all(replica, &[(Key::Tight, tight)])
}

/// A replica of site 1 with a text that stands a thousand times.
fn replica_of<A: Allocator + Copy>(
    alloc: A,
    text: &str,
    tight: u32,
) -> Result<Replica<Flat<A>>, Refusal> {
    let mut replica = Replica::new(alloc, 1);
    prepare(&mut replica, text, tight)?;
    Ok(replica)
}

/// Whether a thousand lines have so many matrices and this total, each of them.
fn are_alike<A: Allocator>(lines: &[CastLine<A>], matrices: usize, total: i64) -> bool {
    for line in lines {
        if line.matrices().len() != matrices || line.total().get() != total {
            return false;
        }
    }
    lines.len() == COUNT
}

/// Whether rows are cast as a thousand such lines.
fn are_rows_alike(
    alloc: Global,
    rows: &[RibbonRow],
    case: &MatrixCase,
    wedge: &Wedge,
    (matrices, total): (usize, i64),
) -> bool {
    if rows.len() > 1_000_000 {
        return false;
    }
    match cast(alloc, rows, case, wedge) {
        Ok(lines) => are_alike(&lines, matrices, total),
        Err(_) => false,
    }
}

/// Whether the job of a replica has a ribbon, which is cast as a thousand such lines.
fn is_cast_alike(
    alloc: Global,
    replica: &Replica<Flat<Global>>,
    case: &MatrixCase,
    wedge: &Wedge,
    line: (usize, i64),
) -> bool {
    let Ok(bytes) = make(alloc, replica, case, wedge) else {
        return false;
    };
    match read_ribbon(alloc, &bytes) {
        Ok(rows) => are_rows_alike(alloc, &rows, case, wedge, line),
        Err(_) => false,
    }
}

/// Whether these are the faults of a thousand lines, each of them too wide.
fn are_all_wide(faults: &[JobFault]) -> bool {
    for (at, fault) in faults.iter().enumerate() {
        if *fault != JobFault::TooWide(at.saturating_add(1)) {
            return false;
        }
    }
    faults.len() == COUNT
}

/// Whether the job of a replica has these faults.
fn is_all_wide(
    alloc: Global,
    replica: &Replica<Flat<Global>>,
    case: &MatrixCase,
    wedge: &Wedge,
) -> bool {
    match make(alloc, replica, case, wedge) {
        Err(JobRefusal::Faults(faults)) => are_all_wide(faults.as_slice()),
        _ => false,
    }
}

/// A line of full measure, a thousand times, and one that is wider.
#[test]
fn thousand_lines(rt: HostRuntime) -> Result<(), Fail> {
    let wedge = wedge_of(rt.alloc(), WEDGE)?;
    let case = case_with(rt.alloc(), FILLS)?;
    let full = replica_of(rt.alloc(), "nnnnnnnnnnnnnnnnm\n", 53)?;
    assert!(rt; is_cast_alike(rt.alloc(), &full, &case, &wedge, (18, 2_160_000)));
    let wide = replica_of(rt.alloc(), "nnnnnnnnnnnnnnnnnn\n", 38)?;
    assert!(rt; is_all_wide(rt.alloc(), &wide, &case, &wedge));
    Ok(())
}
