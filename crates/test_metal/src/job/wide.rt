//! A job and its cast with a case of 17 columns.

use crate::job::cases::{FILLS, WEDGE, case_with, wedge_of, wide_case};
use crate::job::jobs::{Job, are_bytes_cast_as, has_faults, replica_of};
use desk_caster::{CastFault, cast, read_ribbon};
use desk_job::{JobFault, make};
use desk_signals::RibbonRow;
use std::alloc::Global;
use std::test::Fail;

/// A word of the matrix in NI8.
const ONE_WORD: Job<'static> = Job {
    text: "q",
    fill: FILLS,
    more: &[],
};

/// Its ribbon: the head row, NI8, the space with S, nine fills of O15, and the wedges at 7 and 3.
const RIBBON: [u8; 64] = [
    0x4d, 0x52, 0x42, 0x31, 0, 0, 0, 14, 0, 0, 2, 6, 0, 0x42, 2, 0, 1, 1, 0, 1, 0, 0, 0, 0, 0, 0,
    0, 0, 0, 0, 0, 0, 0, 0, 0, 0, 0, 0, 0, 0, 0, 0, 0, 0, 0, 0, 0, 0, 0, 0, 0, 0, 0, 0, 0, 0, 0, 0,
    4, 2, 0, 0, 0x40, 6,
];

#[test]
fn ribbon_of_a_wide_case(rt: HostRuntime) -> Result<(), Fail> {
    let wedge = wedge_of(rt.alloc(), WEDGE)?;
    let case = wide_case(rt.alloc())?;
    let replica = replica_of(rt.alloc(), ONE_WORD)?;
    let made = make(rt.alloc(), &replica, &case, &wedge);
    assert!(rt; matches!(&made, Ok(bytes) if bytes.as_slice() == RIBBON.as_slice()));
    let lines = [(11, 2_159_640)];
    assert!(rt; are_bytes_cast_as(rt.alloc(), &RIBBON, &case, &wedge, &lines));
    Ok(())
}

/// Why rows are not cast with the first case.
fn fault_of(alloc: Global, rows: &[RibbonRow]) -> Result<Option<CastFault>, Fail> {
    if rows.len() > 1000 {
        return Err(Fail::new("more rows than a test has"));
    }
    let wedge = wedge_of(alloc, WEDGE)?;
    let case = case_with(alloc, FILLS)?;
    Ok(cast(alloc, rows, &case, &wedge).err())
}

#[test]
fn wide_rows_in_a_narrow_case(rt: HostRuntime) -> Result<(), Fail> {
    let Job { text, fill, more } = ONE_WORD;
    assert!(rt; has_faults(rt.alloc(), text, fill, more, &[JobFault::NoMatrix(0)])?);
    let rows = read_ribbon(rt.alloc(), &RIBBON)?;
    assert!(rt; fault_of(rt.alloc(), &rows)? == Some(CastFault::NoMatrix(1)));
    Ok(())
}
