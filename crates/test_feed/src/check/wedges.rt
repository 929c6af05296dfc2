use crate::check::rooms::says;
use std::alloc::Global;
use std::test::Fail;

/// Units that rise.
pub const UNITS: &str = "units = [5, 6, 7, 8, 9, 9, 9, 10, 10, 11, 12, 13, 14, 15, 18]";

/// Whether a wedge file of this set, pica and units has this line.
fn says_of(alloc: Global, parts: (u32, &str, &str), line: &str, well: bool) -> Result<bool, Fail> {
    let (set_q, pica, units) = parts;
    let file = format!(in alloc; "wedge = 5\nset_q = {set_q}\npica = '{pica}'\n{units}\n")?;
    says(alloc, file.as_bytes(), line, well)
}

#[test]
fn wedges_in_order(rt: HostRuntime) -> Result<(), Fail> {
    let rows: &[(u32, &str, &str)] = &[
        (
            47,
            "sixth",
            "f ok: wedge 5, set 11.75 (47 quarter points), pica sixth\n",
        ),
        (
            48,
            "sixth",
            "f ok: wedge 5, set 12 (48 quarter points), pica sixth\n",
        ),
        (
            25,
            "american",
            "f ok: wedge 5, set 6.25 (25 quarter points), pica american\n",
        ),
        (
            22,
            "american",
            "f ok: wedge 5, set 5.5 (22 quarter points), pica american\n",
        ),
    ];
    for (set_q, pica, line) in rows {
        assert!(rt;
            says_of(rt.alloc(), (*set_q, pica, UNITS), line, true)?,
            "{line}"
        );
    }
    Ok(())
}

#[test]
fn wedges_with_a_fault(rt: HostRuntime) -> Result<(), Fail> {
    let missing = "f wedge refused: `wedge` is missing\n";
    assert!(rt; says(rt.alloc(), b"units = 5", missing, false)?);
    let no_set = "f wedge refused: `set_q` is missing\n";
    assert!(rt; says(rt.alloc(), b"wedge = 5", no_set, false)?);
    let range = "f wedge refused: `pica` is of another type, length or value\n";
    assert!(rt; says_of(rt.alloc(), (48, "third", UNITS), range, false)?);
    let falls = "units = [5, 6, 7, 8, 9, 9, 9, 10, 9, 11, 12, 13, 14, 15, 18]";
    let line = "f wedge refused: row 9 has fewer units than the row before\n";
    assert!(rt; says_of(rt.alloc(), (48, "sixth", falls), line, false)?);
    Ok(())
}
