ghost use Rattle.std.specs.Prelude.{◌≤◌};

use crate::words::is_worded;
use desk_signals::RowNo;
use desk_units::Pica;
use desk_wedge::{Wedge, WedgeFault, WedgeKey};
use std::alloc::{AllocError, Global};
use std::test::Fail;

const W: &str =
    "wedge = 5\nset_q = 48\npica = \"sixth\"\nunits = [5, 6, 7, 8, 9, 9, 9, 10, 10, 11, 12, 13, 14, 15, 18]\n";

fn row(number: u8) -> RowNo
    requires low { 1 ≤ number }
    requires high { number ≤ 15 }
{
    RowNo::new(number).unwrap()
}

/// The units of the rows.
fn has_units(wedge: &Wedge, units: &[u8; 15]) -> bool {
    for (at, want) in units.iter().enumerate() {
        if wedge.units(row(at as u8 + 1)) != *want {
            return false;
        }
    }
    true
}

/// A wedge whose keys come in another order.
const OTHER: &str =
    "units = [1,1,1,1,1,1,1,1,1,1,1,1,1,1,24] # all of them\npica = 'american'\nset_q = 0x60\nwedge = 65_535\nmore = {}";

/// Files, each with its number, its set, its pica and its units.
const LAWFUL: [(&str, u16, u8, Pica, [u8; 15]); 2] = [
    (
        W,
        5,
        48,
        Pica::Sixth,
        [5, 6, 7, 8, 9, 9, 9, 10, 10, 11, 12, 13, 14, 15, 18],
    ),
    (
        OTHER,
        65535,
        96,
        Pica::American,
        [1, 1, 1, 1, 1, 1, 1, 1, 1, 1, 1, 1, 1, 1, 24],
    ),
];

/// Whether a file is a wedge of this number, this set, this pica and these units.
fn is_wedge(
    alloc: Global,
    text: &str,
    number: u16,
    set_q: u8,
    pica: Pica,
    units: &[u8; 15],
) -> bool {
    match Wedge::read(alloc, text.as_bytes()) {
        Ok(wedge) => {
            wedge.number() == number
                && wedge.set_q().get() == set_q
                && wedge.pica() == pica
                && has_units(&wedge, units)
        }
        Err(_) => false,
    }
}

#[test]
fn reads_the_wedge_whole(rt: HostRuntime) {
    for (text, number, set_q, pica, units) in &LAWFUL {
        assert!(rt;
            is_wedge(rt.alloc(), text, *number, *set_q, *pica, units),
            "{number}"
        );
    }
}

/// Whether reading bytes answers this fault.
fn is_faulty(alloc: Global, bytes: &[u8], fault: WedgeFault) -> bool {
    Wedge::read(alloc, bytes) == Err(fault)
}

/// Whether a wedge file with these units answers this fault.
fn are_faulty(alloc: Global, units: &str, fault: WedgeFault) -> bool {
    match format!(in alloc; "wedge = 1\nset_q = 20\npica = \"sixth\"\nunits = {units}") {
        Ok(text) => is_faulty(alloc, text.as_bytes(), fault),
        Err(AllocError) => false,
    }
}

/// A wedge of too small a set.
const NARROW: &str =
    "wedge = 5\nset_q = 19\npica = \"sixth\"\nunits = [5, 6, 7, 8, 9, 9, 9, 10, 10, 11, 12, 13, 14, 15, 18]\n";

/// Units that fall once, and the row of which that is reported.
const FALLING: [(&str, u8); 2] = [
    ("[6, 5, 7, 8, 9, 9, 9, 10, 10, 11, 12, 13, 14, 15, 18]", 2),
    ("[5,6,7,7,5,6,7,8,9,10,11,12,13,14,13]", 5),
];

/// Whether units are reported to fall at this row.
fn fall_at(alloc: Global, units: &str, number: u8) -> bool {
    match RowNo::new(number) {
        Some(row) => are_faulty(alloc, units, WedgeFault::Descending(row)),
        None => false,
    }
}

#[test]
fn unlawful_files(rt: HostRuntime) {
    for &(units, number) in &FALLING {
        assert!(rt; fall_at(rt.alloc(), units, number), "{units}");
    }
    for &(text, fault) in &[
        (NARROW, WedgeFault::Range(WedgeKey::SetQ)),
        ("wedge =", WedgeFault::NotToml),
    ] {
        assert!(rt; is_faulty(rt.alloc(), text.as_bytes(), fault), "{text}");
    }
}

/// Files, and the words of their faults.
const HOSTILE: [(&str, &str); 45] = [
    ("", "`wedge` is missing"),
    ("wedge", "the file is not TOML"),
    ("wedge = 0", "`wedge` is of another type, length or value"),
    (
        "wedge = 65536",
        "`wedge` is of another type, length or value",
    ),
    ("wedge = -1", "`wedge` is of another type, length or value"),
    ("wedge = 5.0", "`wedge` is of another type, length or value"),
    ("wedge = nan", "`wedge` is of another type, length or value"),
    (
        "wedge = true",
        "`wedge` is of another type, length or value",
    ),
    (
        "wedge = \"5\"",
        "`wedge` is of another type, length or value",
    ),
    (
        "wedge = 1979-05-27",
        "`wedge` is of another type, length or value",
    ),
    ("wedge = {}", "`wedge` is of another type, length or value"),
    ("[wedge]", "`wedge` is of another type, length or value"),
    ("[[wedge]]", "`wedge` is of another type, length or value"),
    ("wedge = [5]", "`wedge` is of another type, length or value"),
    (
        "wedge = 9223372036854775807",
        "`wedge` is of another type, length or value",
    ),
    ("wedge = 9223372036854775808", "the file is not TOML"),
    (
        "wedge = 5\nother = 99999999999999999999",
        "the file is not TOML",
    ),
    ("wedge = 5\nwedge = 5", "the file is not TOML"),
    ("wedge = 05", "the file is not TOML"),
    (
        "wedge = 0x5\nset_q = 0b110000\npica = 'american'",
        "`units` is missing",
    ),
    ("wedge = +5\nset_q = 4_8", "`pica` is missing"),
    ("set_q = 19\nunits = []", "`wedge` is missing"),
    (
        "wedge = 1\nset_q = 97\npica = 6",
        "`set_q` is of another type, length or value",
    ),
    ("wedge = 1\npica = 6", "`set_q` is missing"),
    (
        "wedge = 1\nset_q = 20\npica = \"Sixth\"",
        "`pica` is of another type, length or value",
    ),
    (
        "wedge = 1\nset_q = 20\npica = 6",
        "`pica` is of another type, length or value",
    ),
    ("[a]\nwedge = 5", "`wedge` is missing"),
    ("wedge = 5e0", "`wedge` is of another type, length or value"),
    ("wedge = inf", "`wedge` is of another type, length or value"),
    (
        "wedge = 07:32:00",
        "`wedge` is of another type, length or value",
    ),
    (
        "wedge = 1979-05-27T07:32:00Z",
        "`wedge` is of another type, length or value",
    ),
    (
        "wedge = 0x1_0000",
        "`wedge` is of another type, length or value",
    ),
    (
        "wedge = -9223372036854775808",
        "`wedge` is of another type, length or value",
    ),
    ("wedge = -9223372036854775809", "the file is not TOML"),
    ("wedge = 5\n\"wedge\" = 5", "the file is not TOML"),
    ("wedge = 5\nwedge.a = 5", "the file is not TOML"),
    ("[wedge]\n[wedge]", "the file is not TOML"),
    ("wedge = 0\nother = {a = 1, a = 1}", "the file is not TOML"),
    (
        "wedge = 1\nset_q = 48.0",
        "`set_q` is of another type, length or value",
    ),
    (
        "wedge = 1\nset_q = 1979-05-27",
        "`set_q` is of another type, length or value",
    ),
    (
        "wedge = 1\nset_q = {}",
        "`set_q` is of another type, length or value",
    ),
    ("wedge = 1\nset_q = 48\nset_q = 48", "the file is not TOML"),
    (
        "wedge = 1\nset_q = 20\npica = [\"sixth\"]",
        "`pica` is of another type, length or value",
    ),
    (
        "wedge = 1\nset_q = 20\npica = \"sixth\u{301}\"",
        "`pica` is of another type, length or value",
    ),
    (
        "wedge = 1\nset_q = 20\npica = ''",
        "`pica` is of another type, length or value",
    ),
];

/// Whether reading a text answers the fault of these words.
fn is_refused(alloc: Global, text: &str, words: &str) -> bool {
    match Wedge::read(alloc, text.as_bytes()).err() {
        Some(fault) => is_worded(alloc, &fault, words),
        None => false,
    }
}

/// Bytes that are no text.
const NO_TEXTS: [&[u8]; 3] = [
    b"\xff",
    b"wedge = 5\n# \xc3\x28\n",
    b"wedge = 0\n\xed\xa0\x80",
];

#[test]
fn hostile_files(rt: HostRuntime) {
    for &(text, words) in &HOSTILE {
        assert!(rt; is_refused(rt.alloc(), text, words), "{text}");
    }
    for &bytes in &NO_TEXTS {
        assert!(rt;
            is_faulty(rt.alloc(), bytes, WedgeFault::NotToml),
            "{bytes:?}"
        );
    }
}

/// What stands before, then an opening so many times, a closing as often where there is one, and an end.
fn nested(
    alloc: Global,
    before: &str,
    opening: &str,
    depth: u32,
    closing: &str,
    end: &str,
) -> Result<String, AllocError> {
    let mut text = String::from_str(alloc, before)?;
    for _ in 0..depth {
        text.push_str(opening)?;
    }
    for _ in 0..depth {
        text.push_str(closing)?;
    }
    text.push_str(end)?;
    Ok(text)
}

const HOSTILE_UNITS: [&str; 17] = [
    "15",
    "[]",
    "{}",
    "[1,2,3,4,5,6,7,8,9,10,11,12,13,14]",
    "[1,2,3,4,5,6,7,8,9,10,11,12,13,14,15,16]",
    "[0,2,3,4,5,6,7,8,9,10,11,12,13,14,15]",
    "[1,2,3,4,5,6,7,8,9,10,11,12,13,14,25]",
    "[9,2,3,4,5,6,7,8,9,10,11,12,13,14,-1]",
    "[1,2,3,4,5,6,7,8,9,10,11,12,13,14,15.0]",
    "[1,2,3,4,5,6,7,8,9,10,11,12,13,14,[15]]",
    "[1,2,3,4,5,6,7,8,9,10,11,12,13,14,{}]",
    "[1,2,3,4,5,6,7,8,9,10,11,12,13,14,inf]",
    "[1,2,3,4,5,6,7,8,9,10,11,12,13,14,true]",
    "[1,2,3,4,5,6,7,8,9,10,11,12,13,14,\"15\"]",
    "[1,2,3,4,5,6,7,8,9,10,11,12,13,14,1979-05-27]",
    "[9,2,3,4,5,6,7,8,9,10,11,12,13,14,9223372036854775807]",
    "\"123456789012345\"",
];

/// Whether units that open 5000 lists, and close them so, are not TOML.
fn is_too_deep(alloc: Global, closing: &str) -> bool {
    match nested(alloc, "", "[", 5000, closing, "") {
        Ok(deep) => are_faulty(alloc, deep.as_str(), WedgeFault::NotToml),
        Err(AllocError) => false,
    }
}

#[test]
fn hostile_units(rt: HostRuntime) {
    for &list in &HOSTILE_UNITS {
        assert!(rt;
            are_faulty(rt.alloc(), list, WedgeFault::Range(WedgeKey::Units)),
            "{list}"
        );
    }
    for &closing in &["", "]"] {
        assert!(rt; is_too_deep(rt.alloc(), closing), "{closing}");
    }
}

/// How deep a value nests, and the fault.
const DEPTHS: [(u32, WedgeFault); 4] = [
    (1, WedgeFault::Range(WedgeKey::Wedge)),
    (80, WedgeFault::Range(WedgeKey::Wedge)),
    (100, WedgeFault::NotToml),
    (5000, WedgeFault::NotToml),
];

/// Whether a value that nests so deep, under a key that is passed over, and then a number out of its range, answers
/// this fault.
fn is_faulty_at(alloc: Global, depth: u32, fault: WedgeFault) -> bool {
    match nested(alloc, "other = ", "[", depth, "]", "\nwedge = 0\n") {
        Ok(text) => is_faulty(alloc, text.as_bytes(), fault),
        Err(AllocError) => false,
    }
}

#[test]
fn nested_values(rt: HostRuntime) -> Result<(), Fail> {
    for &(depth, fault) in &DEPTHS {
        assert!(rt; is_faulty_at(rt.alloc(), depth, fault), "{depth} deep");
    }
    let tables = nested(rt.alloc(), "wedge = ", "{a=", 5000, "", "")?;
    assert!(rt; is_faulty(rt.alloc(), tables.as_bytes(), WedgeFault::NotToml));
    Ok(())
}

/// Faults that name no row, each with its number and its words.
const FAULTS: [(WedgeFault, Option<u8>, &str); 4] = [
    (WedgeFault::NotToml, Some(1), "the file is not TOML"),
    (
        WedgeFault::Missing(WedgeKey::Wedge),
        Some(2),
        "`wedge` is missing",
    ),
    (
        WedgeFault::Range(WedgeKey::Units),
        Some(3),
        "`units` is of another type, length or value",
    ),
    (WedgeFault::NoMemory, None, "no memory"),
];

/// Whether a fault has this number, or none, and these words.
fn is_reported(alloc: Global, fault: WedgeFault, number: Option<u8>, words: &str) -> bool {
    is_worded(alloc, &fault, words) && fault.number() == number
}

#[test]
fn names_its_faults(rt: HostRuntime) {
    for &(fault, number, words) in &FAULTS {
        assert!(rt; is_reported(rt.alloc(), fault, number, words), "{words}");
    }
    let falling = WedgeFault::Descending(row(7));
    let words = "row 7 has fewer units than the row before";
    assert!(rt; is_reported(rt.alloc(), falling, Some(4), words));
}

/// Whether 64 MiB of text, which is its prefix, then one byte over and over, and its end, answers this fault, or none.
fn is_long_as(
    alloc: Global,
    prefix: &str,
    filler: u8,
    end: &str,
    fault: Option<WedgeFault>,
) -> Result<bool, AllocError> {
    let mut bytes = Vec::with_capacity(alloc, 67_108_864)?;
    bytes.extend_from_slice(prefix.as_bytes())?;
    bytes.resize(67_108_864usize.saturating_sub(end.len()), filler)?;
    bytes.extend_from_slice(end.as_bytes())?;
    Ok(bytes.len() == 67_108_864 && Wedge::read(alloc, bytes.as_slice()).err() == fault)
}

#[test]
fn blanks_of_64_mib(rt: HostRuntime) -> Result<(), Fail> {
    assert!(rt; is_long_as(rt.alloc(), "", b' ', W, None)?);
    Ok(())
}

#[test]
fn comment_of_64_mib(rt: HostRuntime) -> Result<(), Fail> {
    let range = WedgeFault::Range(WedgeKey::Wedge);
    assert!(rt; is_long_as(rt.alloc(), "#", b'x', "\nwedge = 0", Some(range))?);
    Ok(())
}

#[test]
fn garbage_of_64_mib(rt: HostRuntime) -> Result<(), Fail> {
    assert!(rt; is_long_as(rt.alloc(), "", b'x', "", Some(WedgeFault::NotToml))?);
    Ok(())
}
