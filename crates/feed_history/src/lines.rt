//! The line of a correction.

ghost use Rattle.std.specs.Prelude.{◌≡◌, ◌++◌, OnOk, codes, string_bytes};
ghost use Rattle.desk_ops.specs.declared.fault.CopyFault.{CopyFault};
ghost use Rattle.std.specs.Fmt.{decimal};
ghost use Rattle.desk_ops.specs.Words.{stamp_words};
ghost use Rattle.feed_history.specs.Lines.{count_of, count_words, edits, faults_words, line, place_words};
ghost use Rattle.feed_history.specs.Lines.{set_words, settings_words, stamps_words, text_words};

use crate::corrections::Correction;
use crate::line_parts::Parts;
use crate::texts::put_shown_text;
use desk_memory::NoMemory;
use desk_ops::{CopyFault, FaultKind, Op, Stamp, Symbol};
use itoa::Buffer;
use std::alloc::{AllocError, Allocator};

/// Writes a number at the end.
fn put_number<A: Allocator + Copy>(out: &mut String<A>, n: u64) -> Result<(), AllocError>
    ensures { OnOk result (string_bytes out.new ≡ string_bytes out.old ++ decimal n) }
{
    let mut digits = Buffer::new();
    out.push_str(digits.format(n))
}

/// Writes a stamp at the end.
fn put_stamp<A: Allocator + Copy>(out: &mut String<A>, stamp: Stamp) -> Result<(), AllocError>
    ensures { OnOk result (string_bytes out.new ≡ string_bytes out.old ++ stamp_words stamp) }
{
    put_number(out, stamp.counter)?;
    out.push('.')?;
    put_number(out, u64::from(stamp.site))
}

/// Writes the stamps of a correction at the end: the first and the last, or the one that there is.
fn put_stamps<A: Allocator + Copy>(
    out: &mut String<A>,
    correction: Correction,
) -> Result<(), AllocError>
    ensures { OnOk result (string_bytes out.new ≡ string_bytes out.old ++ stamps_words correction) }
{
    let site = correction.site;
    if correction.first != correction.last {
        let counter = correction.first;
        put_stamp(out, Stamp { counter, site })?;
        out.push_str("..")?;
    }
    let counter = correction.last;
    put_stamp(out, Stamp { counter, site })
}

/// Whether an operation inserts or deletes.
fn edits(ops: &[Op]) -> bool
    ensures { result ≡ edits ops.now }
{
    ops.iter().any(|op| op.target().is_some())
}

/// Writes where operations are in the copy at the end: the place, or that they are not shown. Of settings alone it
/// writes nothing.
fn put_place<A: Allocator + Copy>(
    out: &mut String<A>,
    place: Option<usize>,
    ops: &[Op],
) -> Result<(), AllocError>
    ensures { OnOk result (string_bytes out.new ≡ string_bytes out.old ++ place_words place ops.now) }
{
    if let Some(place) = place {
        out.push_str(" at ")?;
        return put_number(out, place as u64);
    }
    if edits(ops) {
        return out.push_str(" not shown");
    }
    Ok(())
}

/// Writes a text behind a sign at the end, if it has symbols.
fn put_text<A: Allocator + Copy>(
    alloc: A,
    out: &mut String<A>,
    sign: &str,
    symbols: &[Symbol],
) -> Result<(), NoMemory>
    ensures { OnOk result (string_bytes out.new ≡ string_bytes out.old ++ text_words sign.now symbols.now) }
{
    if symbols.is_empty() {
        return Ok(());
    }
    out.push_str(sign)?;
    put_shown_text(alloc, out, symbols)?;
    Ok(out.push('"')?)
}

/// Writes the setting that an operation makes at the end, if it makes one.
fn put_set<A: Allocator + Copy>(out: &mut String<A>, op: &Op) -> Result<(), AllocError>
    ensures { OnOk result (string_bytes out.new ≡ string_bytes out.old ++ set_words op.now) }
{
    if let Op::Set { key, value, .. } = op {
        out.push(' ')?;
        out.push_str(key.name())?;
        out.push(' ')?;
        return put_number(out, u64::from(*value));
    }
    Ok(())
}

/// Writes the settings that operations make at the end.
fn put_settings<A: Allocator + Copy>(out: &mut String<A>, ops: &[Op]) -> Result<(), AllocError>
    ensures { OnOk result (string_bytes out.new ≡ string_bytes out.old ++ settings_words ops.now) }
{
    for op in ops {
        put_set(out, op)?;
    }
    Ok(())
}

/// How many copy faults are of a kind.
fn count_of(faults: &[CopyFault], kind: FaultKind) -> usize
    ensures { result ≡ count_of kind faults.now }
{
    let mut count = 0;
    for fault in faults {
        if fault.kind == kind {
            count += 1;
        }
    }
    count
}

/// Writes how many copy faults are of a kind at the end, if any are.
fn put_count<A: Allocator + Copy>(
    out: &mut String<A>,
    kind: FaultKind,
    count: usize,
) -> Result<(), AllocError>
    ensures { OnOk result (string_bytes out.new ≡ string_bytes out.old ++ count_words kind count) }
{
    if count == 0 {
        return Ok(());
    }
    out.push(' ')?;
    out.push_str(kind.name())?;
    out.push(' ')?;
    put_number(out, count as u64)
}

/// Writes how many copy faults are of each kind at the end.
fn put_faults<A: Allocator + Copy>(
    out: &mut String<A>,
    faults: &[CopyFault],
) -> Result<(), AllocError>
    ensures { OnOk result (string_bytes out.new ≡ string_bytes out.old ++ faults_words faults.now) }
{
    put_count(out, FaultKind::Forked, count_of(faults, FaultKind::Forked))?;
    put_count(out, FaultKind::Void, count_of(faults, FaultKind::Void))?;
    put_count(
        out,
        FaultKind::Waiting,
        count_of(faults, FaultKind::Waiting),
    )
}

/// Writes the end of the line at the end: the settings, and the copy faults.
fn put_tail<A: Allocator + Copy>(
    out: &mut String<A>,
    ops: &[Op],
    faults: &[CopyFault],
) -> Result<(), AllocError>
    ensures { OnOk result (string_bytes out.new
        ≡ string_bytes out.old ++ (settings_words ops.now ++ faults_words faults.now ++ codes "\n")) }
{
    put_settings(out, ops)?;
    put_faults(out, faults)?;
    out.push('\n')
}

/// Writes the line of a correction at the end, by its place and what it is made of.
pub fn put_correction<A: Allocator + Copy>(
    alloc: A,
    out: &mut String<A>,
    correction: Correction,
    place: Option<usize>,
    parts: &Parts<A>,
) -> Result<(), NoMemory>
    ensures { OnOk result (string_bytes out.new
        ≡ string_bytes out.old ++ line correction place parts.now.ops.items parts.now.inserted.items
        parts.now.taken.symbols.items parts.now.faults.items) }
{
    put_stamps(out, correction)?;
    put_place(out, place, &parts.ops)?;
    put_text(alloc, out, " + \"", &parts.inserted)?;
    put_text(alloc, out, " - \"", &parts.taken.symbols)?;
    Ok(put_tail(out, &parts.ops, &parts.faults)?)
}
