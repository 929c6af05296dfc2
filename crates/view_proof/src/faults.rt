//! Faults at their text, and the way out in figures.

ghost use Rattle.std.specs.Prelude.{◌≡◌, ◌++◌, All, OnOk, IfSome, pos, ◌-ℤ◌, string_bytes, unsigned_abs};
ghost use Rattle.std.specs.Fmt.{decimal};
ghost use Rattle.desk_units.specs.WedgeSum.{greatest};
ghost use Rattle.desk_job.specs.Setting.{IsWord};
ghost use Rattle.view_proof.specs.Parts.{points_down, points_up};
ghost use Rattle.view_proof.specs.Lines.{HasWords};
ghost use Rattle.view_proof.specs.Faults.{cause_and_limits, cause_text, copy_fault_text, copy_faults_text};
ghost use Rattle.view_proof.specs.Faults.{fault_if_any};
ghost use Rattle.view_proof.specs.Faults.{fault_text, filling_text, free_text, is_loose, lead_text, limit_text};
ghost use Rattle.view_proof.specs.Faults.{limits_text};
ghost use Rattle.view_proof.specs.Faults.{line_faults_text, lone_text, meaning_text, missing_text, next_text};
ghost use Rattle.view_proof.specs.Faults.{next_word_text};
ghost use Rattle.view_proof.specs.Faults.{over_text, places_text, rest_text, shorter_text, shown_text, spaced_text};
ghost use Rattle.view_proof.specs.Faults.{spaces_text};
ghost use Rattle.view_proof.specs.Faults.{title_text, too_wide_text, way_line, way_text, wider_text};

use crate::lines::{put_set, put_sum};
use crate::marked::put_word;
use crate::parts::{begin_of, end_of, put_points_down, put_points_up};
use crate::scale::Scale;
use desk_job::JobFault;
use desk_lines::Word;
use desk_ops::{CopyFault, FaultKind, Key, Symbol};
use desk_units::{Atoms, Pica, WedgeSum};
use std::alloc::{AllocError, Allocator};
use view_galley::{Line, Next};

/// That a setting has no value.
fn missing(key: Key) -> &'static str
    ensures { result.now ≡ missing_text key }
{
    match key {
        Key::Measure => "the setting measure has no value",
        Key::Tight => "the setting tight has no value",
        Key::Loose => "the setting loose has no value",
        Key::Case => "the setting case has no value",
        Key::Wedge => "the setting wedge has no value",
    }
}

/// What a fault is.
pub fn cause(fault: JobFault) -> &'static str
    ensures { result.now ≡ cause_text fault }
{
    match fault {
        JobFault::MissingSetting(key) => missing(key),
        JobFault::OtherCase => "the setting case is not the number of the case",
        JobFault::OtherWedge => "the setting wedge is not the number of the wedge",
        JobFault::Crossed => "the setting tight is above loose",
        JobFault::FillOrder => "the units of the fills do not descend",
        JobFault::SpaceVanishes => "a space at tight has no width",
        JobFault::NoMatrix(_) => "no matrix",
        JobFault::TooWide(_) => "too wide",
        JobFault::TooLoose(_) => "too loose",
        JobFault::CannotFill(_) => "cannot be filled",
    }
}

/// Writes a limit between these words.
fn put_bound<A: Allocator + Copy>(
    out: &mut String<A>,
    before: &str,
    limit: u32,
    after: &str,
) -> Result<(), AllocError>
    ensures { OnOk result
        (string_bytes out.new ≡ string_bytes out.old ++ (before.now ++ (decimal limit ++ after.now))) }
{
    out.push_str(before)?;
    write!(out, "{limit}")?;
    out.push_str(after)
}

/// Writes the wedge sum and a limit, between these words.
fn put_limit<A: Allocator + Copy>(
    out: &mut String<A>,
    sum: Option<i64>,
    before: &str,
    limit: u32,
    after: &str,
) -> Result<(), AllocError>
    ensures { OnOk result (string_bytes out.new ≡ string_bytes out.old ++ limit_text sum before.now limit after.now) }
{
    out.push_str(" (wedge sum ")?;
    put_sum(out, sum)?;
    put_bound(out, before, limit, after)
}

/// The greatest wedge sum.
fn greatest() -> u32
    ensures { result ≡ greatest }
{
    WedgeSum::GREATEST.get() as u32
}

/// Writes the wedge sum, and the limits between which a line is filled: tight, and the greatest wedge sum.
fn put_filling<A: Allocator + Copy>(
    out: &mut String<A>,
    sum: Option<i64>,
    tight: u32,
) -> Result<(), AllocError>
    ensures { OnOk result (string_bytes out.new ≡ string_bytes out.old ++ filling_text sum tight) }
{
    put_limit(out, sum, ", limits ", tight, " and ")?;
    put_bound(out, "", greatest(), ")")
}

/// Writes the wedge sum and the limit or limits for it, where the fault is of the wedge sum.
fn put_limits<A: Allocator + Copy>(
    out: &mut String<A>,
    scale: Scale,
    sum: Option<i64>,
    fault: JobFault,
) -> Result<(), AllocError>
    ensures { OnOk result (string_bytes out.new ≡ string_bytes out.old ++ limits_text scale sum fault) }
{
    match fault {
        JobFault::TooLoose(_) => put_limit(out, sum, ", limit ", scale.loose, ")"),
        JobFault::CannotFill(_) => put_filling(out, sum, scale.tight),
        JobFault::MissingSetting(_)
        | JobFault::OtherCase
        | JobFault::OtherWedge
        | JobFault::Crossed
        | JobFault::FillOrder
        | JobFault::SpaceVanishes
        | JobFault::NoMatrix(_)
        | JobFault::TooWide(_) => Ok(()),
    }
}

fn put_spaces<A: Allocator + Copy>(out: &mut String<A>, count: usize) -> Result<(), AllocError>
    ensures { OnOk result (string_bytes out.new ≡ string_bytes out.old ++ spaces_text count) }
{
    match count {
        1 => out.push_str("1 space"),
        count => write!(out, "{count} spaces"),
    }
}

/// Writes a width in points, rounded down, and these words.
fn put_down<A: Allocator + Copy>(
    out: &mut String<A>,
    pica: Pica,
    width: Atoms,
    after: &str,
) -> Result<(), AllocError>
    ensures { OnOk result
        (string_bytes out.new ≡ string_bytes out.old ++ (points_down pica (unsigned_abs width) ++ after.now)) }
{
    put_points_down(out, pica, width.get().unsigned_abs())?;
    out.push_str(after)
}

/// Writes a width in points, rounded up, and these words.
fn put_up<A: Allocator + Copy>(
    out: &mut String<A>,
    pica: Pica,
    width: Atoms,
    after: &str,
) -> Result<(), AllocError>
    ensures { OnOk result
        (string_bytes out.new ≡ string_bytes out.old ++ (points_up pica (unsigned_abs width) ++ after.now)) }
{
    put_points_up(out, pica, width.get().unsigned_abs())?;
    out.push_str(after)
}

/// Writes what is free for a part of the next word.
fn put_free<A: Allocator + Copy>(
    out: &mut String<A>,
    pica: Pica,
    free: Atoms,
) -> Result<(), AllocError>
    ensures { OnOk result (string_bytes out.new ≡ string_bytes out.old ++ free_text pica free) }
{
    if free.get() <= 0 {
        return out.push_str("nothing is free for a part of it");
    }
    put_down(out, pica, free, " points are free for a part of it")
}

/// Writes by how much the next word did not fit, and what is free for a part of it.
fn put_over<A: Allocator + Copy>(
    out: &mut String<A>,
    pica: Pica,
    next: Next,
) -> Result<(), AllocError>
    ensures { OnOk result (string_bytes out.new ≡ string_bytes out.old ++ over_text pica next) }
{
    put_up(out, pica, next.over, " points too wide; ")?;
    put_free(out, pica, next.free)
}

/// Writes a word, by how much it did not fit, and what is free for a part of it.
fn put_next_word<A: Allocator + Copy>(
    out: &mut String<A>,
    copy: &[Symbol],
    pica: Pica,
    next: Next,
) -> Result<(), AllocError>
    requires { IsWord copy.now next.word }
    ensures { OnOk result (string_bytes out.new ≡ string_bytes out.old ++ next_word_text copy.now pica next) }
{
    out.push_str("; the next word, '")?;
    put_word(out, copy, next.word)?;
    out.push_str("', is ")?;
    put_over(out, pica, next)
}

/// Writes the next word, if there is one, by how much it did not fit, and what is free for a part of it.
fn put_next<A: Allocator + Copy>(
    out: &mut String<A>,
    copy: &[Symbol],
    pica: Pica,
    next: Option<Next>,
) -> Result<(), AllocError>
    requires { IfSome next (λ n. IsWord copy.now n.word) }
    ensures { OnOk result (string_bytes out.new ≡ string_bytes out.old ++ next_text copy.now pica next) }
{
    match next {
        Some(next) => put_next_word(out, copy, pica, next),
        None => Ok(()),
    }
}

fn put_wider<A: Allocator + Copy>(
    out: &mut String<A>,
    pica: Pica,
    rest: Atoms,
) -> Result<(), AllocError>
    ensures { OnOk result (string_bytes out.new ≡ string_bytes out.old ++ wider_text pica rest) }
{
    out.push_str("; ")?;
    put_up(out, pica, rest, " points wider than the measure at neutral")
}

fn put_shorter<A: Allocator + Copy>(
    out: &mut String<A>,
    pica: Pica,
    rest: Atoms,
) -> Result<(), AllocError>
    ensures { OnOk result (string_bytes out.new ≡ string_bytes out.old ++ shorter_text pica rest) }
{
    out.push_str("; ")?;
    put_down(out, pica, rest, " points short of the measure at neutral")
}

/// Writes what the words and the spaces at neutral leave of the measure.
fn put_rest<A: Allocator + Copy>(
    out: &mut String<A>,
    pica: Pica,
    rest: Atoms,
) -> Result<(), AllocError>
    ensures { OnOk result (string_bytes out.new ≡ string_bytes out.old ++ rest_text pica rest) }
{
    if rest.get() < 0 {
        put_wider(out, pica, rest)
    } else {
        put_shorter(out, pica, rest)
    }
}

/// Whether a part of the next word is a way out.
fn is_loose(fault: JobFault) -> bool
    ensures { result ≡ is_loose fault }
{
    match fault {
        JobFault::TooLoose(_) => true,
        JobFault::MissingSetting(_)
        | JobFault::OtherCase
        | JobFault::OtherWedge
        | JobFault::Crossed
        | JobFault::FillOrder
        | JobFault::SpaceVanishes
        | JobFault::NoMatrix(_)
        | JobFault::TooWide(_)
        | JobFault::CannotFill(_) => false,
    }
}

/// How far a space is from what is left of a measure.
fn between(space: u32, rest: Atoms) -> u64
    ensures { result ≡ unsigned_abs (pos space -ℤ rest) }
{
    (space as i128 - rest.get() as i128).unsigned_abs() as u64
}

/// Writes by how much a word that leaves so much of the measure is too wide to have the least space.
fn put_too_wide<A: Allocator + Copy>(
    out: &mut String<A>,
    scale: Scale,
    rest: Atoms,
) -> Result<(), AllocError>
    ensures { OnOk result (string_bytes out.new ≡ string_bytes out.old ++ too_wide_text scale rest) }
{
    put_points_up(out, scale.pica, between(scale.space, rest))?;
    out.push_str(" points too wide")
}

/// Writes, of a line without a space, the least space and by how much its word is too wide to have it.
fn put_lone<A: Allocator + Copy>(
    out: &mut String<A>,
    scale: Scale,
    rest: Atoms,
) -> Result<(), AllocError>
    ensures { OnOk result (string_bytes out.new ≡ string_bytes out.old ++ lone_text scale rest) }
{
    out.push_str("one word and no space to justify it; with one of at least ")?;
    put_points_up(out, scale.pica, scale.space as u64)?;
    out.push_str(" points it is ")?;
    put_too_wide(out, scale, rest)
}

/// Writes the way out of the fault of a line with spaces.
fn put_spaced<A: Allocator + Copy>(
    out: &mut String<A>,
    copy: &[Symbol],
    scale: Scale,
    line: &Line<A>,
    fault: JobFault,
) -> Result<(), AllocError>
    requires { HasWords copy.now line.now }
    ensures { OnOk result (string_bytes out.new ≡ string_bytes out.old ++ spaced_text copy.now scale line.now fault) }
{
    put_spaces(out, line.spaces())?;
    if is_loose(fault) {
        put_next(out, copy, scale.pica, line.next())
    } else {
        put_rest(out, scale.pica, line.rest())
    }
}

/// Writes the way out of a line's fault, for a compositor: what its spaces lack or have too much, in points to a tenth.
pub fn put_way<A: Allocator + Copy>(
    out: &mut String<A>,
    copy: &[Symbol],
    scale: Scale,
    line: &Line<A>,
    fault: JobFault,
) -> Result<(), AllocError>
    requires { HasWords copy.now line.now }
    ensures { OnOk result (string_bytes out.new ≡ string_bytes out.old ++ way_text copy.now scale line.now fault) }
{
    if line.spaces() == 0 {
        put_lone(out, scale, line.rest())
    } else {
        put_spaced(out, copy, scale, line, fault)
    }
}

/// Writes what a fault is, and where it is of the wedge sum, that and the limit or limits for it.
pub fn put_cause<A: Allocator + Copy>(
    out: &mut String<A>,
    scale: Scale,
    sum: Option<i64>,
    fault: JobFault,
) -> Result<(), AllocError>
    ensures { OnOk result (string_bytes out.new ≡ string_bytes out.old ++ cause_and_limits scale sum fault) }
{
    out.push_str(cause(fault))?;
    put_limits(out, scale, sum, fault)
}

fn put_lead<A: Allocator + Copy>(out: &mut String<A>, number: usize) -> Result<(), AllocError>
    ensures { OnOk result (string_bytes out.new ≡ string_bytes out.old ++ lead_text number) }
{
    write!(out, "\nline {number}: ")
}

/// Writes the places of words.
fn put_places<A: Allocator + Copy>(out: &mut String<A>, words: &[Word]) -> Result<(), AllocError>
    ensures { OnOk result (string_bytes out.new ≡ string_bytes out.old ++ places_text words.now) }
{
    let begin = begin_of(words);
    let end = end_of(words);
    write!(out, ", places {begin}..{end}\n")
}

/// Writes the number of a line, its fault and its places.
fn put_title<A: Allocator + Copy>(
    out: &mut String<A>,
    scale: Scale,
    line: &Line<A>,
    fault: JobFault,
) -> Result<(), AllocError>
    ensures { OnOk result (string_bytes out.new ≡ string_bytes out.old ++ title_text scale line.now fault) }
{
    put_lead(out, line.number())?;
    put_cause(out, scale, line.wedge_sum(), fault)?;
    put_places(out, line.words())
}

/// Writes the text of a line.
fn put_shown<A: Allocator + Copy>(
    out: &mut String<A>,
    copy: &[Symbol],
    line: &Line<A>,
) -> Result<(), AllocError>
    requires { HasWords copy.now line.now }
    ensures { OnOk result (string_bytes out.new ≡ string_bytes out.old ++ shown_text copy.now line.now) }
{
    out.push_str("  | ")?;
    put_set(out, copy, line)
}

/// Writes the way out on a line of its own.
fn put_way_line<A: Allocator + Copy>(
    out: &mut String<A>,
    copy: &[Symbol],
    scale: Scale,
    line: &Line<A>,
    fault: JobFault,
) -> Result<(), AllocError>
    requires { HasWords copy.now line.now }
    ensures { OnOk result (string_bytes out.new ≡ string_bytes out.old ++ way_line copy.now scale line.now fault) }
{
    out.push_str("  = ")?;
    put_way(out, copy, scale, line, fault)?;
    out.push_str("\n")
}

/// Writes the fault of a line at its text.
fn put_fault<A: Allocator + Copy>(
    out: &mut String<A>,
    copy: &[Symbol],
    scale: Scale,
    line: &Line<A>,
    fault: JobFault,
) -> Result<(), AllocError>
    requires { HasWords copy.now line.now }
    ensures { OnOk result (string_bytes out.new ≡ string_bytes out.old ++ fault_text copy.now scale line.now fault) }
{
    put_title(out, scale, line, fault)?;
    put_shown(out, copy, line)?;
    put_way_line(out, copy, scale, line, fault)
}

/// Writes the fault of a line, if it has one.
fn put_fault_of<A: Allocator + Copy>(
    out: &mut String<A>,
    copy: &[Symbol],
    scale: Scale,
    line: &Line<A>,
) -> Result<(), AllocError>
    requires { HasWords copy.now line.now }
    ensures { OnOk result
        (string_bytes out.new ≡ string_bytes out.old ++ fault_if_any copy.now scale line.now (line.now).faults) }
{
    match line.fault() {
        Some(fault) => put_fault(out, copy, scale, line, fault),
        None => Ok(()),
    }
}

/// Writes the faults of lines.
pub fn put_line_faults<A: Allocator + Copy>(
    out: &mut String<A>,
    copy: &[Symbol],
    scale: Scale,
    lines: &[Line<A>],
) -> Result<(), AllocError>
    requires { All (HasWords copy.now) lines.now }
    ensures { OnOk result (string_bytes out.new ≡ string_bytes out.old ++ line_faults_text copy.now scale lines.now) }
{
    for line in lines {
        put_fault_of(out, copy, scale, line)?;
    }
    Ok(())
}

/// What a fault of a copy of this kind means, as it stands behind the fault.
pub fn meaning(kind: FaultKind) -> &'static str
    ensures { result.now ≡ meaning_text kind }
{
    match kind {
        FaultKind::Forked => ": more than one operation has this stamp",
        FaultKind::Void => ": what it hangs on cannot act",
        FaultKind::Waiting => ": what it hangs on has not come",
    }
}

fn put_copy_fault<A: Allocator + Copy>(
    out: &mut String<A>,
    fault: CopyFault,
) -> Result<(), AllocError>
    ensures { OnOk result (string_bytes out.new ≡ string_bytes out.old ++ copy_fault_text fault) }
{
    write!(out, "{fault}{}\n", meaning(fault.kind))
}

/// Writes the faults of a copy, each of which means that a correction is not shown.
pub fn put_copy_faults<A: Allocator + Copy>(
    out: &mut String<A>,
    faults: &[CopyFault],
) -> Result<(), AllocError>
    ensures { OnOk result (string_bytes out.new ≡ string_bytes out.old ++ copy_faults_text faults.now) }
{
    for fault in faults {
        put_copy_fault(out, *fault)?;
    }
    Ok(())
}
