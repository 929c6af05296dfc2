//! The lines of two ribbons that differ, as text.

ghost use Rattle.std.specs.Prelude.{◌≡◌, ◌==◌, ◌++◌, IfOk, OnOk, string_bytes};
ghost use Rattle.view_ribbon.specs.Differences.{are_same_matrices, body_text, differ_words, differences_from};
ghost use Rattle.view_ribbon.specs.Differences.{differences_text, differing, head_text, is_same_line};
ghost use Rattle.view_ribbon.specs.Differences.{is_same_matrix, named_count, one_text, other_text, pair_text, scale_of};

use crate::comparing::Pair;
use crate::lines::{longest_of, put_line};
use desk_case::names::is_same;
use desk_caster::{CastLine, CastMatrix};
use desk_memory::NoMemory;
use desk_units::{Atoms, Pica};
use std::alloc::{AllocError, Allocator};
use text_copy::put_plain;

/// Whether two matrices are of one cell, both with S or both without.
fn is_same_matrix(a: &CastMatrix, b: &CastMatrix) -> bool
    ensures { result ≡ is_same_matrix a.now b.now }
{
    is_same(&a.cell, &b.cell) && a.s == b.s
}

/// Whether matrices are the same.
fn are_same_matrices(one: &[CastMatrix], other: &[CastMatrix]) -> bool
    ensures { result ≡ are_same_matrices one.now other.now }
{
    let mut rest = other;
    for a in one {
        let [b, more @ ..] = rest else {
            return false;
        };
        if !is_same_matrix(a, b) {
            return false;
        }
        rest = more;
    }
    rest.is_empty()
}

/// Whether two lines have the same positions of the wedges, and the same matrices.
fn is_same_line<A: Allocator>(a: &CastLine<A>, b: &CastLine<A>) -> bool
    ensures { result ≡ is_same_line a.now b.now }
{
    a.coarse().get() == b.coarse().get()
        && a.fine().get() == b.fine().get()
        && are_same_matrices(a.matrices(), b.matrices())
}

/// How many lines differ.
fn differing<A: Allocator>(lines: &[CastLine<A>], others: &[CastLine<A>]) -> u128
    ensures { result ≡ differing lines.now others.now }
{
    let mut count = 0u128;
    let mut ones = lines;
    let mut rest = others;
    'pairs: loop {
        match (ones, rest) {
            ([a, more @ ..], [b, later @ ..]) => {
                if !is_same_line(a, b) {
                    count += 1;
                }
                ones = more;
                rest = later;
            }
            ([_, more @ ..], []) => {
                count += 1;
                ones = more;
            }
            ([], [_, later @ ..]) => {
                count += 1;
                rest = later;
            }
            ([], []) => return count,
        }
    }
}

/// By what the lines of two ribbons are written: how wide the longest of each is.
#[derive(Clone, Copy)]
pub struct Scale {
    pica: Pica,
    one: Atoms,
    other: Atoms,
}

/// By what the lines of these ribbons are.
fn scale_of<A: Allocator>(pica: Pica, lines: &[CastLine<A>], others: &[CastLine<A>]) -> Scale
    ensures { result ≡ scale_of pica lines.now others.now }
{
    Scale {
        pica,
        one: longest_of(lines),
        other: longest_of(others),
    }
}

/// Writes a line of the first ribbon.
fn put_one<A: Allocator + Copy>(
    alloc: A,
    out: &mut String<A>,
    scale: &Scale,
    number: usize,
    line: &CastLine<A>,
) -> Result<(), AllocError>
    ensures { OnOk result (string_bytes out.new ≡ string_bytes out.old ++ one_text scale.now number line.now) }
{
    out.push_str("- ")?;
    put_line(alloc, out, scale.pica, scale.one, number, line)
}

/// Writes a line of the second.
fn put_other<A: Allocator + Copy>(
    alloc: A,
    out: &mut String<A>,
    scale: &Scale,
    number: usize,
    line: &CastLine<A>,
) -> Result<(), AllocError>
    ensures { OnOk result (string_bytes out.new ≡ string_bytes out.old ++ other_text scale.now number line.now) }
{
    out.push_str("+ ")?;
    put_line(alloc, out, scale.pica, scale.other, number, line)
}

/// Writes two lines of one number, where they differ.
fn put_pair<A: Allocator + Copy>(
    alloc: A,
    out: &mut String<A>,
    scale: &Scale,
    number: usize,
    a: &CastLine<A>,
    b: &CastLine<A>,
) -> Result<(), AllocError>
    ensures { OnOk result (string_bytes out.new ≡ string_bytes out.old ++ pair_text scale.now number a.now b.now) }
{
    if is_same_line(a, b) {
        return Ok(());
    }
    put_one(alloc, out, scale, number, a)?;
    put_other(alloc, out, scale, number, b)
}

/// Writes the lines that differ.
fn put_differences<A: Allocator + Copy>(
    alloc: A,
    out: &mut String<A>,
    scale: &Scale,
    lines: &[CastLine<A>],
    others: &[CastLine<A>],
) -> Result<(), AllocError>
    ensures { OnOk result
        (string_bytes out.new ≡ string_bytes out.old ++ differences_from scale.now 0 lines.now others.now) }
{
    let mut before = 0;
    let mut ones = lines;
    let mut rest = others;
    'pairs: loop {
        match (ones, rest) {
            ([a, more @ ..], [b, later @ ..]) => {
                put_pair(alloc, out, scale, before + 1, a, b)?;
                before += 1;
                ones = more;
                rest = later;
            }
            ([a, more @ ..], []) => {
                put_one(alloc, out, scale, before + 1, a)?;
                before += 1;
                ones = more;
            }
            ([], [b, later @ ..]) => {
                put_other(alloc, out, scale, before + 1, b)?;
                before += 1;
                rest = later;
            }
            ([], []) => return Ok(()),
        }
    }
}

/// Writes how many lines a ribbon of this name has.
fn put_named_count<A: Allocator + Copy>(
    out: &mut String<A>,
    name: &str,
    count: usize,
) -> Result<(), AllocError>
    ensures { OnOk result (string_bytes out.new ≡ string_bytes out.old ++ named_count name.now count) }
{
    put_plain(out, name)?;
    write!(out, " {count} lines, ")
}

/// Writes how many lines differ.
fn put_differ_words<A: Allocator + Copy>(out: &mut String<A>, count: u128) -> Result<(), AllocError>
    ensures { OnOk result (string_bytes out.new ≡ string_bytes out.old ++ differ_words count) }
{
    if count == 0 {
        out.push_str("none differs")
    } else if count == 1 {
        out.push_str("1 differs")
    } else {
        write!(out, "{count} differ")
    }
}

/// Writes how many lines two ribbons have, and how many differ.
fn put_head<A: Allocator + Copy>(
    out: &mut String<A>,
    pair: &Pair<'_>,
    lines: usize,
    others: usize,
    count: u128,
) -> Result<(), AllocError>
    ensures { OnOk result
        (string_bytes out.new ≡ string_bytes out.old
        ++ head_text (pair.now).one.now (pair.now).other.now lines others count) }
{
    put_named_count(out, pair.one, lines)?;
    put_named_count(out, pair.other, others)?;
    put_differ_words(out, count)?;
    out.push_str("\n")
}

/// Writes the lines that differ, where there are any.
fn put_body<A: Allocator + Copy>(
    alloc: A,
    out: &mut String<A>,
    scale: &Scale,
    count: u128,
    lines: &[CastLine<A>],
    others: &[CastLine<A>],
) -> Result<(), AllocError>
    ensures { OnOk result
        (string_bytes out.new ≡ string_bytes out.old ++ body_text scale.now count lines.now others.now) }
{
    if count == 0 {
        return Ok(());
    }
    out.push_str("\n")?;
    put_differences(alloc, out, scale, lines, others)
}

/// What is written of two ribbons that are cast, with the names of their files, and whether no line differs.
pub fn differences_of<A: Allocator + Copy>(
    alloc: A,
    pica: Pica,
    pair: &Pair<'_>,
    lines: &[CastLine<A>],
    others: &[CastLine<A>],
) -> Result<(String<A>, bool), NoMemory>
    ensures text { IfOk result (λ t. string_bytes t.0
        ≡ differences_text pica (pair.now).one.now (pair.now).other.now lines.now others.now) }
    ensures alike { IfOk result (λ t. t.1 ≡ (differing lines.now others.now == 0)) }
{
    let count = differing(lines, others);
    let scale = scale_of(pica, lines, others);
    let mut out = String::new(alloc);
    put_head(&mut out, pair, lines.len(), others.len(), count)?;
    put_body(alloc, &mut out, &scale, count, lines, others)?;
    Ok((out, count == 0))
}
