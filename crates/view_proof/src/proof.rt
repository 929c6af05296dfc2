//! A galley as text.

ghost use Rattle.std.specs.Prelude.{◌≡◌, ◌++◌, All, OnOk, string_bytes};
ghost use Rattle.view_proof.specs.Lines.{HasWords, columns_text};
ghost use Rattle.view_proof.specs.Proof.{body_text, counts_text, faulty_lines, head_text, head_words, no_galley_text};
ghost use Rattle.view_proof.specs.Proof.{proof_text, scale_of, sorts_text, values_text, whole_text};

use crate::faults::{put_copy_faults, put_line_faults};
use crate::lacking::put_lacking;
use crate::lines::put_lines;
use crate::reasons::{NoGalley, put_reason};
use crate::scale::Scale;
use desk_job::terms::{Values, whole};
use desk_ops::{CopyFault, Symbol};
use std::alloc::{AllocError, Allocator};
use view_galley::{Galley, Line};

/// What is reported of a galley.
#[derive(Clone, Copy, PartialEq, Eq, Debug)]
pub enum Extent {
    /// Each line, and then the faults at their text.
    Whole,
    /// The faults alone.
    Faults,
}

/// What the figures of a galley are written by.
pub fn scale_of<'a, A: Allocator>(galley: &Galley<'a, A>) -> Scale
    ensures { result ≡ scale_of galley.now }
{
    let values = galley.values();
    Scale {
        pica: galley.wedge().pica(),
        tight: values.tight,
        loose: values.loose,
        space: whole(galley.terms().tight_space()) as u32,
    }
}

/// How many lines have a fault.
fn faulty_lines<A: Allocator>(lines: &[Line<A>]) -> usize
    ensures { result ≡ faulty_lines lines.now }
{
    let mut count = 0;
    for line in lines {
        if line.is_faulty() {
            count += 1;
        }
    }
    count
}

/// Writes how many lines there are, and how many are at fault.
fn put_counts<A: Allocator + Copy>(out: &mut String<A>, lines: &[Line<A>]) -> Result<(), AllocError>
    ensures { OnOk result (string_bytes out.new ≡ string_bytes out.old ++ counts_text lines.now) }
{
    let count = lines.len();
    let faulty = faulty_lines(lines);
    write!(out, "{count} lines, {faulty} at fault, ")
}

/// Writes how many symbols the case lacks, each at each of its places, where it lacks any.
fn put_sorts<A: Allocator + Copy>(out: &mut String<A>, count: usize) -> Result<(), AllocError>
    ensures { OnOk result (string_bytes out.new ≡ string_bytes out.old ++ sorts_text count) }
{
    match count {
        0 => Ok(()),
        1 => out.push_str("1 missing sort, "),
        count => write!(out, "{count} missing sorts, "),
    }
}

/// Writes what the lines are set by: the measure in points, and the limits of a wedge sum.
pub fn put_values<A: Allocator + Copy>(
    out: &mut String<A>,
    values: Values,
) -> Result<(), AllocError>
    ensures { OnOk result (string_bytes out.new ≡ string_bytes out.old ++ values_text values) }
{
    write!(out, "measure {} points, ", values.measure)?;
    write!(out, "tight {}, loose {}", values.tight, values.loose)
}

/// Writes how many lines a galley has, how many of them are at fault, how many symbols the case lacks, and what the
/// lines are set by.
pub fn put_head_words<'a, A: Allocator + Copy>(
    out: &mut String<A>,
    galley: &Galley<'a, A>,
) -> Result<(), AllocError>
    ensures { OnOk result (string_bytes out.new ≡ string_bytes out.old ++ head_words galley.now) }
{
    put_counts(out, galley.lines())?;
    put_sorts(out, galley.lacking().len())?;
    put_values(out, galley.values())
}

fn put_head<'a, A: Allocator + Copy>(
    out: &mut String<A>,
    galley: &Galley<'a, A>,
) -> Result<(), AllocError>
    ensures { OnOk result (string_bytes out.new ≡ string_bytes out.old ++ head_text galley.now) }
{
    out.push_str("GALLEY ")?;
    put_head_words(out, galley)?;
    out.push_str("\n")
}

/// The names of the columns.
fn columns() -> &'static str
    ensures { result.now ≡ columns_text }
{
    "\n  line   place   c/f    sum  tight ...... loose\n"
}

/// Writes the lines with their figures, under the names of their columns.
fn put_whole<A: Allocator + Copy>(
    out: &mut String<A>,
    copy: &[Symbol],
    scale: Scale,
    lines: &[Line<A>],
) -> Result<(), AllocError>
    requires { All (HasWords copy.now) lines.now }
    ensures { OnOk result (string_bytes out.new ≡ string_bytes out.old ++ whole_text copy.now scale lines.now) }
{
    out.push_str(columns())?;
    put_lines(out, copy, scale, lines)
}

/// Writes the lines with their figures, where they are wanted.
fn put_body<'a, A: Allocator + Copy>(
    out: &mut String<A>,
    copy: &[Symbol],
    galley: &Galley<'a, A>,
    extent: Extent,
) -> Result<(), AllocError>
    requires { All (HasWords copy.now) (galley.now).lines }
    ensures { OnOk result (string_bytes out.new ≡ string_bytes out.old ++ body_text copy.now galley.now extent) }
{
    match extent {
        Extent::Whole => put_whole(out, copy, scale_of(galley), galley.lines()),
        Extent::Faults => Ok(()),
    }
}

/// Writes a galley of a copy as text at the end, and the faults of the copy, which mean that a correction is not shown.
/// They stand above all; then the head, the symbols that the case lacks, each line where it is wanted, and the faults
/// of lines. Widths are written in points to a tenth, what is free rounded down, what is too much rounded up.
pub fn put_proof<'a, A: Allocator + Copy>(
    out: &mut String<A>,
    copy: &[Symbol],
    faults: &[CopyFault],
    galley: &Galley<'a, A>,
    extent: Extent,
) -> Result<(), AllocError>
    requires { All (HasWords copy.now) (galley.now).lines }
    ensures { OnOk result
        (string_bytes out.new ≡ string_bytes out.old ++ proof_text copy.now faults.now galley.now extent) }
{
    put_copy_faults(out, faults)?;
    put_head(out, galley)?;
    put_lacking(out, copy, galley.lacking())?;
    put_body(out, copy, galley, extent)?;
    put_line_faults(out, copy, scale_of(galley), galley.lines())
}

/// Writes the faults of a copy at the end, and why it has no galley.
pub fn put_no_galley<A: Allocator + Copy>(
    out: &mut String<A>,
    faults: &[CopyFault],
    why: &NoGalley,
) -> Result<(), AllocError>
    ensures { OnOk result (string_bytes out.new ≡ string_bytes out.old ++ no_galley_text faults.now why.now) }
{
    put_copy_faults(out, faults)?;
    out.push_str("no galley: ")?;
    put_reason(out, why)?;
    out.push_str("\n")
}
