//! The way out of a line at fault.

ghost use Rattle.std.specs.Prelude.{◌≡◌, ◌++◌, ◌≤◌, ◌^◌, IfOk, OnOk, string_bytes};
ghost use Rattle.view_proof.specs.Faults.{way_text};
ghost use Rattle.view_proof.specs.Lines.{HasWords};
ghost use Rattle.view_pages.specs.Ways.{escaped_way, way_if_any};

use crate::names::put_escaped_text;
use desk_job::JobFault;
use desk_job::terms::Terms;
use desk_ops::Symbol;
use std::alloc::{AllocError, Allocator};
use view_galley::{Line, text_end};
use view_picture::paper::Paper;
use view_picture::{beside, put_text_at};
use view_proof::{Scale, put_way};

/// The way out of a line's fault.
fn way_of<A: Allocator + Copy>(
    alloc: A,
    copy: &[Symbol],
    scale: Scale,
    line: &Line<A>,
    fault: JobFault,
) -> Result<String<A>, AllocError>
    requires { HasWords copy.now line.now }
    ensures { IfOk result (λ s. string_bytes s ≡ way_text copy.now scale line.now fault) }
{
    let mut out = String::new(alloc);
    put_way(&mut out, copy, scale, line, fault)?;
    Ok(out)
}

/// Writes the way out of a line's fault, each character of it as XML has it.
pub fn put_escaped_way<A: Allocator + Copy>(
    out: &mut String<A>,
    copy: &[Symbol],
    scale: Scale,
    line: &Line<A>,
    fault: JobFault,
) -> Result<(), AllocError>
    requires { HasWords copy.now line.now }
    ensures { OnOk result
        (string_bytes out.new ≡ string_bytes out.old ++ escaped_way copy.now scale line.now fault) }
{
    let way = way_of(*out.allocator(), copy, scale, line, fault)?;
    put_escaped_text(out, way.as_str())
}

/// Writes that of a line whose letters stand here, if it has a fault: beside it, and below its cause.
#[tactic(auto, unfolding(view_galley::specs::Svg::text_end))]
pub fn put_way_below<A: Allocator + Copy>(
    out: &mut String<A>,
    terms: &Terms,
    copy: &[Symbol],
    paper: Paper,
    y: u128,
    line: &Line<A>,
) -> Result<(), AllocError>
    requires y { y ≤ 2 ^ 101 }
    requires line { HasWords copy.now line.now }
    ensures { OnOk result
        (string_bytes out.new ≡ string_bytes out.old
        ++ way_if_any terms.now copy.now paper y line.now line.now.faults) }
{
    let Some(fault) = line.fault() else {
        return Ok(());
    };
    put_text_at(out, "y", beside(terms, paper, line), y + 600)?;
    put_escaped_way(out, copy, paper.scale, line, fault)?;
    out.push_str(text_end())
}
