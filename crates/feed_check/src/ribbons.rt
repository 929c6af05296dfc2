//! What is said of the bytes of a ribbon.

ghost use Rattle.std.specs.Prelude.{◌≡◌, ◌++◌, Err, IfOk, OnOk, Some, false, length, option_map, string_bytes, true};
ghost use Rattle.feed_check.specs.Lines.{SaysRibbon};
ghost use Rattle.feed_check.specs.Words.{ribbon_fault_words, ribbon_words, row_fault_words, rows_words};

use crate::reported::Reported;
use desk_caster::{RibbonFault, read_ribbon};
use desk_image::BadImage;
use desk_memory::NoMemory;
use desk_signals::RibbonRow;
use std::alloc::{AllocError, Allocator};

/// Writes what is wrong with the row at a place.
fn put_row_fault<A: Allocator + Copy>(
    out: &mut String<A>,
    place: u32,
    why: BadImage,
) -> Result<(), AllocError>
    ensures { OnOk result (string_bytes out.new ≡ string_bytes out.old ++ row_fault_words place why) }
{
    write!(out, "row {place}: ")?;
    out.push_str(why.words())
}

/// Writes the first fault of a ribbon, with the place of its row. Where the fault is that memory ran out, nothing is
/// written.
fn put_ribbon_fault<A: Allocator + Copy>(
    out: &mut String<A>,
    fault: RibbonFault,
) -> Result<(), AllocError>
    ensures { OnOk result
        (Some (string_bytes out.new) ≡ option_map (λ words. string_bytes out.old ++ words) (ribbon_fault_words fault)) }
{
    match fault {
        RibbonFault::Magic => out.push_str("no ribbon begins so"),
        RibbonFault::Count => out.push_str("it has not as many rows as it says"),
        RibbonFault::Row(place, why) => put_row_fault(out, place, why),
        RibbonFault::NoMemory => Err(AllocError),
    }
}

/// What is said of the rows of a ribbon.
fn rows_reported<A: Allocator + Copy>(alloc: A, rows: &[RibbonRow]) -> Result<Reported<A>, NoMemory>
    ensures text { IfOk result (λ t. string_bytes t.text ≡ rows_words (length rows.now)) }
    ensures well { IfOk result (λ t. t.well ≡ true) }
{
    let mut text = String::new(alloc);
    write!(&mut text, "ok: {} rows", rows.len())?;
    Ok(Reported { text, well: true })
}

/// What is said of a ribbon that has a fault.
fn ribbon_refused<A: Allocator + Copy>(
    alloc: A,
    fault: RibbonFault,
) -> Result<Reported<A>, NoMemory>
    ensures text { IfOk result (λ t. ribbon_words (Err fault) ≡ Some (string_bytes t.text)) }
    ensures well { IfOk result (λ t. t.well ≡ false) }
{
    let mut text = String::new(alloc);
    text.push_str("ribbon refused: ")?;
    put_ribbon_fault(&mut text, fault)?;
    Ok(Reported { text, well: false })
}

/// What is said of a ribbon: how many rows it has, or its first fault.
pub fn ribbon_reported<A: Allocator + Copy>(alloc: A, bytes: &[u8]) -> Result<Reported<A>, NoMemory>
    ensures { IfOk result (λ t. SaysRibbon bytes.now (string_bytes t.text) t.well) }
{
    match read_ribbon(alloc, bytes) {
        Ok(rows) => rows_reported(alloc, &rows),
        Err(fault) => ribbon_refused(alloc, fault),
    }
}
