//! What is said of the bytes of a wedge file.

ghost use Rattle.std.specs.Prelude.{◌≡◌, ◌++◌, ◌<◌, Err, IfOk, OnOk, Some, false, option_map, string_bytes, true};
ghost use Rattle.feed_check.specs.Lines.{SaysWedge};
ghost use Rattle.feed_check.specs.Metal.{of_wedge};
ghost use Rattle.desk_wedge.specs.File.{wedge_of};
ghost use Rattle.feed_check.specs.Words.{count_words, pica_word, points_words, quarter_words, set_q_words};
ghost use Rattle.feed_check.specs.Words.{values_words, wedge_fault_words, wedge_words};

use crate::metal::Found;
use crate::reported::Reported;
use desk_memory::NoMemory;
use desk_units::{Pica, SetQ};
use desk_wedge::{Wedge, WedgeFault};
use std::alloc::{AllocError, Allocator, Global};

/// Quarters below one.
fn quarter_words(quarters: u8) -> &'static str
    requires { quarters < 4 }
    ensures { result.now ≡ quarter_words quarters }
{
    match quarters {
        0 => "",
        1 => ".25",
        2 => ".5",
        _ => ".75",
    }
}

fn pica_word(pica: Pica) -> &'static str
    ensures { result.now ≡ pica_word pica }
{
    match pica {
        Pica::Sixth => "sixth",
        Pica::American => "american",
    }
}

/// Writes quarter points in points.
fn put_points<A: Allocator + Copy>(out: &mut String<A>, quarters: u8) -> Result<(), AllocError>
    ensures { OnOk result (string_bytes out.new ≡ string_bytes out.old ++ points_words quarters) }
{
    write!(out, "{}", quarters / 4)?;
    out.push_str(quarter_words(quarters % 4))
}

/// Writes quarter points as they are.
fn put_count<A: Allocator + Copy>(out: &mut String<A>, quarters: u8) -> Result<(), AllocError>
    ensures { OnOk result (string_bytes out.new ≡ string_bytes out.old ++ count_words quarters) }
{
    write!(out, " ({quarters} quarter points)")
}

/// Writes quarter points in points and as they are.
fn put_quarters<A: Allocator + Copy>(out: &mut String<A>, quarters: u8) -> Result<(), AllocError>
    ensures { OnOk result (string_bytes out.new ≡ string_bytes out.old ++ set_q_words quarters) }
{
    put_points(out, quarters)?;
    put_count(out, quarters)
}

/// Writes a set in points and in quarter points.
fn put_set_q<A: Allocator + Copy>(out: &mut String<A>, set_q: SetQ) -> Result<(), AllocError>
    ensures { OnOk result (string_bytes out.new ≡ string_bytes out.old ++ set_q_words set_q) }
{
    put_quarters(out, set_q.get())
}

/// Writes what a wedge is.
fn put_wedge<A: Allocator + Copy>(out: &mut String<A>, wedge: &Wedge) -> Result<(), AllocError>
    ensures { OnOk result (string_bytes out.new ≡ string_bytes out.old ++ values_words wedge.now) }
{
    write!(out, "ok: wedge {}, set ", wedge.number())?;
    put_set_q(out, wedge.set_q())?;
    out.push_str(", pica ")?;
    out.push_str(pica_word(wedge.pica()))
}

/// Writes the first fault of a wedge file, with its key or its row. Where the fault is that memory ran out, nothing is
/// written.
fn put_wedge_fault<A: Allocator + Copy>(
    out: &mut String<A>,
    fault: WedgeFault,
) -> Result<(), AllocError>
    ensures { OnOk result
        (Some (string_bytes out.new) ≡ option_map (λ words. string_bytes out.old ++ words) (wedge_fault_words fault)) }
{
    match fault {
        WedgeFault::NotToml => out.push_str("it is not TOML"),
        WedgeFault::Missing(key) => write!(out, "`{}` is missing", key.name()),
        WedgeFault::Range(key) => {
            write!(out, "`{}` is of another type, length or value", key.name())
        }
        WedgeFault::Descending(row) => {
            write!(out, "row {} has fewer units than the row before", row.get())
        }
        WedgeFault::NoMemory => Err(AllocError),
    }
}

/// What is said of a wedge.
fn wedge_in_order<A: Allocator + Copy>(alloc: A, wedge: &Wedge) -> Result<Reported<A>, NoMemory>
    ensures text { IfOk result (λ t. string_bytes t.text ≡ values_words wedge.now) }
    ensures well { IfOk result (λ t. t.well ≡ true) }
{
    let mut text = String::new(alloc);
    put_wedge(&mut text, wedge)?;
    Ok(Reported { text, well: true })
}

/// What is said of a wedge file that has a fault.
fn wedge_refused<A: Allocator + Copy>(alloc: A, fault: WedgeFault) -> Result<Reported<A>, NoMemory>
    ensures text { IfOk result (λ t. wedge_words (Err fault) ≡ Some (string_bytes t.text)) }
    ensures well { IfOk result (λ t. t.well ≡ false) }
{
    let mut text = String::new(alloc);
    text.push_str("wedge refused: ")?;
    put_wedge_fault(&mut text, fault)?;
    Ok(Reported { text, well: false })
}

/// What is said of a wedge file: what it gives, or its first fault; and the wedge.
pub fn wedge_reported<A: Allocator + Copy>(
    alloc: A,
    global: Global,
    bytes: &[u8],
) -> Result<(Reported<A>, Found), NoMemory>
    ensures said { IfOk result (λ t. SaysWedge bytes.now (string_bytes t.0.text) t.0.well) }
    ensures found { IfOk result (λ t. t.1 ≡ of_wedge (wedge_of bytes.now)) }
{
    match Wedge::read(global, bytes) {
        Ok(wedge) => {
            let reported = wedge_in_order(alloc, &wedge)?;
            Ok((reported, Found::Wedge(wedge)))
        }
        Err(fault) => {
            let reported = wedge_refused(alloc, fault)?;
            Ok((reported, Found::Neither))
        }
    }
}
