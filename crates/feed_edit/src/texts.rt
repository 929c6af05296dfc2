//! The text that is to be replaced, and the one that is to take its place.

ghost use Rattle.std.specs.Prelude.{◌≡◌, IfErr, IfOk};
ghost use Rattle.text_copy.specs.Laws.{AreLawful};
ghost use Rattle.feed_edit.specs.Replacing.{AreRead, AreUnread, fault_of};

use crate::replace_fault::ExchangeFault;
use desk_ops::Symbol;
use std::alloc::Allocator;
use text_copy::{TextFault, read_text};

/// At which of its places a text is to be replaced. Places count from 0.
#[derive(Clone, Copy, Debug, PartialEq, Eq)]
pub enum Where {
    /// At the only one.
    Once,
    /// At this one.
    At(usize),
    /// At each, from the left, that overlaps none taken before. An empty text has to have a single place.
    All,
}

/// A text that is to be replaced, and one that is to take its place. Both have marks for their styles, as `text_copy`
/// reads them, or both are plain.
#[derive(Clone, Copy)]
pub struct Exchange<'a> {
    pub from: &'a str,
    pub to: &'a str,
    pub plain: bool,
    pub at: Where,
}

/// The fault of a text that is not read: the one that names the text, unless memory ran out.
fn fault_of(why: TextFault, named: ExchangeFault) -> ExchangeFault
    ensures { result ≡ fault_of why named }
{
    match why {
        TextFault::At { .. } => named,
        TextFault::NoMemory => ExchangeFault::NoMemory,
    }
}

/// The symbols of both.
pub fn read_both<A: Allocator + Copy>(
    alloc: A,
    exchange: &Exchange<'_>,
) -> Result<(Vec<Symbol, A>, Vec<Symbol, A>), ExchangeFault>
    ensures ok { IfOk result (λ t. AreRead exchange.now t.0.items t.1.items) }
    ensures lawful { IfOk result (λ t. AreLawful t.1.items) }
    ensures err { IfErr result (AreUnread exchange.now) }
{
    let read = read_text(alloc, exchange.from.as_bytes(), exchange.plain);
    let old = read.map_err(|why| fault_of(why, ExchangeFault::Old(why)))?;
    let read = read_text(alloc, exchange.to.as_bytes(), exchange.plain);
    let new = read.map_err(|why| fault_of(why, ExchangeFault::New(why)))?;
    Ok((old, new))
}
