//! Stamps in a line, by site: counters, and runs of them.

ghost use Rattle.std.specs.Prelude.{◌≡◌, ◌++◌, None, OnOk, string_bytes};
ghost use Rattle.feed_edit.specs.Counters.{counter_words, counters_words, first, first_words, follows, goes_on};
ghost use Rattle.feed_edit.specs.Counters.{is_followed, last_words, lead, site_words};

use crate::stamps::SiteStamp;
use std::alloc::{AllocError, Allocator};

/// How a site is named before its counters.
#[derive(Clone, Copy, Debug, PartialEq, Eq)]
pub enum Naming {
    /// As in `1: 20..25`.
    Short,
    /// As in `site 1 made 20..25`.
    Long,
}

/// Whether a stamp has the site of another and the next counter.
fn follows(before: SiteStamp, stamp: SiteStamp) -> bool
    ensures { result ≡ follows before stamp }
{
    before.site == stamp.site && before.counter.checked_add(1) == Some(stamp.counter)
}

/// Whether a stamp goes on from that before it.
fn goes_on(before: Option<SiteStamp>, stamp: SiteStamp) -> bool
    ensures { result ≡ goes_on before stamp }
{
    match before {
        Some(before) => follows(before, stamp),
        None => false,
    }
}

/// Whether the stamp after another goes on from it.
fn is_followed(stamp: SiteStamp, after: Option<SiteStamp>) -> bool
    ensures { result ≡ is_followed stamp after }
{
    match after {
        Some(after) => follows(stamp, after),
        None => false,
    }
}

/// Writes the name of a site at the end.
fn put_site<A: Allocator + Copy>(
    out: &mut String<A>,
    naming: Naming,
    site: u16,
) -> Result<(), AllocError>
    ensures { OnOk result (string_bytes out.new ≡ string_bytes out.old ++ site_words naming site) }
{
    match naming {
        Naming::Short => write!(out, "{site}: "),
        Naming::Long => write!(out, "site {site} made "),
    }
}

/// Writes what stands before the first counter of a run at the end.
fn put_lead<A: Allocator + Copy>(
    out: &mut String<A>,
    naming: Naming,
    before: Option<SiteStamp>,
    stamp: SiteStamp,
) -> Result<(), AllocError>
    ensures { OnOk result (string_bytes out.new ≡ string_bytes out.old ++ lead naming before stamp) }
{
    match before {
        Some(before) if before.site == stamp.site => return out.push_str(" "),
        Some(_) => out.push_str(", ")?,
        None => out.push_str(" ")?,
    }
    put_site(out, naming, stamp.site)
}

/// Writes the first counter of a run at the end.
fn put_first<A: Allocator + Copy>(
    out: &mut String<A>,
    naming: Naming,
    before: Option<SiteStamp>,
    stamp: SiteStamp,
) -> Result<(), AllocError>
    ensures { OnOk result (string_bytes out.new ≡ string_bytes out.old ++ first_words naming before stamp) }
{
    put_lead(out, naming, before, stamp)?;
    write!(out, "{}", stamp.counter)
}

/// Writes the last counter of a run at the end.
fn put_last<A: Allocator + Copy>(out: &mut String<A>, stamp: SiteStamp) -> Result<(), AllocError>
    ensures { OnOk result (string_bytes out.new ≡ string_bytes out.old ++ last_words stamp) }
{
    write!(out, "..{}", stamp.counter)
}

/// Writes a stamp between those before and after it at the end.
fn put_counter<A: Allocator + Copy>(
    out: &mut String<A>,
    naming: Naming,
    before: Option<SiteStamp>,
    stamp: SiteStamp,
    after: Option<SiteStamp>,
) -> Result<(), AllocError>
    ensures { OnOk result (string_bytes out.new ≡ string_bytes out.old ++ counter_words naming before stamp after) }
{
    if !goes_on(before, stamp) {
        return put_first(out, naming, before, stamp);
    }
    if is_followed(stamp, after) {
        return Ok(());
    }
    put_last(out, stamp)
}

/// The first of some stamps, if there are any.
fn first(stamps: &[SiteStamp]) -> Option<SiteStamp>
    ensures { result ≡ first stamps.now }
{
    stamps.first().copied()
}

/// Writes stamps at the end, each site with its counters, and two or more of these that follow one another as the first
/// and the last: ` 1: 20..25 31, 3: 7`, or ` site 1 made 20..25 31, site 3 made 7`.
pub fn put_counters<A: Allocator + Copy>(
    out: &mut String<A>,
    naming: Naming,
    stamps: &[SiteStamp],
) -> Result<(), AllocError>
    ensures { OnOk result (string_bytes out.new ≡ string_bytes out.old ++ counters_words naming None stamps.now) }
{
    let mut before = None;
    for (at, stamp) in stamps.iter().enumerate() {
        put_counter(out, naming, before, *stamp, first(&stamps[at + 1..]))?;
        before = Some(*stamp);
    }
    Ok(())
}
