//! The line of a feed: its name, and the stamps of what it has alone.

ghost use Rattle.std.specs.Prelude.{◌≡◌, ◌++◌, OnOk, string_bytes};
ghost use Rattle.feed_sites.specs.Counters.{alone_line, stamps_words};

use feed_edit::{Naming, SiteStamp, put_counters};
use std::alloc::{AllocError, Allocator};
use text_copy::put_plain;

/// Writes stamps, or that there are none, at the end.
fn put_stamps<A: Allocator + Copy>(
    out: &mut String<A>,
    stamps: &[SiteStamp],
) -> Result<(), AllocError>
    ensures { OnOk result (string_bytes out.new ≡ string_bytes out.old ++ stamps_words stamps.now) }
{
    if stamps.is_empty() {
        return out.push_str(" none");
    }
    put_counters(out, Naming::Short, stamps)
}

/// Writes the line of a feed at the end: its name, and the stamps of what it has alone.
pub fn put_alone_line<A: Allocator + Copy>(
    out: &mut String<A>,
    name: &str,
    stamps: &[SiteStamp],
) -> Result<(), AllocError>
    ensures { OnOk result (string_bytes out.new ≡ string_bytes out.old ++ alone_line name.now stamps.now) }
{
    put_plain(out, name)?;
    out.push_str(" alone")?;
    put_stamps(out, stamps)?;
    out.push_str("\n")
}
