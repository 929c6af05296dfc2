//! Parts of a picture.

ghost use Rattle.std.specs.Prelude.{◌≡◌, ◌++◌, OnOk, string_bytes};
ghost use Rattle.view_ribbon.specs.Parts.{between};

use std::alloc::{AllocError, Allocator};

/// Writes a number between two texts.
pub fn put_between<A: Allocator + Copy>(
    out: &mut String<A>,
    before: &str,
    n: u128,
    after: &str,
) -> Result<(), AllocError>
    ensures { OnOk result (string_bytes out.new ≡ string_bytes out.old ++ between before.now n after.now) }
{
    out.push_str(before)?;
    write!(out, "{n}")?;
    out.push_str(after)
}
