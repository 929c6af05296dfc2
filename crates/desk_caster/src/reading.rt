//! Reading a ribbon's bytes.

ghost use Rattle.std.specs.Prelude.{◌≡◌, ◌+◌, ◌*◌, ◌≤◌, ◌<◌, ◌^◌, ◌++◌, length, IfOk, IfErr, Err, List};
ghost use Rattle.std.specs.Int.{w32, to_be_bytes};
ghost use Rattle.desk_signals.specs.declared.RibbonRow.{RibbonRow};
ghost use Rattle.desk_caster.specs.Reading.{AreImages, IsRibbon, ReportsRow, Reports, MayHoldOne};
ghost use Rattle.desk_caster.specs.declared.RibbonFault.TheVariants as fault;

use crate::RibbonFault;
use desk_image::Image;
use desk_signals::RibbonRow;
use std::alloc::Allocator;

/// The number in the next four bytes, and the bytes after them.
fn take_number(bytes: &[u8]) -> (u32, &[u8])
    requires { 4 ≤ length bytes.now }
    ensures bytes { bytes.now ≡ to_be_bytes w32 result.0 ++ result.1.now }
    ensures value { result.0 < 2 ^ 32 }
{
    let (prefix, rest) = bytes.split_first_chunk::<4>().unwrap();
    (u32::from_be_bytes(*prefix), rest)
}

/// The rows of so many images, of four bytes each.
fn rows_of<A: Allocator>(
    alloc: A,
    number: u32,
    images: &[u8],
) -> Result<Vec<RibbonRow, A>, RibbonFault>
    requires { length images.now ≡ 4 * number }
    ensures rows { IfOk result (λ rows. AreImages rows.items images.now × (length rows.items ≡ number)) }
    ensures fault { IfErr result (λ fault. ReportsRow images.now fault) }
    ensures memory { result ≡ Err fault.NoMemory → 0 < number }
{
    let mut rows = Vec::with_capacity(alloc, number as usize)?;
    let mut rest = images;
    for place in 0..number {
        let (image, after) = take_number(rest);
        match Image::new(image).to_row() {
            Ok(row) => rows.push_reserved(row),
            Err(why) => return Err(RibbonFault::Row(place, why)),
        }
        rest = after;
    }
    Ok(rows)
}

/// The rows of a ribbon, in punched order, or the first fault of bytes that are none: Magic where the first four bytes
/// are not `MRB1` or not there, Count where the length is not that of the number of rows, and then the first row whose
/// image has no meaning. Out of memory may come in place of that row, or of the rows.
pub fn read_ribbon<A: Allocator>(alloc: A, bytes: &[u8]) -> Result<Vec<RibbonRow, A>, RibbonFault>
    ensures ribbon { IfOk result (λ rows. IsRibbon bytes.now rows.items) }
    ensures fault { IfErr result (λ fault. Reports bytes.now fault) }
    // For other magic, another count and a ribbon of no rows the answer is never out of memory.
    ensures memory { result ≡ Err fault.NoMemory → MayHoldOne bytes.now }
{
    let [b'M', b'R', b'B', b'1', body @ ..] = bytes else {
        return Err(RibbonFault::Magic);
    };
    if body.len() < 4 {
        return Err(RibbonFault::Count);
    }
    let (number, images) = take_number(body);
    if images.len() as u64 != 4 * number as u64 {
        return Err(RibbonFault::Count);
    }
    rows_of(alloc, number, images)
}
