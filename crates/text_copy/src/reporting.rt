//! The places of a text, shown with what surrounds each.

ghost use Rattle.std.specs.Prelude.{◌≡◌, ◌+◌, ◌-◌, ◌++◌, take, drop, IfOk, OnOk, string_bytes, codes};
ghost use Rattle.std.specs.Fmt.{decimal};
ghost use Rattle.text_copy.specs.Reporting.{more_line, place_line, place_lines, reported_places};

use crate::{all_shown, write_text};
use desk_memory::NoMemory;
use desk_ops::Symbol;
use std::alloc::{AllocError, Allocator};

/// So many symbols are shown before a place, and behind the text there.
const AROUND: usize = 20;

/// So many places have a line.
const LINES: usize = 100;

/// From 20 symbols before a place to 20 behind a text of so many symbols there, as far as the copy goes.
fn window(count: usize, copy: &[Symbol], place: usize) -> &[Symbol]
    ensures { result.now ≡ drop (place - 20) (take (place + count + 20) copy.now) }
{
    let until = place.saturating_add(count).saturating_add(AROUND);
    let prefix = &copy[..until.min(copy.len())];
    &prefix[place.saturating_sub(AROUND).min(prefix.len())..]
}

/// The beginning of the line for a place.
fn head<A: Allocator + Copy>(alloc: A, place: usize) -> Result<String<A>, AllocError>
    ensures { IfOk result (λ s. string_bytes s ≡ codes "place " ++ decimal place ++ codes ": ") }
{
    format!(in alloc; "place {place}: ")
}

/// Writes the line for a place of a text of so many symbols at the end.
fn put_place<A: Allocator + Copy>(
    alloc: A,
    out: &mut Vec<u8, A>,
    count: usize,
    copy: &[Symbol],
    place: usize,
) -> Result<(), NoMemory>
    ensures { OnOk result (out.new.items ≡ out.old.items ++ place_line count copy.now place) }
{
    let symbols = all_shown(alloc, window(count, copy, place))?;
    let text = write_text(alloc, &symbols)?;
    let head = head(alloc, place)?;
    out.extend_from_slice(head.as_bytes())?;
    out.extend_from_slice(&text)?;
    out.push(b'\n')?;
    Ok(())
}

/// Writes the lines for places of a text of so many symbols at the end.
fn put_places<A: Allocator + Copy>(
    alloc: A,
    out: &mut Vec<u8, A>,
    count: usize,
    copy: &[Symbol],
    places: &[usize],
) -> Result<(), NoMemory>
    ensures { OnOk result (out.new.items ≡ out.old.items ++ place_lines count copy.now places.now) }
{
    for place in places {
        put_place(alloc, out, count, copy, *place)?;
    }
    Ok(())
}

/// Writes how many more places there are at the end, if there are any.
fn put_more<A: Allocator + Copy>(
    alloc: A,
    out: &mut Vec<u8, A>,
    more: usize,
) -> Result<(), NoMemory>
    ensures { OnOk result (out.new.items ≡ out.old.items ++ more_line more) }
{
    if more == 0 {
        return Ok(());
    }
    let line = format!(in alloc; "and {more} more\n")?;
    out.extend_from_slice(line.as_bytes())?;
    Ok(())
}

/// What is shown of the places of a text of so many symbols: `no place`, or a line `place 17: ..` for each of the first
/// 100, with up to 20 symbols before it and behind the text there, as text with marks for its styles; and then, if
/// there are more, a line `and 3 more`. The end of a line is shown as a space, and a directional mark by its name.
pub fn reported_places<A: Allocator + Copy>(
    alloc: A,
    count: usize,
    copy: &[Symbol],
    places: &[usize],
) -> Result<Vec<u8, A>, NoMemory>
    ensures { IfOk result (λ v. v.items ≡ reported_places count copy.now places.now) }
{
    let mut out = Vec::new(alloc);
    if places.is_empty() {
        out.extend_from_slice(b"no place\n")?;
        return Ok(out);
    }
    let first = &places[..LINES.min(places.len())];
    put_places(alloc, &mut out, count, copy, first)?;
    put_more(alloc, &mut out, places.len().saturating_sub(LINES))?;
    Ok(out)
}
