//! The words of two copies that differ, in lines.

ghost use Rattle.std.specs.Prelude.{◌≡◌, ◌++◌, ◌≤◌, IfOk, OnOk, length, string_bytes};
ghost use Rattle.std.specs.Fmt.{decimal};
ghost use Rattle.feed_sites.specs.Stretches.{AreStretches, IsReached};
ghost use Rattle.feed_sites.specs.Words.{stretch_lines, stretches_lines, words_between, words_end, words_line};
ghost use Rattle.feed_sites.specs.Words.{words_text};

use crate::stretch::{Stretch, begins_word};
use desk_memory::NoMemory;
use desk_ops::Symbol;
use std::alloc::{AllocError, Allocator};
use text_copy::{all_shown, write_text};

/// Where the words between two places of a copy end: before the space or line feed that ends the last of them.
fn words_end(copy: &[Symbol], from: usize, to: usize) -> usize
    ensures { result ≡ words_end copy.now from to }
{
    if from < to && begins_word(copy, to) {
        to - 1
    } else {
        to
    }
}

/// The words between two places of a copy.
fn words_between(copy: &[Symbol], from: usize, to: usize) -> &[Symbol]
    requires order { from ≤ to }
    requires within { to ≤ length copy.now }
    ensures { result.now ≡ words_between copy.now from to }
{
    &copy[from..words_end(copy, from, to)]
}

/// Writes words as text behind a space at the end, if there are any. The end of a line is shown as a space, and a
/// directional mark by its name.
fn put_words<A: Allocator + Copy>(
    alloc: A,
    out: &mut Vec<u8, A>,
    words: &[Symbol],
) -> Result<(), NoMemory>
    ensures { OnOk result (out.new.items ≡ out.old.items ++ words_text words.now) }
{
    if words.is_empty() {
        return Ok(());
    }
    let symbols = all_shown(alloc, words)?;
    let text = write_text(alloc, &symbols)?;
    out.push(b' ')?;
    out.extend_from_slice(&text)?;
    Ok(())
}

/// The beginning of a line: a sign and a place.
fn head<A: Allocator + Copy>(alloc: A, sign: &str, place: usize) -> Result<String<A>, AllocError>
    ensures { IfOk result (λ s. string_bytes s ≡ sign.now ++ decimal place) }
{
    format!(in alloc; "{sign}{place}")
}

/// Writes a line at the end: a sign, a place of a copy, and the words from there up to another place.
fn put_line<A: Allocator + Copy>(
    alloc: A,
    out: &mut Vec<u8, A>,
    sign: &str,
    copy: &[Symbol],
    from: usize,
    to: usize,
) -> Result<(), NoMemory>
    requires order { from ≤ to }
    requires within { to ≤ length copy.now }
    ensures { OnOk result (out.new.items ≡ out.old.items ++ words_line sign.now copy.now from to) }
{
    let head = head(alloc, sign, from)?;
    out.extend_from_slice(head.as_bytes())?;
    put_words(alloc, out, words_between(copy, from, to))?;
    out.push(b'\n')?;
    Ok(())
}

/// Writes the lines of a stretch at the end.
fn put_stretch<A: Allocator + Copy>(
    alloc: A,
    out: &mut Vec<u8, A>,
    one: &[Symbol],
    other: &[Symbol],
    stretch: Stretch,
) -> Result<(), NoMemory>
    requires { IsReached one.now other.now stretch.from stretch.to }
    ensures { OnOk result (out.new.items ≡ out.old.items ++ stretch_lines one.now other.now stretch) }
{
    let Stretch { from, to } = stretch;
    put_line(alloc, out, "- ", one, from.one, to.one)?;
    put_line(alloc, out, "+ ", other, from.other, to.other)
}

/// Writes the lines of the stretches in which two copies differ at the end.
pub fn put_stretches<A: Allocator + Copy>(
    alloc: A,
    out: &mut Vec<u8, A>,
    one: &[Symbol],
    other: &[Symbol],
    stretches: &[Stretch],
) -> Result<(), NoMemory>
    requires { AreStretches one.now other.now stretches.now }
    ensures { OnOk result (out.new.items ≡ out.old.items ++ stretches_lines one.now other.now stretches.now) }
{
    for stretch in stretches {
        put_stretch(alloc, out, one, other, *stretch)?;
    }
    Ok(())
}
