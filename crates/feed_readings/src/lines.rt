//! Open readings as text.

ghost use Rattle.std.specs.Prelude.{◌≡◌, ◌++◌, [], ◌∷◌, All, IfOk, OnOk, codes, drop, length, string_bytes, take};
ghost use Rattle.std.specs.Fmt.{decimal};
ghost use Rattle.feed_readings.specs.Lines.{alike_for, begins_at, left_out, reading_lines, readings_lines, symbols_of};
ghost use Rattle.feed_readings.specs.Lines.{words_line, words_lines, words_text};
ghost use Rattle.feed_readings.specs.Pieces.{LiesIn, part};
ghost use Rattle.feed_readings.specs.Readings.{open_readings};

use crate::reading::{Reading, Shown};
use crate::walk::{open_readings, part};
use desk_memory::NoMemory;
use desk_ops::Symbol;
use std::alloc::{AllocError, Allocator};
use text_copy::{all_shown, write_text};

/// Four lists of shown elements: what two copies have in common, the one, the other, and what both make.
#[derive(Drop)]
pub struct Copies<A: Allocator + Copy> {
    pub base: Vec<Shown, A>,
    pub one: Vec<Shown, A>,
    pub other: Vec<Shown, A>,
    pub both: Vec<Shown, A>,
}

/// The words of a reading in four lists.
#[derive(Clone, Copy)]
struct Words<'a> {
    base: &'a [Shown],
    one: &'a [Shown],
    other: &'a [Shown],
    both: &'a [Shown],
}

/// The symbols of some elements.
fn symbols_of<A: Allocator + Copy>(alloc: A, list: &[Shown]) -> Result<Vec<Symbol, A>, AllocError>
    ensures { IfOk result (λ v. v.items ≡ symbols_of list.now) }
{
    list.iter().map(|element| element.symbol).collect(alloc)
}

/// How many symbols two lists begin with alike.
fn alike_for(one: &[Shown], other: &[Shown]) -> usize
    ensures { result ≡ alike_for one.now other.now }
{
    let mut ones = one;
    let mut others = other;
    let mut count = 0;
    while let [first, firsts @ ..] = ones {
        let [second, seconds @ ..] = others else {
            return count;
        };
        if first.symbol != second.symbol {
            return count;
        }
        ones = firsts;
        others = seconds;
        count += 1;
    }
    count
}

/// Where what is shown of four lists begins: 8 symbols before the first that differs.
fn begins_at(words: &Words) -> usize
    ensures { result ≡ begins_at words.now.base.now words.now.one.now words.now.other.now words.now.both.now }
{
    let here = alike_for(words.both, words.one);
    let there = alike_for(words.both, words.other);
    let was = alike_for(words.both, words.base);
    here.min(there.min(was)).saturating_sub(8)
}

/// Up to 24 of some words, from a place on.
fn shortened(words: &[Shown], from: usize) -> &[Shown]
    ensures { result.now ≡ take 24 (drop from words.now) }
{
    let rest = &words[from.min(words.len())..];
    &rest[..rest.len().min(24)]
}

/// Writes two points at the end, where symbols are left out.
fn put_left_out<A: Allocator + Copy>(out: &mut Vec<u8, A>, any: bool) -> Result<(), AllocError>
    ensures { OnOk result (out.new.items ≡ out.old.items ++ left_out any) }
{
    if any {
        out.extend_from_slice(b"..")?;
    }
    Ok(())
}

/// Writes what is shown of words as text behind a space at the end, if there are any. The end of a line is shown as a
/// space, and a directional mark by its name.
fn put_words<A: Allocator + Copy>(
    alloc: A,
    out: &mut Vec<u8, A>,
    from: usize,
    words: &[Shown],
) -> Result<(), NoMemory>
    ensures { OnOk result (out.new.items ≡ out.old.items ++ words_text from words.now) }
{
    if words.is_empty() {
        return Ok(());
    }
    let symbols = symbols_of(alloc, shortened(words, from))?;
    let shown = all_shown(alloc, &symbols)?;
    let text = write_text(alloc, &shown)?;
    out.push(b' ')?;
    put_left_out(out, 0 < from)?;
    out.extend_from_slice(&text)?;
    put_left_out(out, from.saturating_add(24) < words.len())?;
    Ok(())
}

/// Writes a line at the end: a sign, and what is shown of the words.
fn put_line<A: Allocator + Copy>(
    alloc: A,
    out: &mut Vec<u8, A>,
    sign: &str,
    from: usize,
    words: &[Shown],
) -> Result<(), NoMemory>
    ensures { OnOk result (out.new.items ≡ out.old.items ++ words_line sign.now from words.now) }
{
    out.extend_from_slice(sign.as_bytes())?;
    put_words(alloc, out, from, words)?;
    out.push(b'\n')?;
    Ok(())
}

/// Writes how four lists read at the end.
fn put_lines<A: Allocator + Copy>(
    alloc: A,
    out: &mut Vec<u8, A>,
    words: &Words,
) -> Result<(), NoMemory>
    ensures { OnOk result (out.new.items ≡ out.old.items ++ words_lines (begins_at words.now.base.now words.now.one.now
        words.now.other.now words.now.both.now) words.now.base.now words.now.one.now
        words.now.other.now words.now.both.now) }
{
    let from = begins_at(words);
    put_line(alloc, out, "  now  ", from, words.both)?;
    put_line(alloc, out, "  here ", from, words.one)?;
    put_line(alloc, out, "  there", from, words.other)?;
    put_line(alloc, out, "  was  ", from, words.base)
}

/// The line of a place.
fn head<A: Allocator + Copy>(alloc: A, place: usize) -> Result<String<A>, AllocError>
    ensures { IfOk result (λ s. string_bytes s ≡ codes "open at " ++ decimal place ++ 10 ∷ []) }
{
    format!(in alloc; "open at {place}\n")
}

/// The words of a reading in the four lists.
fn words_of<'a, A: Allocator + Copy>(copies: &'a Copies<A>, reading: Reading) -> Words<'a>
    requires { LiesIn copies.now.base.items copies.now.one.items copies.now.other.items copies.now.both.items
        reading.to }
    ensures base { result.base.now ≡ part copies.now.base.items reading.from.base reading.to.base }
    ensures one { result.one.now ≡ part copies.now.one.items reading.from.one reading.to.one }
    ensures other { result.other.now ≡ part copies.now.other.items reading.from.other reading.to.other }
    ensures both { result.both.now ≡ part copies.now.both.items reading.from.both reading.to.both }
{
    let Reading { from, to } = reading;
    Words {
        base: part(&copies.base, from.base, to.base),
        one: part(&copies.one, from.one, to.one),
        other: part(&copies.other, from.other, to.other),
        both: part(&copies.both, from.both, to.both),
    }
}

/// Writes the lines of a reading at the end.
fn put_reading<A: Allocator + Copy>(
    alloc: A,
    out: &mut Vec<u8, A>,
    copies: &Copies<A>,
    reading: Reading,
) -> Result<(), NoMemory>
    requires { LiesIn copies.now.base.items copies.now.one.items copies.now.other.items copies.now.both.items
        reading.to }
    ensures { OnOk result (out.new.items ≡ out.old.items ++ reading_lines copies.now.base.items copies.now.one.items
        copies.now.other.items copies.now.both.items reading) }
{
    let head = head(alloc, reading.from.both)?;
    out.extend_from_slice(head.as_bytes())?;
    let words = words_of(copies, reading);
    put_lines(alloc, out, &words)
}

/// The lines of some readings.
fn lines_of<A: Allocator + Copy>(
    alloc: A,
    copies: &Copies<A>,
    readings: &[Reading],
) -> Result<Vec<u8, A>, NoMemory>
    requires { All (λ r. LiesIn copies.now.base.items copies.now.one.items copies.now.other.items copies.now.both.items
        r.to) readings.now }
    ensures { IfOk result (λ v. v.items ≡ readings_lines copies.now.base.items copies.now.one.items
        copies.now.other.items copies.now.both.items readings.now) }
{
    let mut out = Vec::new(alloc);
    for reading in readings {
        put_reading(alloc, &mut out, copies, *reading)?;
    }
    Ok(out)
}

/// The lines of the open readings of four lists, and how many they are.
pub fn lines_in<A: Allocator + Copy>(
    alloc: A,
    copies: &Copies<A>,
) -> Result<(Vec<u8, A>, usize), NoMemory>
    ensures lines { IfOk result (λ t. t.0.items ≡ readings_lines copies.now.base.items copies.now.one.items
        copies.now.other.items copies.now.both.items (open_readings copies.now.base.items copies.now.one.items
        copies.now.other.items copies.now.both.items)) }
    ensures count { IfOk result (λ t. t.1 ≡ length (open_readings copies.now.base.items copies.now.one.items
        copies.now.other.items copies.now.both.items)) }
{
    let readings = open_readings(
        alloc,
        &copies.base,
        &copies.one,
        &copies.other,
        &copies.both,
    )?;
    let lines = lines_of(alloc, copies, &readings)?;
    Ok((lines, readings.len()))
}
