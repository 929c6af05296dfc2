//! Parts of a proof's text: columns, characters of the copy, widths in points.

ghost use Rattle.std.specs.Prelude.{◌≡◌, [], ◌∷◌, ◌++◌, ◌≤◌, ◌^◌, OnOk, string_bytes};
ghost use Rattle.std.specs.Fmt.{decimal};
ghost use Rattle.view_proof.specs.Parts.{begin_of, dots_text, end_of, fills_text, has_fills, left, many, points_down};
ghost use Rattle.view_proof.specs.Parts.{points_up, right, symbols_text, tenths_text};

use desk_lines::Word;
use desk_ops::Symbol;
use desk_units::{Pica, point_atoms};
use itoa::Buffer;
use std::alloc::{AllocError, Allocator};
use text_copy::{is_directional, put_directional_name};

/// Writes a character so many times.
pub fn put_many<A: Allocator + Copy>(
    out: &mut String<A>,
    ch: char,
    count: usize,
) -> Result<(), AllocError>
    ensures { OnOk result (string_bytes out.new ≡ string_bytes out.old ++ many count ch) }
{
    for _ in 0..count {
        out.push(ch)?;
    }
    Ok(())
}

/// Writes a text at the right of a column.
pub fn put_right<A: Allocator + Copy>(
    out: &mut String<A>,
    width: usize,
    text: &str,
) -> Result<(), AllocError>
    ensures { OnOk result (string_bytes out.new ≡ string_bytes out.old ++ right width text.now) }
{
    put_many(out, ' ', width.saturating_sub(text.len()))?;
    out.push_str(text)
}

/// Writes a text at the left of a column.
pub fn put_left<A: Allocator + Copy>(
    out: &mut String<A>,
    width: usize,
    text: &str,
) -> Result<(), AllocError>
    ensures { OnOk result (string_bytes out.new ≡ string_bytes out.old ++ left width text.now) }
{
    out.push_str(text)?;
    put_many(out, ' ', width.saturating_sub(text.len()))
}

/// Writes a number at the right of a column.
pub fn put_number<A: Allocator + Copy>(
    out: &mut String<A>,
    width: usize,
    n: u64,
) -> Result<(), AllocError>
    ensures { OnOk result (string_bytes out.new ≡ string_bytes out.old ++ right width (decimal n)) }
{
    let mut digits = Buffer::new();
    put_right(out, width, digits.format(n))
}

/// Writes a symbol by its character: a line feed as a space, a directional mark by its name.
#[tactic(auto, unfolding(text_copy::specs::Plain::shown))]
fn put_shown<A: Allocator + Copy>(out: &mut String<A>, symbol: Symbol) -> Result<(), AllocError>
    ensures { OnOk result (string_bytes out.new ≡ string_bytes out.old ++ symbols_text (symbol ∷ [])) }
{
    if symbol.ch == '\n' {
        out.push(' ')
    } else if is_directional(symbol.ch) {
        put_directional_name(out, symbol.ch)
    } else {
        out.push(symbol.ch)
    }
}

/// Writes symbols by their characters, as they are shown.
pub fn put_symbols<A: Allocator + Copy>(
    out: &mut String<A>,
    symbols: &[Symbol],
) -> Result<(), AllocError>
    ensures { OnOk result (string_bytes out.new ≡ string_bytes out.old ++ symbols_text symbols.now) }
{
    for symbol in symbols {
        put_shown(out, *symbol)?;
    }
    Ok(())
}

/// Writes a middle dot for each fill.
fn put_dots<A: Allocator + Copy>(out: &mut String<A>, fills: &[u32]) -> Result<(), AllocError>
    ensures { OnOk result (string_bytes out.new ≡ string_bytes out.old ++ dots_text fills.now) }
{
    for count in fills {
        put_many(out, '·', *count as usize)?;
    }
    Ok(())
}

/// Whether a fill is used.
fn has_fills(fills: &[u32]) -> bool
    ensures { result ≡ has_fills fills.now }
{
    let mut has_any = false;
    for count in fills {
        has_any = has_any || *count > 0;
    }
    has_any
}

/// Writes a middle dot for each fill behind a space, if there are any.
pub fn put_fills<A: Allocator + Copy>(out: &mut String<A>, fills: &[u32]) -> Result<(), AllocError>
    ensures { OnOk result (string_bytes out.new ≡ string_bytes out.old ++ fills_text fills.now) }
{
    if !has_fills(fills) {
        return Ok(());
    }
    out.push_str(" ")?;
    put_dots(out, fills)
}

/// The place where words begin.
pub fn begin_of(words: &[Word]) -> usize
    ensures { result ≡ begin_of words.now }
{
    match words {
        [first, ..] => first.from,
        [] => 0,
    }
}

/// The place behind the last of words.
pub fn end_of(words: &[Word]) -> usize
    ensures { result ≡ end_of words.now }
{
    let mut end = 0;
    for word in words {
        end = word.to;
    }
    end
}

/// Writes tenths as a number with one decimal.
fn put_tenths<A: Allocator + Copy>(out: &mut String<A>, tenths: u128) -> Result<(), AllocError>
    ensures { OnOk result (string_bytes out.new ≡ string_bytes out.old ++ tenths_text tenths) }
{
    let whole = tenths / 10;
    let part = tenths % 10;
    write!(out, "{whole}.{part}")
}

/// Writes atoms in points, rounded down to a tenth.
pub fn put_points_down<A: Allocator + Copy>(
    out: &mut String<A>,
    pica: Pica,
    atoms: u64,
) -> Result<(), AllocError>
    ensures { OnOk result (string_bytes out.new ≡ string_bytes out.old ++ points_down pica atoms) }
{
    put_tenths(out, atoms as u128 * 10 / point_atoms(pica) as u128)
}

/// Writes atoms in points, rounded up to a tenth.
pub fn put_points_up<A: Allocator + Copy>(
    out: &mut String<A>,
    pica: Pica,
    atoms: u64,
) -> Result<(), AllocError>
    ensures { OnOk result (string_bytes out.new ≡ string_bytes out.old ++ points_up pica atoms) }
{
    let point = point_atoms(pica) as u128;
    put_tenths(out, (atoms as u128 * 10 + (point - 1)) / point)
}
