//! How a copy is written as text: each style between its marks, a mark held over spaces where the style goes on.

ghost use Rattle.std.specs.Prelude.{◌≡◌, ◌++◌, IfOk, OnOk, string_bytes};
ghost use Rattle.std.specs.Str.{encode_utf8_all};
ghost use Rattle.text_copy.specs.Marks.{mark};
ghost use Rattle.text_copy.specs.Writing.{spaces, quoted, turn, text_bytes};

use crate::marks::{is_mark, is_same};
use desk_memory::NoMemory;
use desk_ops::{Style, Symbol};
use std::alloc::{AllocError, Allocator};

fn put_mark<A: Allocator + Copy>(out: &mut String<A>, style: Style) -> Result<(), AllocError>
    ensures { OnOk result (string_bytes out.new ≡ string_bytes out.old ++ encode_utf8_all (mark style)) }
{
    match style {
        Style::Roman => Ok(()),
        Style::Italic => out.push('_'),
        Style::SmallCap => out.push('^'),
    }
}

fn put_spaces<A: Allocator + Copy>(out: &mut String<A>, count: u64) -> Result<(), AllocError>
    ensures { OnOk result (string_bytes out.new ≡ string_bytes out.old ++ encode_utf8_all (spaces count)) }
{
    for _ in 0..count {
        out.push(' ')?;
    }
    Ok(())
}

/// Writes the end of a run, if the style is another, so many spaces, and the beginning of the next run. Where memory is
/// refused a part of that may be written.
pub fn put_turn<A: Allocator + Copy>(
    out: &mut String<A>,
    run: Style,
    count: u64,
    style: Style,
) -> Result<(), AllocError>
    ensures { OnOk result (string_bytes out.new ≡ string_bytes out.old ++ encode_utf8_all (turn run count style)) }
{
    if is_same(run, style) {
        return put_spaces(out, count);
    }
    put_mark(out, run)?;
    put_spaces(out, count)?;
    put_mark(out, style)
}

/// Writes a character, behind a backslash where it would be a mark. Where memory is refused the backslash may be
/// written.
pub fn put_quoted<A: Allocator + Copy>(out: &mut String<A>, c: char) -> Result<(), AllocError>
    ensures { OnOk result (string_bytes out.new ≡ string_bytes out.old ++ encode_utf8_all (quoted c)) }
{
    if is_mark(c) {
        out.push('\\')?;
    }
    out.push(c)
}

/// A copy as text. It is read again as the same copy by `read_text`, where its symbols are lawful.
pub fn write_text<A: Allocator + Copy>(alloc: A, copy: &[Symbol]) -> Result<Vec<u8, A>, NoMemory>
    ensures { IfOk result (λ v. v.items ≡ text_bytes copy.now) }
{
    let mut out = String::with_capacity(alloc, copy.len())?;
    let mut run = Style::Roman;
    let mut count: u64 = 0;
    for symbol in copy {
        if symbol.ch == ' ' {
            count += 1;
            continue;
        }
        put_turn(&mut out, run, count, symbol.style)?;
        put_quoted(&mut out, symbol.ch)?;
        run = symbol.style;
        count = 0;
    }
    put_turn(&mut out, run, count, Style::Roman)?;
    Ok(out.into_bytes())
}
