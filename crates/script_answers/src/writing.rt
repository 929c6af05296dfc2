//! How a copy is written: its runs, each the longest of its style.

ghost use Rattle.std.specs.Prelude.{◌≡◌, ◌≢◌, ◌++◌, [], None, IsErr, OnOk, string_bytes};
ghost use Rattle.std.specs.Io.{StartsWith};
ghost use Rattle.std.specs.Str.{encode_utf8_all};
ghost use Rattle.script_answers.specs.Writing.{opening, quoted, turn, close, copy_text};

use desk_ops::{Style, Symbol};
use std::alloc::{AllocError, Allocator};

fn opening(style: Style) -> &'static str
    ensures { result.now ≡ opening style }
{
    match style {
        Style::Roman => "r\"",
        Style::Italic => "i\"",
        Style::SmallCap => "s\"",
    }
}

#[tactic(auto, using(crate::proofs::Prefixes::prefixes))]
fn put_turn<A: Allocator + Copy>(
    out: &mut String<A>,
    run: Option<Style>,
    style: Style,
) -> Result<(), AllocError>
    ensures text { OnOk result (string_bytes out.new ≡ string_bytes out.old ++ turn run style) }
    ensures prefix { StartsWith (string_bytes out.new) (string_bytes out.old) }
{
    if let Some(run) = run {
        if run == style {
            return Ok(());
        }
        out.push_str("\" ")?;
    }
    out.push_str(opening(style))
}

#[tactic(auto, using(crate::proofs::Prefixes::prefixes))]
fn put_quoted<A: Allocator + Copy>(out: &mut String<A>, c: char) -> Result<(), AllocError>
    ensures text { OnOk result (string_bytes out.new ≡ string_bytes out.old ++ encode_utf8_all (quoted c)) }
    ensures prefix { StartsWith (string_bytes out.new) (string_bytes out.old) }
{
    match c {
        '\n' => out.push_str("\\n"),
        '\\' => out.push_str("\\\\"),
        '"' => out.push_str("\\\""),
        c => out.push(c),
    }
}

#[tactic(auto, using(crate::proofs::Prefixes::prefixes))]
fn put_close<A: Allocator + Copy>(out: &mut String<A>, run: Option<Style>) -> Result<(), AllocError>
    ensures text { OnOk result (string_bytes out.new ≡ string_bytes out.old ++ close run) }
    ensures prefix { StartsWith (string_bytes out.new) (string_bytes out.old) }
    ensures memory { IsErr result → run ≢ None }
{
    match run {
        None => Ok(()),
        Some(_) => out.push_str("\""),
    }
}

/// Writes a COPY at the end: nothing for a copy of no symbols, which cannot run out of memory. Where memory is refused,
/// what stood before still stands there.
#[tactic(auto, using(crate::proofs::Prefixes::prefixes))]
pub fn put_copy<A: Allocator + Copy>(out: &mut String<A>, copy: &[Symbol]) -> Result<(), AllocError>
    ensures text { OnOk result (string_bytes out.new ≡ string_bytes out.old ++ copy_text copy.now) }
    ensures prefix { StartsWith (string_bytes out.new) (string_bytes out.old) }
    ensures memory { IsErr result → copy.now ≢ [] }
{
    let mut run = None;
    for symbol in copy {
        put_turn(out, run, symbol.style)?;
        put_quoted(out, symbol.ch)?;
        run = Some(symbol.style);
    }
    put_close(out, run)
}
