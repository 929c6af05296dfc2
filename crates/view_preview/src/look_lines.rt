//! Second looks as lines: at their text, or where they are in a text.

ghost use Rattle.std.specs.Prelude.{◌≡◌, ◌++◌, OnOk, string_bytes};
ghost use Rattle.view_preview.specs.LookLines.{kind_text, look_line, look_lines, look_title, looks_text, warning_text};
ghost use Rattle.view_preview.specs.LookLines.{warnings_text, window};
ghost use Rattle.view_preview.specs.Looks.{looks_of};

use crate::located_faults::{Located, put_position};
use crate::looks::{Look, LookKind, looks_of};
use desk_memory::NoMemory;
use desk_ops::Symbol;
use std::alloc::{AllocError, Allocator};
use view_galley::Galley;
use view_proof::put_marked;

/// So many symbols are shown before a look, and behind it.
const AROUND: usize = 20;

/// What a look is for.
fn kind_word(kind: LookKind) -> &'static str
    ensures { result.now ≡ kind_text kind }
{
    match kind {
        LookKind::HyphenInside => "hyphen inside a line",
        LookKind::TwoSpaces => "two spaces",
        LookKind::SpaceBeforePoint => "space before a point",
        LookKind::SpaceBeforeComma => "space before a comma",
        LookKind::StraightQuote => "straight quote",
        LookKind::WordRepeated => "word repeated",
        LookKind::LinesEndAlike => "three lines end alike",
    }
}

/// The symbols of a look, with up to 20 before them and up to 20 behind them.
fn window(copy: &[Symbol], look: Look) -> &[Symbol]
    ensures { result.now ≡ window copy.now look }
{
    let until = look.place.saturating_add(look.len).saturating_add(AROUND);
    let prefix = &copy[..until.min(copy.len())];
    &prefix[look.place.saturating_sub(AROUND).min(prefix.len())..]
}

/// Writes the place of a look and what it is for.
fn put_title<A: Allocator + Copy>(out: &mut String<A>, look: Look) -> Result<(), AllocError>
    ensures { OnOk result (string_bytes out.new ≡ string_bytes out.old ++ look_title look) }
{
    write!(out, "look at {}: {}: \"", look.place, kind_word(look.kind))
}

/// Writes a look at its text.
fn put_look<A: Allocator + Copy>(
    out: &mut String<A>,
    copy: &[Symbol],
    look: Look,
) -> Result<(), AllocError>
    ensures { OnOk result (string_bytes out.new ≡ string_bytes out.old ++ look_line copy.now look) }
{
    put_title(out, look)?;
    put_marked(out, window(copy, look))?;
    out.push_str("\"\n")
}

/// Writes looks at their text.
fn put_look_lines<A: Allocator + Copy>(
    out: &mut String<A>,
    copy: &[Symbol],
    looks: &[Look],
) -> Result<(), AllocError>
    ensures { OnOk result (string_bytes out.new ≡ string_bytes out.old ++ look_lines copy.now looks.now) }
{
    for look in looks {
        put_look(out, copy, *look)?;
    }
    Ok(())
}

/// Writes looks at their text behind an empty line, if there are any.
fn put_all<A: Allocator + Copy>(
    out: &mut String<A>,
    copy: &[Symbol],
    looks: &[Look],
) -> Result<(), AllocError>
    ensures { OnOk result (string_bytes out.new ≡ string_bytes out.old ++ looks_text copy.now looks.now) }
{
    if looks.is_empty() {
        return Ok(());
    }
    out.push_str("\n")?;
    put_look_lines(out, copy, looks)
}

/// Writes the second looks at a copy and the lines of its galley, if there are any: an empty line, and for each look a
/// line `look at 17: two spaces: ".."` with its place, and its symbols with up to 20 on each side as they are shown.
pub fn put_looks<'a, A: Allocator + Copy>(
    out: &mut String<A>,
    copy: &[Symbol],
    galley: &Galley<'a, A>,
) -> Result<(), NoMemory>
    ensures { OnOk result
        (string_bytes out.new ≡ string_bytes out.old ++ looks_text copy.now (looks_of copy.now (galley.now).lines)) }
{
    let looks = looks_of(*out.allocator(), copy, galley.lines())?;
    put_all(out, copy, &looks)?;
    Ok(())
}

/// Writes a look where it is in a text.
fn put_warning<A: Allocator + Copy>(
    out: &mut String<A>,
    at: &Located,
    look: Look,
) -> Result<(), AllocError>
    ensures { OnOk result (string_bytes out.new ≡ string_bytes out.old ++ warning_text at.now look) }
{
    put_position(out, at, look.place)?;
    write!(out, "warning: {}\n", kind_word(look.kind))
}

/// Writes looks where they are in a text.
fn put_warnings<A: Allocator + Copy>(
    out: &mut String<A>,
    at: &Located,
    looks: &[Look],
) -> Result<(), AllocError>
    ensures { OnOk result (string_bytes out.new ≡ string_bytes out.old ++ warnings_text at.now looks.now) }
{
    for look in looks {
        put_warning(out, at, *look)?;
    }
    Ok(())
}

/// Writes the second looks at a copy and the lines of its galley, each as a line `NAME:1:18: warning: two spaces` where
/// its first symbol is in the text.
pub fn put_located_looks<'a, A: Allocator + Copy>(
    out: &mut String<A>,
    at: &Located,
    copy: &[Symbol],
    galley: &Galley<'a, A>,
) -> Result<(), NoMemory>
    ensures { OnOk result
        (string_bytes out.new ≡ string_bytes out.old ++ warnings_text at.now (looks_of copy.now (galley.now).lines)) }
{
    let looks = looks_of(*out.allocator(), copy, galley.lines())?;
    put_warnings(out, at, &looks)?;
    Ok(())
}
