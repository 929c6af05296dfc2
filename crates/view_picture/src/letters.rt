//! The characters of a word, with their styles.

ghost use Rattle.std.specs.Prelude.{◌≡◌, ◌++◌, OnOk, string_bytes};
ghost use Rattle.view_picture.specs.Letters.{changed, closed, dress_of, dress_of_held, dress_of_style, is_rule, opened};
ghost use Rattle.view_picture.specs.Letters.{word_letters};

use desk_case::MatrixCase;
use desk_ops::{Style, Symbol};
use std::alloc::{AllocError, Allocator};
use view_galley::put_escaped;

/// How a symbol is shown: by its style, as a rule, or as one that the case lacks.
#[derive(Clone, Copy, PartialEq, Eq, Debug)]
pub enum Dress {
    Roman,
    Italic,
    SmallCap,
    /// A dash, whose letter in the reader's font may be wider than its matrix.
    Rule,
    Missing,
}

/// Whether a character is a dash that is cast as a rule: an en rule, an em rule, or a bar.
fn is_rule(ch: char) -> bool
    ensures { result ≡ is_rule ch }
{
    matches!(ch, '\u{2013}' | '\u{2014}' | '\u{2015}')
}

fn dress_of_style(style: Style) -> Dress
    ensures { result ≡ dress_of_style style }
{
    match style {
        Style::Roman => Dress::Roman,
        Style::Italic => Dress::Italic,
        Style::SmallCap => Dress::SmallCap,
    }
}

/// How a symbol that the case has is shown.
fn dress_of_held(symbol: Symbol) -> Dress
    ensures { result ≡ dress_of_held symbol }
{
    if is_rule(symbol.ch) {
        Dress::Rule
    } else {
        dress_of_style(symbol.style)
    }
}

/// How a symbol is shown.
pub fn dress_of(case: &MatrixCase, symbol: Symbol) -> Dress
    ensures { result ≡ dress_of case.now symbol }
{
    if case.cell_of(symbol).is_some() {
        dress_of_held(symbol)
    } else {
        Dress::Missing
    }
}

/// What stands before symbols of a dress.
fn opened(dress: Dress) -> &'static str
    ensures { result.now ≡ opened dress }
{
    match dress {
        Dress::Roman => "",
        Dress::Italic => "<tspan class=\"i\">",
        Dress::SmallCap => "<tspan class=\"s\">",
        Dress::Rule => "<tspan class=\"e\">",
        Dress::Missing => "<tspan class=\"m\">",
    }
}

/// What stands behind symbols of a dress.
fn closed(dress: Dress) -> &'static str
    ensures { result.now ≡ closed dress }
{
    match dress {
        Dress::Roman => "",
        Dress::Italic | Dress::SmallCap | Dress::Rule | Dress::Missing => "</tspan>",
    }
}

/// Writes what stands between symbols of one dress and of another.
fn put_change<A: Allocator + Copy>(
    out: &mut String<A>,
    worn: Dress,
    next: Dress,
) -> Result<(), AllocError>
    ensures { OnOk result (string_bytes out.new ≡ string_bytes out.old ++ changed worn next) }
{
    if worn == next {
        return Ok(());
    }
    out.push_str(closed(worn))?;
    out.push_str(opened(next))
}

/// Writes the characters of a word.
pub fn put_word_letters<A: Allocator + Copy>(
    out: &mut String<A>,
    case: &MatrixCase,
    word: &[Symbol],
) -> Result<(), AllocError>
    ensures { OnOk result (string_bytes out.new ≡ string_bytes out.old ++ word_letters case.now word.now) }
{
    let mut worn = Dress::Roman;
    for symbol in word {
        let next = dress_of(case, *symbol);
        put_change(out, worn, next)?;
        put_escaped(out, symbol.ch)?;
        worn = next;
    }
    out.push_str(closed(worn))
}
