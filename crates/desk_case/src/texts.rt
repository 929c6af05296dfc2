//! The texts of cells.
ghost use Rattle.std.specs.Prelude.{◌≡◌, [], ◌∷◌, MatchOption};
ghost use Rattle.std.specs.Str.{chars};
ghost use Rattle.desk_case.specs.Texts.{printed, style_marked, symbol_of_text, matrix_of_text};

use desk_ops::{Style, Symbol};

/// The first character of a text and what follows it.
fn split(text: &str) -> Option<(char, &str)>
    ensures { MatchOption result (chars text.now ≡ []) (λ p. chars text.now ≡ p.0 ∷ chars p.1.now) }
{
    let mut rest = text.chars();
    match rest.next() {
        Some(first) => Some((first, rest.as_str())),
        None => None,
    }
}

/// The symbol, where it is lawful and neither a space nor a line feed.
fn printed(style: Style, ch: char) -> Option<Symbol>
    ensures { result ≡ printed style ch }
{
    let symbol = Symbol { style, ch };
    if symbol.check().is_err() || symbol.is_space() || symbol.is_line_feed() {
        return None;
    }
    Some(symbol)
}

/// The style that a letter before a colon stands for.
fn style_marked(mark: char) -> Option<Style>
    ensures { result ≡ style_marked mark }
{
    match mark {
        'i' => Some(Style::Italic),
        's' => Some(Style::SmallCap),
        _ => None,
    }
}

/// What a cell's text stands for: a blank or a symbol.
pub fn matrix(text: &str) -> Option<Option<Symbol>>
    ensures { result ≡ matrix_of_text (chars text.now) }
{
    let Some((first, rest)) = split(text) else {
        return Some(None);
    };
    let Some((second, rest)) = split(rest) else {
        return Some(Some(printed(Style::Roman, first)?));
    };
    let (third, rest) = split(rest)?;
    if split(rest).is_some() {
        return None;
    }
    if second != ':' {
        return None;
    }
    Some(Some(printed(style_marked(first)?, third)?))
}
