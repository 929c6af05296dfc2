//! How the COPY of a command is read: quoted runs of symbols, each after the letter of its style.

ghost use Rattle.std.specs.Prelude.{◌≡◌};
ghost use Rattle.std.specs.Str.{chars};
ghost use Rattle.script_answers.specs.Reading.{Gives};
ghost use Rattle.script_answers.specs.Copy.{style_of, escaped, step, copy_from};
ghost use Rattle.script_answers.specs.Memory.{ComesToSymbol};

use crate::command::ParseError;
use desk_ops::{Style, Symbol};
use std::alloc::Allocator;

/// Where a reader of COPY stands.
#[derive(Clone, Copy, Debug, PartialEq, Eq)]
pub enum Place {
    /// Before a run's style.
    Run,
    /// Before the first quote.
    Quote(Style),
    /// Before the first character, which has to come.
    Opened(Style),
    Inside(Style),
    /// Behind a backslash.
    Escape(Style),
    /// Behind the second quote.
    Closed,
}

fn style_of(c: char) -> Option<Style>
    ensures { result ≡ style_of c }
{
    match c {
        'r' => Some(Style::Roman),
        'i' => Some(Style::Italic),
        's' => Some(Style::SmallCap),
        _ => None,
    }
}

fn escaped(c: char) -> Option<char>
    ensures { result ≡ escaped c }
{
    match c {
        'n' => Some('\n'),
        '\\' => Some('\\'),
        '"' => Some('"'),
        _ => None,
    }
}

#[tactic(auto, unfolding(crate::specs::Copy::step))]
fn step(place: Place, c: char) -> Option<(Place, Option<Symbol>)>
    ensures { result ≡ step place c }
{
    match (place, c) {
        (Place::Run, c) => Some((Place::Quote(style_of(c)?), None)),
        (Place::Quote(style), '"') => Some((Place::Opened(style), None)),
        (Place::Inside(_), '"') => Some((Place::Closed, None)),
        (Place::Closed, ' ') => Some((Place::Run, None)),
        (Place::Opened(_), '"') | (Place::Quote(_) | Place::Closed, _) => None,
        (Place::Opened(style) | Place::Inside(style), '\\') => Some((Place::Escape(style), None)),
        (Place::Opened(style) | Place::Inside(style), ch) => {
            Some((Place::Inside(style), Some(Symbol { style, ch })))
        }
        (Place::Escape(style), c) => {
            let ch = escaped(c)?;
            Some((Place::Inside(style), Some(Symbol { style, ch })))
        }
    }
}

/// The symbols of a COPY.
pub fn copy_of<A: Allocator + Copy>(alloc: A, text: &str) -> Result<Vec<Symbol, A>, ParseError>
    ensures value { Gives (λ v. v.items) result (copy_from Place.Run (chars text.now)) }
    ensures memory { result ≡ Err ParseError.NoMemory → ComesToSymbol text.now }
{
    let mut symbols = Vec::new(alloc);
    let mut place = Place::Run;
    for c in text.chars() {
        let Some((next, symbol)) = step(place, c) else {
            return Err(ParseError::Form);
        };
        if let Some(symbol) = symbol {
            symbols.push(symbol)?;
        }
        place = next;
    }
    match place {
        Place::Closed => Ok(symbols),
        _ => Err(ParseError::Form),
    }
}
