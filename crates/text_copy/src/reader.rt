//! How text is read as a copy, character by character.

ghost use Rattle.std.specs.Prelude.{◌≡◌, ◌<◌, ◌-◌, ◌^◌, IfOk};
ghost use Rattle.std.specs.Str.{chars};
ghost use Rattle.desk_ops.specs.declared.op.Style.TheVariants.{Roman};
ghost use Rattle.text_copy.specs.declared.reader.State.TheVariants.{Within};
ghost use Rattle.text_copy.specs.Laws.{AreLawful};
ghost use Rattle.text_copy.specs.Reading.{Gives, fault, line_end, taken, turned, marked, step, after, ends, start};
ghost use Rattle.text_copy.specs.Reading.{read_from, reading};

use crate::fault::{Cause, Place, TextFault};
use crate::marks::{is_mark, is_same};
use desk_ops::{Style, Symbol};
use std::alloc::Allocator;

/// Where a reader of text stands.
#[derive(Clone, Copy, Debug, PartialEq, Eq)]
pub enum State {
    /// In a style.
    Within(Style),
    /// Behind a backslash, which stands at the place.
    Escape(Style, Place),
    /// Behind a carriage return, which stands at the place.
    Return(Style, Place),
}

/// What stands at a place and is no text of a copy.
fn fault(here: Place, cause: Cause) -> TextFault
    ensures { result ≡ fault here cause }
{
    TextFault::At {
        line: here.line,
        column: here.column,
        cause,
    }
}

/// The end of a line, where no style may be open.
fn line_end(style: Style, here: Place) -> Result<(State, Option<Symbol>), TextFault>
    ensures { result ≡ line_end style here }
{
    match style {
        Style::Roman => Ok((State::Within(Style::Roman), Some(Symbol::LINE_FEED))),
        Style::Italic | Style::SmallCap => Err(fault(here, Cause::Unclosed)),
    }
}

/// A character that stands for itself.
fn taken(style: Style, here: Place, c: char) -> Result<(State, Option<Symbol>), TextFault>
    ensures { result ≡ taken style here c }
{
    let symbol = if c == ' ' {
        Symbol::SPACE
    } else {
        Symbol { style, ch: c }
    };
    if symbol.check().is_err() {
        return Err(fault(here, Cause::Symbol));
    }
    Ok((State::Within(style), Some(symbol)))
}

/// The mark of a style, which opens it or closes it.
fn turned(mark: Style, style: Style, here: Place) -> Result<(State, Option<Symbol>), TextFault>
    ensures { result ≡ turned mark style here }
{
    if is_same(style, mark) {
        Ok((State::Within(Style::Roman), None))
    } else if is_same(style, Style::Roman) {
        Ok((State::Within(mark), None))
    } else {
        Err(fault(here, Cause::Inside))
    }
}

/// A character that may be a mark.
#[tactic(auto, unfolding(crate::specs::Reading::marked))]
fn marked(style: Style, here: Place, c: char) -> Result<(State, Option<Symbol>), TextFault>
    ensures { result ≡ marked style here c }
{
    match c {
        '\\' => Ok((State::Escape(style, here), None)),
        '_' => turned(Style::Italic, style, here),
        '^' => turned(Style::SmallCap, style, here),
        c => taken(style, here, c),
    }
}

/// Where a character leads, and the symbol that it ends.
#[tactic(auto, unfolding(crate::specs::Reading::step))]
fn step(
    plain: bool,
    state: State,
    here: Place,
    c: char,
) -> Result<(State, Option<Symbol>), TextFault>
    ensures { result ≡ step plain state here c }
{
    match state {
        State::Within(style) => match c {
            '\n' => line_end(style, here),
            '\r' => Ok((State::Return(style, here), None)),
            c if plain => taken(style, here, c),
            c => marked(style, here, c),
        },
        State::Escape(style, back) => {
            if is_mark(c) {
                Ok((State::Within(style), Some(Symbol { style, ch: c })))
            } else {
                Err(fault(back, Cause::Escape))
            }
        }
        State::Return(style, back) => {
            if c == '\n' {
                line_end(style, back)
            } else {
                Err(fault(back, Cause::Symbol))
            }
        }
    }
}

/// The place behind a character.
fn after(here: Place, c: char) -> Place
    requires line { here.line < 2 ^ 64 - 1 }
    requires column { here.column < 2 ^ 64 - 1 }
    ensures { result ≡ after here c }
{
    if c == '\n' {
        Place {
            line: here.line + 1,
            column: 1,
        }
    } else {
        Place {
            line: here.line,
            column: here.column + 1,
        }
    }
}

/// What may stand at the end, where more bytes may follow that are no UTF-8.
fn end(whole: bool, state: State, here: Place) -> Result<(), TextFault>
    ensures { result ≡ ends whole state here }
{
    match state {
        State::Within(style) => {
            if !whole {
                Err(fault(here, Cause::Encoding))
            } else if is_same(style, Style::Roman) {
                Ok(())
            } else {
                Err(fault(here, Cause::Unclosed))
            }
        }
        State::Escape(_, back) => Err(fault(back, Cause::Escape)),
        State::Return(_, back) => Err(fault(back, Cause::Symbol)),
    }
}

/// The symbols of characters; where they are not the whole text, bytes that are no UTF-8 follow.
fn read_chars<A: Allocator + Copy>(
    alloc: A,
    text: &str,
    whole: bool,
    plain: bool,
) -> Result<Vec<Symbol, A>, TextFault>
    ensures { Gives (λ v. v.items) result (read_from plain whole (Within Roman) start (chars text.now)) }
{
    let mut symbols = Vec::with_capacity(alloc, text.len())?;
    let mut state = State::Within(Style::Roman);
    let mut here = Place { line: 1, column: 1 };
    for c in text.chars() {
        let (next, symbol) = step(plain, state, here, c)?;
        state = next;
        here = after(here, c);
        if let Some(symbol) = symbol {
            symbols.push(symbol)?;
        }
    }
    end(whole, state, here)?;
    Ok(symbols)
}

/// The symbols of bytes: of the longest prefix that is UTF-8, which is to be all of them.
fn read_bytes<A: Allocator + Copy>(
    alloc: A,
    bytes: &[u8],
    plain: bool,
) -> Result<Vec<Symbol, A>, TextFault>
    ensures { Gives (λ v. v.items) result (reading plain bytes.now) }
{
    match std::str::from_utf8(bytes) {
        Ok(text) => read_chars(alloc, text, true, plain),
        Err(error) => {
            let prefix = &bytes[..error.valid_up_to()];
            match std::str::from_utf8(prefix) {
                Ok(text) => read_chars(alloc, text, false, plain),
                Err(_) => unreachable!(),
            }
        }
    }
}

/// The copy that a text in UTF-8 is, or its first fault from the left. `_` opens and closes italics, `^` small
/// capitals; a backslash stands before each of `_`, `^` and a backslash where it is itself. A space inside a style is
/// Roman; the end of a line inside a style is a fault, and so is a mark inside the other style. A carriage return
/// before a line feed is dropped. A plain text has no marks and no backslashes: each of its characters is Roman.
pub fn read_text<A: Allocator + Copy>(
    alloc: A,
    bytes: &[u8],
    plain: bool,
) -> Result<Vec<Symbol, A>, TextFault>
    ensures text { Gives (λ v. v.items) result (reading plain bytes.now) }
    ensures lawful { IfOk result (λ v. AreLawful v.items) }
{
    read_bytes(alloc, bytes, plain)
}
