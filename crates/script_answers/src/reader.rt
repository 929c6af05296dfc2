//! How a line is read as a command, word by word from the left.

ghost use Rattle.std.specs.Prelude.{◌≡◌, ◌≢◌, ℕ, List, IsSomeAnd};
ghost use Rattle.std.specs.Option.{option_copied};
ghost use Rattle.script_answers.specs.Reading.{Gives, word_at, number_at, file_at, range_of, range_at, hex_at, at_end};
ghost use Rattle.script_answers.specs.Reading.{dotted};
ghost use Rattle.script_answers.specs.Copy.{copy_at};
ghost use Rattle.script_answers.specs.Memory.{AsksMemory, ComesToSymbol, FormAsksMemory, MayHoldByte, WordsAskMemory};
ghost use Rattle.script_answers.specs.Memory.{copy_behind, feed_behind};
ghost use Rattle.script_answers.specs.Command.{CommandValues, command_values};
ghost use Rattle.script_answers.specs.Command as commands;
ghost use Rattle.script_answers.specs.Grammar.{verb_of, key_of, one_site, insert_form, two_numbers, set_form};
ghost use Rattle.script_answers.specs.Grammar.{take_form, send_form, two_files, form_of, words_of, command_of};

use crate::command::{Command, ParseError};
use crate::copy::copy_of;
use crate::number::{bytes_of, number_of};
use desk_ops::{Key, Symbol};
use std::alloc::Allocator;

/// A command's first word.
#[derive(Clone, Copy, Debug, PartialEq, Eq)]
pub enum Verb {
    Site,
    Insert,
    Delete,
    Set,
    Take,
    Send,
    Merge,
    Show,
    Faults,
    Settings,
    Feed,
    Ribbon,
    Cast,
    Restart,
}

#[tactic(auto, unfolding(crate::specs::Reading::word_at))]
fn word_at(rest: Option<&str>) -> Result<(&str, Option<&str>), ParseError>
    ensures value { Gives (λ x. (x.0.now, option_copied x.1)) result (word_at (option_copied rest.entry)) }
    ensures memory { result ≢ Err ParseError.NoMemory }
{
    let Some(text) = rest else {
        return Err(ParseError::Form);
    };
    match text.split_once(' ') {
        None => Ok((text, None)),
        Some((word, rest)) => Ok((word, Some(rest))),
    }
}

#[tactic(auto, unfolding(crate::specs::Reading::number_at))]
fn number_at(rest: Option<&str>) -> Result<(u32, Option<&str>), ParseError>
    ensures value { Gives (λ x. (x.0, option_copied x.1)) result (number_at (option_copied rest.entry)) }
    ensures memory { result ≢ Err ParseError.NoMemory }
{
    let (word, rest) = word_at(rest)?;
    Ok((number_of(word.as_bytes())?, rest))
}

#[tactic(auto, unfolding(crate::specs::Reading::file_at))]
fn file_at(rest: Option<&str>) -> Result<(&str, Option<&str>), ParseError>
    ensures value { Gives (λ x. (x.0.now, option_copied x.1)) result (file_at (option_copied rest.entry)) }
    ensures memory { result ≢ Err ParseError.NoMemory }
{
    let (word, rest) = word_at(rest)?;
    if word.is_empty() || word.len() > 255 {
        return Err(ParseError::Form);
    }
    Ok((word, rest))
}

#[tactic(auto, unfolding(crate::specs::Grammar::verb_of))]
fn verb_of(word: &str) -> Option<Verb>
    ensures { result ≡ verb_of word.now }
{
    match word {
        "site" => Some(Verb::Site),
        "insert" => Some(Verb::Insert),
        "delete" => Some(Verb::Delete),
        "set" => Some(Verb::Set),
        "take" => Some(Verb::Take),
        "send" => Some(Verb::Send),
        "merge" => Some(Verb::Merge),
        "show" => Some(Verb::Show),
        "faults" => Some(Verb::Faults),
        "settings" => Some(Verb::Settings),
        "feed" => Some(Verb::Feed),
        "ribbon" => Some(Verb::Ribbon),
        "cast" => Some(Verb::Cast),
        "restart" => Some(Verb::Restart),
        _ => None,
    }
}

#[tactic(auto, unfolding(crate::specs::Grammar::key_of))]
fn key_of(word: &str) -> Option<Key>
    ensures { result ≡ key_of word.now }
{
    match word {
        "measure" => Some(Key::Measure),
        "tight" => Some(Key::Tight),
        "loose" => Some(Key::Loose),
        "case" => Some(Key::Case),
        "wedge" => Some(Key::Wedge),
        _ => None,
    }
}

/// The number behind a dot.
fn dotted(word: &[u8]) -> Result<u32, ParseError>
    ensures value { Gives (λ n. n) result (dotted word.now) }
    ensures memory { result ≢ Err ParseError.NoMemory }
{
    match word {
        [b'.', digits @ ..] => number_of(digits),
        _ => Err(ParseError::Form),
    }
}

#[tactic(auto, unfolding(crate::specs::Reading::range_of))]
fn range_of(word: &str) -> Result<(u32, u32), ParseError>
    ensures value { Gives (λ x. x) result (range_of word.now) }
    ensures memory { result ≢ Err ParseError.NoMemory }
{
    let Some((from, to)) = word.split_once('.') else {
        return Err(ParseError::Form);
    };
    let from = number_of(from.as_bytes())?;
    let to = dotted(to.as_bytes())?;
    Ok((from, to))
}

#[tactic(auto, unfolding(crate::specs::Reading::range_at))]
fn range_at(rest: Option<&str>) -> Result<Option<(u32, u32)>, ParseError>
    ensures value { Gives (λ x. x) result (range_at (option_copied rest.entry)) }
    ensures memory { result ≢ Err ParseError.NoMemory }
{
    match rest {
        None => Ok(None),
        Some(word) => Ok(Some(range_of(word)?)),
    }
}

#[tactic(auto, unfolding(crate::specs::Reading::hex_at))]
fn hex_at<A: Allocator + Copy>(alloc: A, rest: Option<&str>) -> Result<Vec<u8, A>, ParseError>
    ensures value { Gives (λ v. v.items) result (hex_at (option_copied rest.entry)) }
    ensures memory { result ≡ Err ParseError.NoMemory → IsSomeAnd (option_copied rest.entry) MayHoldByte }
{
    match rest {
        None | Some("") => Err(ParseError::Form),
        Some(word) => bytes_of(alloc, word.as_bytes()),
    }
}

#[tactic(auto, unfolding(crate::specs::Copy::copy_at))]
fn copy_at<A: Allocator + Copy>(alloc: A, rest: Option<&str>) -> Result<Vec<Symbol, A>, ParseError>
    ensures value { Gives (λ v. v.items) result (copy_at (option_copied rest.entry)) }
    ensures memory { result ≡ Err ParseError.NoMemory → IsSomeAnd (option_copied rest.entry) ComesToSymbol }
{
    match rest {
        None => Err(ParseError::Form),
        Some(text) => copy_of(alloc, text),
    }
}

/// Nothing may follow.
fn end(rest: Option<&str>) -> Result<(), ParseError>
    ensures value { Gives (λ x. x) result (at_end (option_copied rest.entry) tt) }
    ensures memory { result ≢ Err ParseError.NoMemory }
{
    match rest {
        None => Ok(()),
        Some(_) => Err(ParseError::Form),
    }
}

#[tactic(auto, unfolding(crate::specs::Grammar::one_site))]
fn one_site(rest: Option<&str>) -> Result<u32, ParseError>
    ensures value { (make : ℕ → CommandValues) → Gives (make) result (one_site make (option_copied rest.entry)) }
    ensures memory { result ≢ Err ParseError.NoMemory }
{
    let (site, rest) = number_at(rest)?;
    end(rest)?;
    Ok(site)
}

#[tactic(auto, unfolding(crate::specs::Grammar::two_numbers))]
fn two_numbers(rest: Option<&str>) -> Result<(u32, u32), ParseError>
    ensures value { (make : ℕ → ℕ → CommandValues)
        → Gives (λ x. make x.0 x.1) result (two_numbers make (option_copied rest.entry)) }
    ensures memory { result ≢ Err ParseError.NoMemory }
{
    let (first, rest) = number_at(rest)?;
    let (second, rest) = number_at(rest)?;
    end(rest)?;
    Ok((first, second))
}

#[tactic(auto, unfolding(crate::specs::Grammar::insert_form, crate::specs::Memory::copy_behind))]
fn insert<A: Allocator + Copy>(alloc: A, rest: Option<&str>) -> Result<Command<'_, A>, ParseError>
    ensures value { Gives command_values result (insert_form (option_copied rest.entry)) }
    ensures memory { result ≡ Err ParseError.NoMemory
        → IsSomeAnd (copy_behind (option_copied rest.entry)) ComesToSymbol }
{
    let (site, rest) = number_at(rest)?;
    let (place, rest) = number_at(rest)?;
    let copy = copy_at(alloc, rest)?;
    Ok(Command::Insert { site, place, copy })
}

#[tactic(auto, unfolding(crate::specs::Grammar::set_form))]
fn set<A: Allocator + Copy>(rest: Option<&str>) -> Result<Command<'_, A>, ParseError>
    ensures value { Gives command_values result (set_form (option_copied rest.entry)) }
    ensures memory { result ≢ Err ParseError.NoMemory }
{
    let (site, rest) = number_at(rest)?;
    let (word, rest) = word_at(rest)?;
    let Some(key) = key_of(word) else {
        return Err(ParseError::Form);
    };
    let (value, rest) = number_at(rest)?;
    end(rest)?;
    Ok(Command::Set { site, key, value })
}

#[tactic(auto, unfolding(crate::specs::Grammar::take_form, crate::specs::Memory::feed_behind))]
fn take<A: Allocator + Copy>(alloc: A, rest: Option<&str>) -> Result<Command<'_, A>, ParseError>
    ensures value { Gives command_values result (take_form (option_copied rest.entry)) }
    ensures memory { result ≡ Err ParseError.NoMemory → IsSomeAnd (feed_behind (option_copied rest.entry)) MayHoldByte }
{
    let (site, rest) = number_at(rest)?;
    let feed = hex_at(alloc, rest)?;
    Ok(Command::Take { site, feed })
}

#[tactic(auto, unfolding(crate::specs::Grammar::send_form))]
fn send<A: Allocator + Copy>(rest: Option<&str>) -> Result<Command<'_, A>, ParseError>
    ensures value { Gives command_values result (send_form (option_copied rest.entry)) }
    ensures memory { result ≢ Err ParseError.NoMemory }
{
    let (from, rest) = number_at(rest)?;
    let (to, rest) = number_at(rest)?;
    let range = range_at(rest)?;
    Ok(Command::Send { from, to, range })
}

#[tactic(auto, unfolding(crate::specs::Grammar::two_files))]
fn two_files(rest: Option<&str>) -> Result<(u32, &str, &str), ParseError>
    ensures value { (make : ℕ → List ℕ → List ℕ → CommandValues)
        → Gives (λ x. make x.0 x.1.now x.2.now) result (two_files make (option_copied rest.entry)) }
    ensures memory { result ≢ Err ParseError.NoMemory }
{
    let (site, rest) = number_at(rest)?;
    let (case, rest) = file_at(rest)?;
    let (wedge, rest) = file_at(rest)?;
    end(rest)?;
    Ok((site, case, wedge))
}

fn form_of<A: Allocator + Copy>(
    alloc: A,
    verb: Verb,
    rest: Option<&str>,
) -> Result<Command<'_, A>, ParseError>
    ensures value { Gives command_values result (form_of verb (option_copied rest.entry)) }
    ensures memory { result ≡ Err ParseError.NoMemory → FormAsksMemory verb (option_copied rest.entry) }
{
    match verb {
        Verb::Site => Ok(Command::Site(one_site(rest)?)),
        Verb::Insert => insert(alloc, rest),
        Verb::Delete => {
            let (site, place) = two_numbers(rest)?;
            Ok(Command::Delete { site, place })
        }
        Verb::Set => set(rest),
        Verb::Take => take(alloc, rest),
        Verb::Send => send(rest),
        Verb::Merge => {
            let (to, from) = two_numbers(rest)?;
            Ok(Command::Merge { to, from })
        }
        Verb::Show => Ok(Command::Show(one_site(rest)?)),
        Verb::Faults => Ok(Command::Faults(one_site(rest)?)),
        Verb::Settings => Ok(Command::Settings(one_site(rest)?)),
        Verb::Feed => Ok(Command::Feed(one_site(rest)?)),
        Verb::Ribbon => {
            let (site, case, wedge) = two_files(rest)?;
            Ok(Command::Ribbon { site, case, wedge })
        }
        Verb::Cast => {
            let (site, case, wedge) = two_files(rest)?;
            Ok(Command::Cast { site, case, wedge })
        }
        Verb::Restart => Ok(Command::Restart(one_site(rest)?)),
    }
}

#[tactic(auto, unfolding(crate::specs::Grammar::words_of, crate::specs::Memory::WordsAskMemory))]
fn words_of<A: Allocator + Copy>(alloc: A, line: &str) -> Result<Command<'_, A>, ParseError>
    ensures value { Gives command_values result (words_of line.now) }
    ensures memory { result ≡ Err ParseError.NoMemory → WordsAskMemory line.now }
{
    let (word, rest) = word_at(Some(line))?;
    let Some(verb) = verb_of(word) else {
        return Err(ParseError::Form);
    };
    form_of(alloc, verb, rest)
}

/// The command that a line is.
#[tactic(auto, unfolding(crate::specs::Grammar::command_of))]
pub fn parse<A: Allocator + Copy>(alloc: A, line: &[u8]) -> Result<Command<'_, A>, ParseError>
    ensures value { Gives command_values result (command_of line.now) }
    ensures memory { result ≡ Err ParseError.NoMemory → AsksMemory line.now }
{
    let Ok(line) = std::str::from_utf8(line) else {
        return Err(ParseError::Form);
    };
    words_of(alloc, line)
}
