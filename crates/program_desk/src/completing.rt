//! The words of the command line, with what a room's file gives.

ghost use Rattle.std.specs.Prelude.{[], ◌≡◌, ◌∷◌, ◌++◌, IfOk, OnOk, map, string_bytes};
ghost use Rattle.program_desk.specs.Completed.{added, completed, is_given, is_help, is_settled, named, takes, typed};
ghost use Rattle.program_desk.specs.Completed.{wants, wants_room, word_of};
ghost use Rattle.feed_check.specs.RoomOptions.{given};

use feed_check::{RoomKey, RoomOption};
use std::alloc::{AllocError, Global};

/// Whether a subcommand takes an option from a room's file: it requires it, or tries settings. The number that
/// `renumber` requires is another one.
fn takes(name: &str, key: RoomKey) -> bool
    ensures { result ≡ takes name.now key }
{
    match key {
        RoomKey::Site => {
            name == "desk" || name == "import" || name == "replace" || name == "renew"
        }
        RoomKey::Case => { name == "proof" || name == "punch" || name == "read" || name == "sorts" }
        RoomKey::Wedge => name == "proof" || name == "punch" || name == "read",
        RoomKey::Set => name == "proof",
    }
}

/// The option as it is typed.
fn typed(key: RoomKey) -> &'static str
    ensures { result.now ≡ typed key }
{
    match key {
        RoomKey::Site => "--site",
        RoomKey::Case => "--case",
        RoomKey::Wedge => "--wedge",
        RoomKey::Set => "--set",
    }
}

/// The part of a word before its first `=`, or all of it.
fn named(word: &str) -> &str
    ensures { result.now ≡ named word.now }
{
    match word.split_once('=') {
        Some((name, _)) => name,
        None => word,
    }
}

/// Whether words give an option, before a word `--`.
fn is_given(option: &str, words: &[String]) -> bool
    ensures { result ≡ is_given option.now (map string_bytes words.now) }
{
    for word in words {
        if word.as_str() == "--" {
            return false;
        }
        if named(word.as_str()) == option {
            return true;
        }
    }
    false
}

/// Whether a word may give an option once alone, and it is given.
fn is_settled(key: RoomKey, words: &[String]) -> bool
    ensures { result ≡ is_settled key (map string_bytes words.now) }
{
    match key {
        RoomKey::Site | RoomKey::Case | RoomKey::Wedge => is_given(typed(key), words),
        RoomKey::Set => false,
    }
}

/// Whether a subcommand with these words wants an option.
fn wants(name: &str, words: &[String], key: RoomKey) -> bool
    ensures { result ≡ wants name.now (map string_bytes words.now) key }
{
    takes(name, key) && !is_settled(key, words)
}

/// Adds the word that an option is.
fn put_option(alloc: Global, all: &mut Vec<String>, option: &RoomOption) -> Result<(), AllocError>
    ensures { OnOk result (map string_bytes all.new.items
        ≡ map string_bytes all.old.items ++ word_of (given option.now) ∷ []) }
{
    let mut word = String::from_str(alloc, typed(option.key))?;
    word.push_str("=")?;
    word.push_str(&option.value)?;
    all.push(word)?;
    Ok(())
}

/// Adds those of the options that a subcommand with these words wants.
fn put_wanted(
    alloc: Global,
    all: &mut Vec<String>,
    name: &str,
    words: &[String],
    options: &[RoomOption],
) -> Result<(), AllocError>
    ensures { OnOk result (map string_bytes all.new.items
        ≡ map string_bytes all.old.items ++ added name.now (map string_bytes words.now) (map given options.now)) }
{
    for option in options {
        if wants(name, words, option.key) {
            put_option(alloc, all, option)?;
        }
    }
    Ok(())
}

/// Adds copies of words.
fn put_words(alloc: Global, all: &mut Vec<String>, words: &[String]) -> Result<(), AllocError>
    ensures { OnOk result (map string_bytes all.new.items
        ≡ map string_bytes all.old.items ++ map string_bytes words.now) }
{
    for word in words {
        all.push(String::from_str(alloc, word.as_str())?)?;
    }
    Ok(())
}

/// The words with options of a room's file: those that are wanted stand behind the subcommand, before all that is
/// typed.
pub fn completed(
    alloc: Global,
    options: &[RoomOption],
    words: &[String],
) -> Result<Vec<String>, AllocError>
    ensures { IfOk result (λ v. map string_bytes v.items
        ≡ completed (map given options.now) (map string_bytes words.now)) }
{
    let mut all = Vec::new(alloc);
    let [name, rest @ ..] = words else {
        return Ok(all);
    };
    all.push(String::from_str(alloc, name.as_str())?)?;
    put_wanted(alloc, &mut all, name.as_str(), rest, options)?;
    put_words(alloc, &mut all, rest)?;
    Ok(all)
}

/// Whether words ask for help.
fn is_help(words: &[String]) -> bool
    ensures { result ≡ is_help (map string_bytes words.now) }
{
    is_given("--help", words) || is_given("-h", words)
}

/// Whether words want something of a room's file. Those that ask for help want nothing.
pub fn wants_room(words: &[String]) -> bool
    ensures { result ≡ wants_room (map string_bytes words.now) }
{
    let [name, rest @ ..] = words else {
        return false;
    };
    let name = name.as_str();
    !is_help(rest)
        && (wants(name, rest, RoomKey::Site)
            || wants(name, rest, RoomKey::Case)
            || wants(name, rest, RoomKey::Wedge)
            || wants(name, rest, RoomKey::Set))
}
