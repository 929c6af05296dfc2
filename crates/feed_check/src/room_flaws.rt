//! What is wrong with the document of a room's file.

ghost use Rattle.std.specs.Prelude.{◌≡◌, ◌++◌, IfOk, OnOk, option_map, string_bytes};
ghost use Rattle.toml.specs.View.{table_view, view};
ghost use Rattle.feed_check.specs.RoomFlaws.{first_flaw, flaw_at, flaw_in, flaw_of, flaw_words, key_named};
ghost use Rattle.feed_check.specs.RoomFlaws.{known_unless, place_words, setting_flaw, sets_flaw, unknown, why_words};
ghost use Rattle.feed_check.specs.RoomOptions.{};

use crate::room_options::{file_of, site_of, value_of};
use desk_ops::Key;
use std::alloc::{AllocError, Global};
use toml::{Table, Value};

/// What is wrong: whether it is inside the table of settings, the key, and whether a room's file has such a key.
#[derive(Clone, Copy)]
pub struct Flaw<'a> {
    pub inside: bool,
    pub key: &'a str,
    pub known: bool,
}

/// The setting of a name.
fn key_named(name: &str) -> Option<Key>
    ensures { result ≡ key_named name.now }
{
    match name {
        "measure" => Some(Key::Measure),
        "tight" => Some(Key::Tight),
        "loose" => Some(Key::Loose),
        "case" => Some(Key::Case),
        "wedge" => Some(Key::Wedge),
        _ => None,
    }
}

/// A key that a room's file has, unless what stands there is fine.
fn known_unless<'a>(fine: bool, inside: bool, key: &'a str) -> Option<Flaw<'a>>
    ensures { option_map flaw_at result ≡ known_unless fine inside key.now }
{
    if fine {
        return None;
    }
    Some(Flaw {
        inside,
        key,
        known: true,
    })
}

/// A key that a room's file has not.
fn unknown<'a>(inside: bool, key: &'a str) -> Option<Flaw<'a>>
    ensures { option_map flaw_at result ≡ unknown inside key.now }
{
    Some(Flaw {
        inside,
        key,
        known: false,
    })
}

/// What is wrong with what stands at a key of the settings.
fn setting_flaw<'a>(name: &'a str, value: &Value) -> Option<Flaw<'a>>
    ensures { option_map flaw_at result ≡ setting_flaw name.now (view value.now) }
{
    match key_named(name) {
        Some(key) => known_unless(value_of(key, value).is_some(), true, name),
        None => unknown(true, name),
    }
}

/// What is wrong with the first setting of which something is.
fn first_in_sets<'a>(sets: &'a Table) -> Option<Flaw<'a>>
    ensures { option_map flaw_at result ≡ first_flaw setting_flaw (table_view sets.now) }
{
    'members: for (name, value) in sets.iter() {
        if let Some(flaw) = setting_flaw(name.as_str(), value) {
            return Some(flaw);
        }
    }
    None
}

/// What is wrong with the table of settings.
fn sets_flaw<'a>(sets: Option<&'a Table>) -> Option<Flaw<'a>>
    ensures { option_map flaw_at result ≡ sets_flaw (option_map (λ t. table_view t.now) sets.entry) }
{
    match sets {
        Some(sets) => first_in_sets(sets),
        None => known_unless(false, false, "set"),
    }
}

/// What is wrong with what stands at a key of the file.
fn flaw_in<'a>(name: &'a str, value: &'a Value) -> Option<Flaw<'a>>
    ensures { option_map flaw_at result ≡ flaw_in name.now (view value.now) }
{
    match name {
        "site" => known_unless(site_of(value).is_some(), false, name),
        "case" => known_unless(file_of(value).is_some(), false, name),
        "wedge" => known_unless(file_of(value).is_some(), false, name),
        "set" => sets_flaw(value.as_table()),
        _ => unknown(false, name),
    }
}

/// What is wrong with a document.
pub fn flaw_of<'a>(table: &'a Table) -> Option<Flaw<'a>>
    ensures { option_map flaw_at result ≡ flaw_of (table_view table.now) }
{
    'members: for (name, value) in table.iter() {
        if let Some(flaw) = flaw_in(name.as_str(), value) {
            return Some(flaw);
        }
    }
    None
}

fn place_words(inside: bool) -> &'static str
    ensures { result.now ≡ place_words inside }
{
    if inside { "set." } else { "" }
}

fn why_words(known: bool) -> &'static str
    ensures { result.now ≡ why_words known }
{
    if known {
        "` is of another type or value"
    } else {
        "` is no key of it"
    }
}

/// A flaw in a line, in words.
pub fn flaw_words(alloc: Global, line: usize, flaw: Flaw<'_>) -> Result<String, AllocError>
    ensures { IfOk result (λ s. string_bytes s ≡ flaw_words line (flaw_at flaw.entry)) }
{
    let mut text = format!(in alloc; "line {line}: `")?;
    text.push_str(place_words(flaw.inside))?;
    text.push_str(flaw.key)?;
    text.push_str(why_words(flaw.known))?;
    Ok(text)
}
