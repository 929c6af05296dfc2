//! The options that a room's file gives.

ghost use Rattle.std.specs.Prelude.{◌≡◌, ◌++◌, IfOk, OnOk, map, option_map, string_bytes};
ghost use Rattle.std.specs.Fmt.{decimal};
ghost use Rattle.toml.specs.Data.{get_member};
ghost use Rattle.toml.specs.View.{table_view, view};
ghost use Rattle.feed_check.specs.RoomOptions.{file_of, file_options, given, key_name, option_for, options_of};
ghost use Rattle.feed_check.specs.RoomOptions.{options_of_sets, setting_options, setting_text, sets_in, site_of};
ghost use Rattle.feed_check.specs.RoomOptions.{site_options, value_of};

use desk_ops::Key;
use desk_wedge::{member, whole_number};
use std::alloc::{AllocError, Global};
use toml::{Table, Value};

/// An option of the command line that a room's file may give.
#[derive(Clone, Copy, Debug, PartialEq, Eq)]
pub enum RoomKey {
    Site,
    Case,
    Wedge,
    Set,
}

impl RoomKey {
    /// What the file and the command line call it.
    pub fn name(self) -> &'static str
        ensures { result.now ≡ key_name self }
    {
        match self {
            RoomKey::Site => "site",
            RoomKey::Case => "case",
            RoomKey::Wedge => "wedge",
            RoomKey::Set => "set",
        }
    }
}

/// An option that a room's file gives, and its value as it would be typed.
#[derive(Drop)]
pub struct RoomOption {
    pub key: RoomKey,
    pub value: String,
}

/// The number of a site.
pub fn site_of(value: &Value) -> Option<u16>
    ensures { result ≡ site_of (view value.now) }
{
    whole_number(value, 1, 65535)
}

/// The name of a file: a text that is not empty.
pub fn file_of<'a>(value: &'a Value) -> Option<&'a str>
    ensures { option_map (λ t. t.now) result ≡ file_of (view value.now) }
{
    match value.as_str() {
        Some(text) => { if text.is_empty() { None } else { Some(text) } }
        None => None,
    }
}

/// A number that a setting may have.
pub fn value_of(key: Key, value: &Value) -> Option<u16>
    ensures { result ≡ value_of key (view value.now) }
{
    match whole_number(value, 0, 65535) {
        Some(number) => {
            if key.takes(number as u32) {
                Some(number)
            } else {
                None
            }
        }
        None => None,
    }
}

/// Adds an option.
fn put(options: &mut Vec<RoomOption>, key: RoomKey, value: String) -> Result<(), AllocError>
    ensures { OnOk result (map given options.new.items
        ≡ map given options.old.items ++ option_for key (λ t. t) (Some (string_bytes value))) }
{
    options.push(RoomOption { key, value })?;
    Ok(())
}

/// The text of a site's number.
fn number_text(alloc: Global, number: u16) -> Result<String, AllocError>
    ensures { IfOk result (λ s. string_bytes s ≡ decimal number) }
{
    format!(in alloc; "{number}")
}

/// The text of a setting, as `measure=150`.
fn setting_text(alloc: Global, key: Key, number: u16) -> Result<String, AllocError>
    ensures { IfOk result (λ s. string_bytes s ≡ setting_text key number) }
{
    format!(in alloc; "{key}={number}")
}

fn put_site(alloc: Global, options: &mut Vec<RoomOption>, table: &Table) -> Result<(), AllocError>
    ensures { OnOk result (map given options.new.items
        ≡ map given options.old.items ++ site_options (table_view table.now)) }
{
    match member(table, "site") {
        Some(value) => match site_of(value) {
            Some(number) => put(options, RoomKey::Site, number_text(alloc, number)?),
            None => Ok(()),
        },
        None => Ok(()),
    }
}

fn put_file(
    alloc: Global,
    options: &mut Vec<RoomOption>,
    table: &Table,
    key: RoomKey,
) -> Result<(), AllocError>
    ensures { OnOk result (map given options.new.items
        ≡ map given options.old.items ++ file_options key (table_view table.now)) }
{
    match member(table, key.name()) {
        Some(value) => match file_of(value) {
            Some(text) => put(options, key, String::from_str(alloc, text)?),
            None => Ok(()),
        },
        None => Ok(()),
    }
}

fn put_setting(
    alloc: Global,
    options: &mut Vec<RoomOption>,
    sets: &Table,
    key: Key,
) -> Result<(), AllocError>
    ensures { OnOk result (map given options.new.items
        ≡ map given options.old.items ++ setting_options key (table_view sets.now)) }
{
    match member(sets, key.name()) {
        Some(value) => match value_of(key, value) {
            Some(number) => put(options, RoomKey::Set, setting_text(alloc, key, number)?),
            None => Ok(()),
        },
        None => Ok(()),
    }
}

/// The table of settings.
pub fn sets_in<'a>(table: &'a Table) -> Option<&'a Table>
    ensures { option_map (λ t. table_view t.now) result ≡ sets_in (table_view table.now) }
{
    match member(table, "set") {
        Some(value) => value.as_table(),
        None => None,
    }
}

fn put_settings(
    alloc: Global,
    options: &mut Vec<RoomOption>,
    table: &Table,
) -> Result<(), AllocError>
    ensures { OnOk result (map given options.new.items
        ≡ map given options.old.items ++ options_of_sets (sets_in (table_view table.now))) }
{
    let Some(sets) = sets_in(table) else {
        return Ok(());
    };
    put_setting(alloc, options, sets, Key::Measure)?;
    put_setting(alloc, options, sets, Key::Tight)?;
    put_setting(alloc, options, sets, Key::Loose)?;
    put_setting(alloc, options, sets, Key::Case)?;
    put_setting(alloc, options, sets, Key::Wedge)
}

/// The options of a document.
pub fn options_of(alloc: Global, table: &Table) -> Result<Vec<RoomOption>, AllocError>
    ensures { IfOk result (λ v. map given v.items ≡ options_of (table_view table.now)) }
{
    let mut options = Vec::new(alloc);
    put_site(alloc, &mut options, table)?;
    put_file(alloc, &mut options, table, RoomKey::Case)?;
    put_file(alloc, &mut options, table, RoomKey::Wedge)?;
    put_settings(alloc, &mut options, table)?;
    Ok(options)
}
