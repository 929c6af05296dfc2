//! The file of a room, read, and what is said of it.

ghost use Rattle.std.specs.Prelude.{◌≡◌, ◌≤◌, ◌<◌, ◌++◌, IfOk, OnOk, Some, false, length, map, option_map};
ghost use Rattle.std.specs.Prelude.{string_bytes, true};
ghost use Rattle.toml.specs.View.{table_view};
ghost use Rattle.desk_wedge.specs.Keys.{document};
ghost use Rattle.feed_check.specs.RoomFlaws.{flaw_of, flaw_words};
ghost use Rattle.feed_check.specs.RoomOptions.{given};
ghost use Rattle.feed_check.specs.Room.{IsFirstWrong, IsRoom, SaysRoom, SaysRoomFile, is_room_name, max_room};
ghost use Rattle.feed_check.specs.Room.{no_toml_words, option_words, options_words, wrong_at, wrong_in_all};
ghost use Rattle.feed_check.specs.Strange.{line_at};

use crate::reported::Reported;
use crate::room_flaws::{flaw_of, flaw_words};
use crate::room_options::{RoomOption, options_of};
use crate::strange::line_at;
use desk_memory::NoMemory;
use desk_wedge::{TableFault, table};
use std::alloc::{AllocError, Allocator, Global};
use toml::Table;

/// The name of a room's file, in the current folder.
pub const ROOM_FILE: &str = "copydesk.toml";

/// The most bytes of a room's file.
pub const MAX_ROOM: usize = 8_192;

/// What a room's file gives; or what is wrong with it, in words.
#[derive(Drop)]
pub enum RoomFile {
    Taken(Vec<RoomOption>),
    Refused(String),
}

/// Whether a file of this name is a room's.
pub fn is_room_file(name: &str) -> bool
    ensures { result ≡ is_room_name name.now }
{
    name == "copydesk.toml" || name.as_bytes().ends_with(b"/copydesk.toml")
}

/// What is wrong with a document whose last line is this.
fn wrong_with(alloc: Global, line: usize, table: &Table) -> Result<Option<String>, NoMemory>
    ensures { IfOk result (λ o. option_map string_bytes o
        ≡ option_map (flaw_words line) (flaw_of (table_view table.now))) }
{
    match flaw_of(table) {
        Some(flaw) => Ok(Some(flaw_words(alloc, line, flaw)?)),
        None => Ok(None),
    }
}

/// What is wrong with the document that the lines are up to the one that ends at a place, if they are one.
fn wrong_at(alloc: Global, bytes: &[u8], place: usize) -> Result<Option<String>, NoMemory>
    requires { place < length bytes.now }
    ensures { IfOk result (λ o. option_map string_bytes o ≡ wrong_at bytes.now place) }
{
    if bytes[place] != b'\n' {
        return Ok(None);
    }
    match table(alloc, &bytes[..place + 1]) {
        Ok(table) => wrong_with(alloc, line_at(bytes, place), &table),
        Err(TableFault::NotToml) => Ok(None),
        Err(TableFault::NoMemory) => Err(NoMemory),
    }
}

/// What is wrong up to the first line up to which something is; `whole` is wrong with all of them.
fn first_wrong(alloc: Global, bytes: &[u8], whole: String) -> Result<String, NoMemory>
    requires { wrong_in_all bytes.now ≡ Some (string_bytes whole) }
    ensures { IfOk result (λ s. IsFirstWrong bytes.now (string_bytes s)) }
{
    for place in 0..bytes.len() {
        if let Some(words) = wrong_at(alloc, bytes, place)? {
            return Ok(words);
        }
    }
    Ok(whole)
}

/// That bytes are no document, with the line of a place.
fn no_toml(alloc: Global, line: usize) -> Result<String, NoMemory>
    ensures { IfOk result (λ s. string_bytes s ≡ no_toml_words line) }
{
    Ok(format!(in alloc; "line {line}: it is not TOML")?)
}

/// What a room's file of a table gives, or what is wrong with it.
fn room_in(alloc: Global, bytes: &[u8], table: &Table) -> Result<RoomFile, NoMemory>
    requires small { length bytes.now ≤ max_room }
    requires table { document bytes.now ≡ Some (table_view table.now) }
    ensures { IfOk result (IsRoom bytes.now) }
{
    match wrong_with(alloc, line_at(bytes, bytes.len()), table)? {
        Some(whole) => Ok(RoomFile::Refused(first_wrong(alloc, bytes, whole)?)),
        None => Ok(RoomFile::Taken(options_of(alloc, table)?)),
    }
}

/// What a room's file gives; or what is wrong with it, in words: too many bytes, no TOML, or the first line with a
/// key that is none of it, or that holds what it may not.
pub fn room_of(alloc: Global, bytes: &[u8]) -> Result<RoomFile, NoMemory>
    ensures { IfOk result (IsRoom bytes.now) }
{
    if bytes.len() > MAX_ROOM {
        let words = String::from_str(alloc, "it has more than 8192 bytes")?;
        return Ok(RoomFile::Refused(words));
    }
    match toml::table_from_slice(alloc, bytes) {
        Ok(table) => room_in(alloc, bytes, &table),
        Err(error) => match error.span() {
            Some(span) => {
                let line = line_at(bytes, span.start);
                Ok(RoomFile::Refused(no_toml(alloc, line)?))
            }
            None => Err(NoMemory),
        },
    }
}

/// Writes an option and its value.
fn put_option<A: Allocator + Copy>(
    out: &mut String<A>,
    option: &RoomOption,
) -> Result<(), AllocError>
    ensures { OnOk result (string_bytes out.new ≡ string_bytes out.old ++ option_words (given option.now)) }
{
    out.push_str(", ")?;
    out.push_str(option.key.name())?;
    out.push_str(" ")?;
    out.push_str(&option.value)
}

/// Writes options and their values.
fn put_options<A: Allocator + Copy>(
    out: &mut String<A>,
    options: &[RoomOption],
) -> Result<(), AllocError>
    ensures { OnOk result (string_bytes out.new ≡ string_bytes out.old ++ options_words (map given options.now)) }
{
    for option in options {
        put_option(out, option)?;
    }
    Ok(())
}

/// What is said of what a room's file gives, or of what is wrong with it.
fn said_of_room<A: Allocator + Copy>(alloc: A, room: &RoomFile) -> Result<Reported<A>, NoMemory>
    ensures { IfOk result (λ t. SaysRoom room.now (string_bytes t.text) t.well) }
{
    let mut text = String::new(alloc);
    match room {
        RoomFile::Taken(options) => {
            text.push_str("ok: room file")?;
            put_options(&mut text, options)?;
            Ok(Reported { text, well: true })
        }
        RoomFile::Refused(words) => {
            text.push_str("room file refused: ")?;
            text.push_str(words)?;
            Ok(Reported { text, well: false })
        }
    }
}

/// What is said of the bytes of a room's file.
pub fn room_reported<A: Allocator + Copy>(
    alloc: A,
    global: Global,
    bytes: &[u8],
) -> Result<Reported<A>, NoMemory>
    ensures { IfOk result (λ t. SaysRoomFile bytes.now (string_bytes t.text) t.well) }
{
    let room = room_of(global, bytes)?;
    let reported = said_of_room(alloc, &room)?;
    Ok(reported)
}
