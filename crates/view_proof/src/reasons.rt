//! Why there is no galley, with what it takes to mend it: all the settings that are missing, or both numbers.

ghost use Rattle.std.specs.Prelude.{◌≡◌, ◌++◌, IfOk, OnOk, string_bytes};
ghost use Rattle.desk_job.specs.Answer.{by_key};
ghost use Rattle.view_proof.specs.Reasons.{before_name, has_text, is_text, missing, missing_if, missing_text};
ghost use Rattle.view_proof.specs.Reasons.{more_names};
ghost use Rattle.view_proof.specs.Reasons.{number_text, numbers_text, one_text, other_number, other_of, other_text};
ghost use Rattle.view_proof.specs.Reasons.{reason_text, set_text, several_text, why_none};

use crate::faults::cause;
use desk_case::MatrixCase;
use desk_job::terms::Values;
use desk_job::{JobFault, given};
use desk_ops::Key;
use desk_replica::Settings;
use desk_wedge::Wedge;
use std::alloc::{AllocError, Allocator};

/// A number that is another: that of the setting, and that of the case or of the wedge.
#[derive(Clone, Copy, Debug, PartialEq, Eq)]
pub enum OtherNumber {
    Case { set: u32, number: u16 },
    Wedge { set: u32, number: u16 },
}

/// Why there is no galley.
#[derive(Clone, Copy, Debug, PartialEq, Eq)]
pub enum NoGalley {
    /// Not each of these settings has a value.
    Missing(Settings),
    /// The number of the case or of the wedge is not that of its setting.
    Other(OtherNumber),
    /// What else settings, case and wedge have against one another.
    Fault(JobFault),
}

/// Adds a key, where it has no value.
fn add_missing<A: Allocator>(
    keys: &mut Vec<Key, A>,
    value: Option<u32>,
    key: Key,
) -> Result<(), AllocError>
    ensures { OnOk result (keys.new.items ≡ keys.old.items ++ missing_if value key) }
{
    if value.is_none() {
        keys.push(key)?;
    }
    Ok(())
}

/// The keys that have no value.
pub fn missing<A: Allocator>(alloc: A, settings: &Settings) -> Result<Vec<Key, A>, AllocError>
    ensures { IfOk result (λ v. v.items ≡ missing (by_key settings.now)) }
{
    let mut keys = Vec::new(alloc);
    add_missing(&mut keys, settings.measure, Key::Measure)?;
    add_missing(&mut keys, settings.tight, Key::Tight)?;
    add_missing(&mut keys, settings.loose, Key::Loose)?;
    add_missing(&mut keys, settings.case, Key::Case)?;
    add_missing(&mut keys, settings.wedge, Key::Wedge)?;
    Ok(keys)
}

/// What stands before a name that so many others follow.
fn before_name(more: usize) -> &'static str
    ensures { result.now ≡ before_name more }
{
    if more == 0 { " and " } else { ", " }
}

/// Writes the names behind the first.
fn put_more_names<A: Allocator + Copy>(out: &mut String<A>, keys: &[Key]) -> Result<(), AllocError>
    ensures { OnOk result (string_bytes out.new ≡ string_bytes out.old ++ more_names keys.now) }
{
    for (at, key) in keys.iter().enumerate() {
        out.push_str(before_name(keys.len() - at - 1))?;
        out.push_str(key.name())?;
    }
    Ok(())
}

/// Writes that one setting has no value.
fn put_one<A: Allocator + Copy>(out: &mut String<A>, key: Key) -> Result<(), AllocError>
    ensures { OnOk result (string_bytes out.new ≡ string_bytes out.old ++ one_text key) }
{
    out.push_str("the setting ")?;
    out.push_str(key.name())?;
    out.push_str(" has no value")
}

/// Writes that several settings have no value.
fn put_several<A: Allocator + Copy>(
    out: &mut String<A>,
    key: Key,
    more: &[Key],
) -> Result<(), AllocError>
    ensures { OnOk result (string_bytes out.new ≡ string_bytes out.old ++ several_text key more.now) }
{
    out.push_str("the settings ")?;
    out.push_str(key.name())?;
    put_more_names(out, more)?;
    out.push_str(" have no value")
}

/// Writes that settings have no value.
fn put_missing<A: Allocator + Copy>(out: &mut String<A>, keys: &[Key]) -> Result<(), AllocError>
    ensures { OnOk result (string_bytes out.new ≡ string_bytes out.old ++ missing_text keys.now) }
{
    let [key, more @ ..] = keys else {
        return Ok(());
    };
    if more.is_empty() {
        put_one(out, *key)
    } else {
        put_several(out, *key, more)
    }
}

/// The number of the case that is not the setting's, or else that of the wedge.
fn other_of(values: Values, case: &MatrixCase, wedge: &Wedge) -> Option<OtherNumber>
    ensures { result ≡ other_of case.now wedge.now values }
{
    if values.case != case.number() as u32 {
        return Some(OtherNumber::Case {
            set: values.case,
            number: case.number(),
        });
    }
    if values.wedge != wedge.number() as u32 {
        return Some(OtherNumber::Wedge {
            set: values.wedge,
            number: wedge.number(),
        });
    }
    None
}

/// The number of the case or of the wedge that is not that of its setting, where all settings have values: that of the
/// case, where both are.
pub fn other_number(settings: &Settings, case: &MatrixCase, wedge: &Wedge) -> Option<OtherNumber>
    ensures { result ≡ other_number (by_key settings.now) case.now wedge.now }
{
    match given(settings) {
        Ok(values) => other_of(values, case, wedge),
        Err(_) => None,
    }
}

/// Why there is no galley: the settings that are missing, or else the number that is another, or else the fault.
pub fn why_none(settings: &Settings, case: &MatrixCase, wedge: &Wedge, fault: JobFault) -> NoGalley
    ensures { result ≡ why_none settings.now case.now wedge.now fault }
{
    let Ok(values) = given(settings) else {
        return NoGalley::Missing(*settings);
    };
    match other_of(values, case, wedge) {
        Some(other) => NoGalley::Other(other),
        None => NoGalley::Fault(fault),
    }
}

fn put_is<A: Allocator + Copy>(out: &mut String<A>, set: u32) -> Result<(), AllocError>
    ensures { OnOk result (string_bytes out.new ≡ string_bytes out.old ++ is_text set) }
{
    write!(out, " is {set}")
}

fn put_has<A: Allocator + Copy>(out: &mut String<A>, number: u16) -> Result<(), AllocError>
    ensures { OnOk result (string_bytes out.new ≡ string_bytes out.old ++ has_text number) }
{
    write!(out, " has the number {number}")
}

/// Writes the number of a setting.
fn put_set<A: Allocator + Copy>(out: &mut String<A>, name: &str, set: u32) -> Result<(), AllocError>
    ensures { OnOk result (string_bytes out.new ≡ string_bytes out.old ++ set_text name.now set) }
{
    out.push_str("the setting ")?;
    out.push_str(name)?;
    put_is(out, set)
}

/// Writes the number of what a setting names.
fn put_number<A: Allocator + Copy>(
    out: &mut String<A>,
    name: &str,
    number: u16,
) -> Result<(), AllocError>
    ensures { OnOk result (string_bytes out.new ≡ string_bytes out.old ++ number_text name.now number) }
{
    out.push_str(", and the ")?;
    out.push_str(name)?;
    put_has(out, number)
}

/// Writes both numbers.
fn put_numbers<A: Allocator + Copy>(
    out: &mut String<A>,
    name: &str,
    set: u32,
    number: u16,
) -> Result<(), AllocError>
    ensures { OnOk result (string_bytes out.new ≡ string_bytes out.old ++ numbers_text name.now set number) }
{
    put_set(out, name, set)?;
    put_number(out, name, number)
}

/// Writes a number that is another, and that of the setting.
fn put_other<A: Allocator + Copy>(out: &mut String<A>, other: OtherNumber) -> Result<(), AllocError>
    ensures { OnOk result (string_bytes out.new ≡ string_bytes out.old ++ other_text other) }
{
    match other {
        OtherNumber::Case { set, number } => put_numbers(out, "case", set, number),
        OtherNumber::Wedge { set, number } => put_numbers(out, "wedge", set, number),
    }
}

/// Writes the settings that have no value.
fn put_missing_of<A: Allocator + Copy>(
    out: &mut String<A>,
    settings: &Settings,
) -> Result<(), AllocError>
    ensures { OnOk result
        (string_bytes out.new ≡ string_bytes out.old ++ missing_text (missing (by_key settings.now))) }
{
    let keys = missing(*out.allocator(), settings)?;
    put_missing(out, &keys)
}

/// Writes why there is no galley: all the settings that are missing, or both numbers where one is another, or else the
/// fault.
pub fn put_reason<A: Allocator + Copy>(
    out: &mut String<A>,
    why: &NoGalley,
) -> Result<(), AllocError>
    ensures { OnOk result (string_bytes out.new ≡ string_bytes out.old ++ reason_text why.now) }
{
    match why {
        NoGalley::Missing(settings) => put_missing_of(out, settings),
        NoGalley::Other(other) => put_other(out, *other),
        NoGalley::Fault(fault) => out.push_str(cause(*fault)),
    }
}
