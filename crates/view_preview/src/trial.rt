//! Settings that are tried in place of those of a copy: what its galley would be by other values, before anyone sets
//! them.
//!
//! A text is KEY=VALUE, as `loose=200`, where the command `set 1 KEY VALUE` of a script would be lawful. Of one key the
//! last text counts. Nothing is stored. It refuses all texts for one that is no such setting, and reports the place of
//! the first.

ghost use Rattle.std.specs.Prelude.{◌≡◌, ◌≢◌, ◌≤◌, length, Err, IfErr, IfOk, IfSome, None, Some, option_map};
ghost use Rattle.std.specs.Prelude.{string_bytes};
ghost use Rattle.script_answers.specs.Command.{command_values};
ghost use Rattle.script_answers.specs.Memory.{AsksMemory};
ghost use Rattle.desk_job.specs.Answer.{AreValues};
ghost use Rattle.desk_ops.specs.Op.{IsValue};
ghost use Rattle.view_preview.specs.Trial.{HasLine, HasPlace, line_of, no_trial, set_by, set_in, trial_of, tried_by};
ghost use Rattle.view_preview.specs.Trial.{tried_with, with_value};
ghost use Rattle.view_preview.specs.declared.trial.TrialFault.TheVariants as fault;

use desk_memory::NoMemory;
use desk_ops::Key;
use desk_replica::Settings;
use script_answers::{Command, ParseError, parse};
use std::alloc::{AllocError, Allocator};
use thiserror::Error;

/// Why texts try no settings.
#[derive(Clone, Copy, Debug, PartialEq, Eq, Error)]
pub enum TrialFault {
    /// The text at this place, counted from 0, names no setting, or gives it no value that it may have.
    #[error("no setting")]
    NoSetting(usize),
    #[error("no memory")]
    NoMemory,
}

impl From<NoMemory> for TrialFault {
    ghost from_gives = { λ _ why. why ≡ fault.NoMemory };

    fn from(_: NoMemory) -> TrialFault {
        TrialFault::NoMemory
    }
}

/// Settings with those that are tried in their place.
pub fn tried(trial: &Settings, given: &Settings) -> Settings
    requires trial { AreValues trial.now }
    requires given { AreValues given.now }
    ensures value { result ≡ tried_with trial.now given.now }
    ensures lawful { AreValues result }
{
    Settings {
        measure: trial.measure.or(given.measure),
        tight: trial.tight.or(given.tight),
        loose: trial.loose.or(given.loose),
        case: trial.case.or(given.case),
        wedge: trial.wedge.or(given.wedge),
    }
}

/// Nothing is tried.
pub fn no_trial() -> Settings
    ensures value { result ≡ no_trial }
    ensures lawful { AreValues result }
{
    Settings {
        measure: None,
        tight: None,
        loose: None,
        case: None,
        wedge: None,
    }
}

/// The command that a text as `loose=200` stands for.
#[tactic(auto, unfolding(crate::specs::Trial::line_of))]
fn line_of<A: Allocator + Copy>(alloc: A, text: &str) -> Result<Option<String<A>>, AllocError>
    ensures value { IfOk result (λ line. line_of text.now ≡ option_map string_bytes line) }
    ensures memory { IfErr result (λ _. line_of text.now ≢ None) }
{
    let Some((name, value)) = text.split_once('=') else {
        return Ok(None);
    };
    let mut line = String::new(alloc);
    line.push_str("set 1 ")?;
    line.push_str(name)?;
    line.push_str(" ")?;
    line.push_str(value)?;
    Ok(Some(line))
}

/// The key and the value that a command sets, where the key may have the value.
fn set_by<A: Allocator + Copy>(command: &Command<'_, A>) -> Option<(Key, u32)>
    ensures value { result ≡ set_by (command_values command.now) }
    ensures lawful { IfSome result (λ t. IsValue t.0 t.1) }
{
    match command {
        Command::Set { key, value, .. } => {
            if key.takes(*value) {
                Some((*key, *value))
            } else {
                None
            }
        }
        Command::Site(_)
        | Command::Insert { .. }
        | Command::Delete { .. }
        | Command::Take { .. }
        | Command::Send { .. }
        | Command::Merge { .. }
        | Command::Show(_)
        | Command::Faults(_)
        | Command::Settings(_)
        | Command::Feed(_)
        | Command::Ribbon { .. }
        | Command::Cast { .. }
        | Command::Restart(_) => None,
    }
}

/// The key and the value that the command of a line sets.
fn set_in<A: Allocator + Copy>(alloc: A, line: &str) -> Result<Option<(Key, u32)>, NoMemory>
    ensures value { IfOk result (λ t. set_in line.now ≡ t) }
    ensures lawful { IfOk result (λ t. IfSome t (λ p. IsValue p.0 p.1)) }
    ensures memory { IfErr result (λ _. AsksMemory line.now) }
{
    match parse(alloc, line.as_bytes()) {
        Ok(command) => Ok(set_by(&command)),
        Err(ParseError::Form) => Ok(None),
        Err(ParseError::NoMemory) => Err(NoMemory),
    }
}

/// What a text as `loose=200` tries; none where it names no setting, or gives it no value that it may have.
#[tactic(auto, unfolding(crate::specs::Trial::tried_by))]
fn tried_by<A: Allocator + Copy>(alloc: A, text: &str) -> Result<Option<(Key, u32)>, NoMemory>
    ensures value { IfOk result (λ t. tried_by text.now ≡ t) }
    ensures lawful { IfOk result (λ t. IfSome t (λ p. IsValue p.0 p.1)) }
    ensures memory { IfErr result (λ _. line_of text.now ≢ None) }
{
    match line_of(alloc, text)? {
        Some(line) => set_in(alloc, &line),
        None => Ok(None),
    }
}

fn with_value(settings: Settings, key: Key, value: u32) -> Settings
    requires values { AreValues settings }
    requires value { IsValue key value }
    ensures value { result ≡ with_value settings key value }
    ensures lawful { AreValues result }
{
    match key {
        Key::Measure => Settings {
            measure: Some(value),
            ..settings
        },
        Key::Tight => Settings {
            tight: Some(value),
            ..settings
        },
        Key::Loose => Settings {
            loose: Some(value),
            ..settings
        },
        Key::Case => Settings {
            case: Some(value),
            ..settings
        },
        Key::Wedge => Settings {
            wedge: Some(value),
            ..settings
        },
    }
}

/// The settings that texts as `loose=200` try, each KEY=VALUE as in the command `set`; of one key the last counts. A
/// text that names no setting, or gives it no value that it may have, is refused by its place, the first of them, and
/// so is the whole.
pub fn trial_of<A: Allocator + Copy>(alloc: A, texts: &[&str]) -> Result<Settings, TrialFault>
    ensures value { IfOk result (λ s. trial_of texts.now ≡ Some s) }
    ensures lawful { IfOk result AreValues }
    ensures refused { IfErr result (λ why. why ≢ fault.NoMemory → trial_of texts.now ≡ None) }
    ensures place { IfErr result (λ why. HasPlace why texts.now) }
    // Without a text nothing is refused, and no memory is taken.
    ensures some { IfErr result (λ _. 1 ≤ length texts.now) }
    // A first text that stands for no command takes no memory.
    ensures memory { result ≡ Err fault.NoMemory → HasLine texts.now }
{
    let mut settings = no_trial();
    for (place, text) in texts.iter().enumerate() {
        match tried_by(alloc, text)? {
            Some((key, value)) => settings = with_value(settings, key, value),
            None => return Err(TrialFault::NoSetting(place)),
        }
    }
    Ok(settings)
}
