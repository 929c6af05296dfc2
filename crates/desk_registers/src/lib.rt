//! The settings of a job: of each key the value with the greatest stamp.
//!
//! Each is a last-writer-wins register: it keeps the value of the greatest stamp and that stamp alone, and takes
//! settings in any order, but none that bears the stamp of the kept one.
#![tactic(auto)]

ghost use Rattle.std.specs.Prelude.{◌≡◌, None, option_map};
ghost use Rattle.desk_ops.specs.declared.op.Key.{Key};
ghost use Rattle.desk_registers.specs.Registers.{kept, kept_with, greater, IsOther};

use desk_ops::{Key, Stamp};

mod laws;

pub use laws::{greatest_is_kept, there_is_one_greatest};

/// A setting's value, and the stamp of the operation that set it.
#[derive(Clone, Copy, Debug, PartialEq, Eq)]
struct Kept {
    stamp: Stamp,
    value: u32,
}

/// What is kept of each key.
#[derive(Clone, Copy, Debug, PartialEq, Eq)]
pub struct Registers {
    measure: Option<Kept>,
    tight: Option<Kept>,
    loose: Option<Kept>,
    case: Option<Kept>,
    wedge: Option<Kept>,
}

/// The one of the greater stamp.
fn greater(old: Option<Kept>, new: Kept) -> Kept
    ensures { result ≡ greater old new }
{
    match old {
        Some(old) if !old.stamp.is_before(new.stamp) => old,
        _ => new,
    }
}

impl Registers {
    /// Registers that keep nothing.
    pub fn new() -> Registers
        ensures { (key : Key) → kept result key ≡ None }
    {
        Registers {
            measure: None,
            tight: None,
            loose: None,
            case: None,
            wedge: None,
        }
    }

    fn kept(&self, key: Key) -> Option<Kept>
        ensures { result ≡ kept self.now key }
    {
        match key {
            Key::Measure => self.measure,
            Key::Tight => self.tight,
            Key::Loose => self.loose,
            Key::Case => self.case,
            Key::Wedge => self.wedge,
        }
    }

    /// Takes a setting, whose stamp is not that of the key's kept one: the one of the greater stamp is kept.
    pub fn take(&mut self, stamp: Stamp, key: Key, value: u32)
        requires { IsOther (kept self.old key) stamp }
        ensures { (k : Key) → kept self.new k ≡ kept_with (kept self.old) stamp key value k }
    {
        let kept = Some(greater(self.kept(key), Kept { stamp, value }));
        match key {
            Key::Measure => self.measure = kept,
            Key::Tight => self.tight = kept,
            Key::Loose => self.loose = kept,
            Key::Case => self.case = kept,
            Key::Wedge => self.wedge = kept,
        }
    }

    /// The value that is kept of the key.
    pub fn value(&self, key: Key) -> Option<u32>
        ensures { result ≡ option_map (λ k. k.value) (kept self.now key) }
    {
        self.kept(key).map(|kept| kept.value)
    }
}
