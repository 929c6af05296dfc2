//! What is set for a proof or a picture, and its galley.

ghost use Rattle.std.specs.Prelude.{◌≡◌, ◌≤◌, All, IfErr, IfOk, length};
ghost use Rattle.desk_job.specs.Answer.{AreValues};
ghost use Rattle.desk_lines.specs.Words.{most_symbols};
ghost use Rattle.view_galley.specs.Galley.{Stands};
ghost use Rattle.view_preview.specs.Matter.{HasGalley, IsUnset, matter_of, matter_of_text};

use crate::trial::tried;
use desk_blocks::Blocks;
use desk_case::MatrixCase;
use desk_memory::NoMemory;
use desk_ops::{CopyFault, Symbol};
use desk_replica::{Replica, Settings};
use desk_wedge::Wedge;
use std::alloc::Allocator;
use std::marker::Model;
use text_copy::write_text;
use view_galley::{Galley, GalleyRefusal, make_galley};
use view_proof::{NoGalley, why_none};

/// A copy of at most 1,048,576 symbols with its faults and settings, its text, and a case and a wedge.
#[derive(Drop)]
pub struct Matter<A: Allocator + Copy> {
    copy: Vec<Symbol, A>,
    faults: Vec<CopyFault, A>,
    settings: Settings,
    text: Vec<u8, A>,
    plain: bool,
    case: MatrixCase,
    wedge: Wedge,
}

impl<A: Allocator + Copy> Model for Matter<A> {
    ghost use Rattle.desk_job.specs.Answer.{AreValues};
    ghost use Rattle.desk_lines.specs.Words.{most_symbols};
    ghost use Rattle.std.specs.Prelude.{◌≤◌, length};
    ghost use Rattle.view_preview.specs.Matter.{MatterValues};

    ghost Value = { MatterValues };

    ghost view = { λ m. record {
      copy = m.copy.items;
      faults = m.faults.items;
      settings = m.settings;
      text = m.text.items;
      plain = m.plain;
      case = m.case;
      wedge = m.wedge;
    } };

    ghost invariant = { λ m. (length m.copy.items ≤ most_symbols) × AreValues m.settings };
}

/// Why there is no galley.
#[derive(Clone, Copy, Debug, PartialEq, Eq)]
pub enum Unset {
    /// What settings, case and wedge lack, or have against one another.
    Reason(NoGalley),
    NoMemory,
}

impl<A: Allocator + Copy> Matter<A> {
    /// What a replica shows, with the text that is written of it.
    pub fn of_replica(
        alloc: A,
        replica: &Replica<Blocks<A>>,
        case: MatrixCase,
        wedge: Wedge,
    ) -> Result<Matter<A>, NoMemory>
        ensures { IfOk result (λ m. m ≡ matter_of replica.now.ops case wedge) }
    {
        let copy = replica.copy()?;
        let faults = replica.copy_faults()?;
        let text = write_text(alloc, &copy)?;
        Ok(Matter {
            copy,
            faults,
            settings: replica.settings(),
            text,
            plain: false,
            case,
            wedge,
        })
    }

    /// A text and the copy that it is. No correction is missing in it, and it has no setting but the numbers of the
    /// case and the wedge.
    pub fn of_text(
        alloc: A,
        text: Vec<u8, A>,
        plain: bool,
        copy: Vec<Symbol, A>,
        case: MatrixCase,
        wedge: Wedge,
    ) -> Matter<A>
        requires { length copy.items ≤ most_symbols }
        ensures { result ≡ matter_of_text plain text.items copy.items case wedge }
    {
        let settings = Settings {
            measure: None,
            tight: None,
            loose: None,
            case: Some(u32::from(case.number())),
            wedge: Some(u32::from(wedge.number())),
        };
        Matter {
            copy,
            faults: Vec::new(alloc),
            settings,
            text,
            plain,
            case,
            wedge,
        }
    }

    /// The symbols of the copy.
    pub fn copy(&self) -> &[Symbol]
        ensures value { result.now ≡ (self.now).copy }
        ensures short { length result.now ≤ most_symbols }
    {
        &self.copy
    }

    /// Why corrections are missing in it.
    pub fn faults(&self) -> &[CopyFault]
        ensures { result.now ≡ (self.now).faults }
    {
        &self.faults
    }

    /// The text that the copy was read from, or that is written of it.
    pub fn text(&self) -> &[u8]
        ensures { result.now ≡ (self.now).text }
    {
        &self.text
    }

    /// Whether no character of that is a mark.
    pub fn is_plain(&self) -> bool
        ensures { result ≡ (self.now).plain }
    {
        self.plain
    }

    /// The galley of the copy by its settings, and by those that are tried in their place; or why there is none.
    pub fn galley<'a>(&'a self, alloc: A, trial: &Settings) -> Result<Galley<'a, A>, Unset>
        requires { AreValues trial.now }
        ensures ok { IfOk result (HasGalley self.now trial.now) }
        ensures stands { IfOk result (λ g. All (Stands (self.now).copy (self.now).case) g.lines) }
        ensures err { IfErr result (IsUnset self.now trial.now) }
    {
        let settings = tried(trial, &self.settings);
        match make_galley(alloc, &self.copy, &settings, &self.case, &self.wedge) {
            Ok(galley) => Ok(galley),
            Err(GalleyRefusal::Fault(why)) => {
                let why = why_none(&settings, &self.case, &self.wedge, why);
                Err(Unset::Reason(why))
            }
            Err(GalleyRefusal::NoMemory) => Err(Unset::NoMemory),
        }
    }
}
