//! How the values of operations read in a message: a stamp as `10.1`, a symbol as `italic a`, a fault as `forked 10.1`,
//! and why an operation is not lawful, as `no such key`.

ghost use Rattle.std.specs.Prelude.{◌≡◌};
ghost use Rattle.desk_ops.specs.Words.{key_words, kind_words, style_words, unlawful_words};

use crate::fault::{CopyFault, FaultKind};
use crate::op::{Key, Stamp, Style, Symbol, Unlawful};
use std::error::Error;
use std::fmt;
use std::fmt::{Display, Formatter};

impl Display for Stamp {
    ghost use Rattle.std.specs.Prelude.{Some};
    ghost use Rattle.desk_ops.specs.Words.{stamp_words};

    ghost output = { λ s. Some (stamp_words s) };

    fn fmt<W: fmt::Write>(&self, f: &mut Formatter<W>) -> fmt::Result {
        let counter = self.counter;
        let site = self.site;
        write!(f, "{counter}.{site}")
    }
}

impl Style {
    /// Roman, italic or small capital, in words.
    pub fn name(self) -> &'static str
        ensures { result.now ≡ style_words self }
    {
        match self {
            Style::Roman => "roman",
            Style::Italic => "italic",
            Style::SmallCap => "small capital",
        }
    }
}

impl Display for Style {
    ghost use Rattle.std.specs.Prelude.{Some};
    ghost use Rattle.desk_ops.specs.Words.{style_words};

    ghost output = { λ s. Some (style_words s) };

    fn fmt<W: fmt::Write>(&self, f: &mut Formatter<W>) -> fmt::Result {
        f.write_str(self.name())
    }
}

impl Display for Symbol {
    ghost use Rattle.std.specs.Prelude.{Some};
    ghost use Rattle.desk_ops.specs.Words.{symbol_words};

    ghost output = { λ s. Some (symbol_words s) };

    fn fmt<W: fmt::Write>(&self, f: &mut Formatter<W>) -> fmt::Result {
        let style = self.style;
        let ch = self.ch;
        write!(f, "{style} {ch}")
    }
}

impl Key {
    /// What commands and answers call the setting.
    pub fn name(self) -> &'static str
        ensures { result.now ≡ key_words self }
    {
        match self {
            Key::Measure => "measure",
            Key::Tight => "tight",
            Key::Loose => "loose",
            Key::Case => "case",
            Key::Wedge => "wedge",
        }
    }
}

impl Display for Key {
    ghost use Rattle.std.specs.Prelude.{Some};
    ghost use Rattle.desk_ops.specs.Words.{key_words};

    ghost output = { λ k. Some (key_words k) };

    fn fmt<W: fmt::Write>(&self, f: &mut Formatter<W>) -> fmt::Result {
        f.write_str(self.name())
    }
}

impl FaultKind {
    /// What answers call the fault.
    pub fn name(self) -> &'static str
        ensures { result.now ≡ kind_words self }
    {
        match self {
            FaultKind::Forked => "forked",
            FaultKind::Void => "void",
            FaultKind::Waiting => "waiting",
        }
    }
}

impl Display for FaultKind {
    ghost use Rattle.std.specs.Prelude.{Some};
    ghost use Rattle.desk_ops.specs.Words.{kind_words};

    ghost output = { λ k. Some (kind_words k) };

    fn fmt<W: fmt::Write>(&self, f: &mut Formatter<W>) -> fmt::Result {
        f.write_str(self.name())
    }
}

impl Display for CopyFault {
    ghost use Rattle.std.specs.Prelude.{Some};
    ghost use Rattle.desk_ops.specs.Words.{copy_fault_words};

    ghost output = { λ f. Some (copy_fault_words f) };

    fn fmt<W: fmt::Write>(&self, f: &mut Formatter<W>) -> fmt::Result {
        let kind = self.kind;
        let stamp = self.stamp;
        write!(f, "{kind} {stamp}")
    }
}

impl Unlawful {
    /// Why an operation is not lawful, in words.
    pub fn words(self) -> &'static str
        ensures { result.now ≡ unlawful_words self }
    {
        match self {
            Unlawful::Counter => "the counter is out of range",
            Unlawful::Site => "no site has the number 0",
            Unlawful::Target => "the target is not an earlier stamp",
            Unlawful::Symbol => "no such symbol",
            Unlawful::Key => "no such key",
            Unlawful::Value => "the value is out of the key's range",
        }
    }
}

impl Display for Unlawful {
    ghost use Rattle.std.specs.Prelude.{Some};
    ghost use Rattle.desk_ops.specs.Words.{unlawful_words};

    ghost output = { λ why. Some (unlawful_words why) };

    fn fmt<W: fmt::Write>(&self, f: &mut Formatter<W>) -> fmt::Result {
        f.write_str(self.words())
    }
}

impl Error for Unlawful {}
