//! How columns, cells and what is no row read in a message: `B2`, `NI14`, `two numbers`.

ghost use Rattle.std.specs.Prelude.{◌≡◌};
ghost use Rattle.desk_signals.specs.Words.{bad_row_words, column_name};

use crate::{BadRow, Cell, Column};
use std::error::Error;
use std::fmt;
use std::fmt::{Display, Formatter};

impl Column {
    /// Its letter, or its two.
    pub fn name(self) -> &'static str
        ensures { result.now ≡ column_name self }
    {
        match self {
            Column::A => "A",
            Column::B => "B",
            Column::C => "C",
            Column::D => "D",
            Column::E => "E",
            Column::F => "F",
            Column::G => "G",
            Column::H => "H",
            Column::I => "I",
            Column::J => "J",
            Column::K => "K",
            Column::L => "L",
            Column::M => "M",
            Column::N => "N",
            Column::O => "O",
            Column::NI => "NI",
            Column::NL => "NL",
        }
    }
}

impl Display for Column {
    ghost use Rattle.std.specs.Prelude.{Some};
    ghost use Rattle.desk_signals.specs.Words.{column_name};

    ghost output = { λ c. Some (column_name c) };

    fn fmt<W: fmt::Write>(&self, f: &mut Formatter<W>) -> fmt::Result {
        f.write_str(self.name())
    }
}

impl Display for Cell {
    ghost use Rattle.std.specs.Prelude.{Some};
    ghost use Rattle.desk_signals.specs.Words.{cell_words};

    ghost output = { λ c. Some (cell_words c) };

    fn fmt<W: fmt::Write>(&self, f: &mut Formatter<W>) -> fmt::Result {
        let column = self.column.name();
        let row = self.row.get();
        write!(f, "{column}{row}")
    }
}

impl BadRow {
    /// Why signals are no row, in words.
    pub fn words(self) -> &'static str
        ensures { result.now ≡ bad_row_words self }
    {
        match self {
            BadRow::TwoLetters => "two letters",
            BadRow::TwoNumbers => "two numbers",
            BadRow::FineAlone => "0005 without 0075",
            BadRow::WedgeWithLetter => "0075 with a letter",
            BadRow::WedgeWithS => "0075 with S",
            BadRow::Repeated => "a signal stands twice",
        }
    }
}

impl Display for BadRow {
    ghost use Rattle.std.specs.Prelude.{Some};
    ghost use Rattle.desk_signals.specs.Words.{bad_row_words};

    ghost output = { λ why. Some (bad_row_words why) };

    fn fmt<W: fmt::Write>(&self, f: &mut Formatter<W>) -> fmt::Result {
        f.write_str(self.words())
    }
}

impl Error for BadRow {}
