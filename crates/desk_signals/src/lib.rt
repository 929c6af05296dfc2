//! Rows of a controller ribbon and the signals of its 31 channels.
//!
//! The signals are those of the Lanston Monotype system: A to N and 1 to 14 for the columns and rows of the matrix
//! case, S for a justifying space, 0005 and 0075 for the justification wedges. A column has one letter, the column O
//! none, and the columns NI and NL two. How the signals lie across the paper is left out.
#![tactic(auto)]

ghost use Rattle.std.specs.Prelude.{◌≡◌, ℕ, ◌<◌, ◌≤◌, ◌↔◌, IsTrue, SomeIff, IfSome, IfNone, IfOk, MatchOption, false};
ghost use Rattle.std.specs.Prelude.{true, length, [], ◌∷◌};
ghost use Rattle.std.specs.List.Sorted.{IsPermutation};
ghost use Rattle.std.specs.Option.{option_to_list};
ghost use Rattle.std.specs.Result.{result_err};
ghost use Rattle.desk_signals.specs.declared.RibbonRow.{RibbonRow};
ghost use Rattle.desk_signals.specs.Columns.{column_at, index};
ghost use Rattle.desk_signals.specs.Rows.{IsRow, Spells, cause_number, fault_of, has, is_letter, is_number, is_pair};
ghost use Rattle.desk_signals.specs.Rows.{letters, letters_of, number_of, numbers, place, repeats, signals_of};
ghost use Rattle.desk_signals.specs.Rows.{two_letters, wedge_fault};

use arrayvec::ArrayVec;
use std::marker::Model;

pub mod laws;
pub mod words;

/// A column of the matrix case. A case has the columns A to O, or these and NI and NL.
#[derive(Clone, Copy, PartialEq, Eq, Debug)]
pub enum Column {
    A,
    B,
    C,
    D,
    E,
    F,
    G,
    H,
    I,
    J,
    K,
    L,
    M,
    N,
    O,
    /// The column of the letters N and I together.
    NI,
    /// The column of the letters N and L together.
    NL,
}

/// The columns in their order.
const COLUMNS: [Column; 17] = [
    Column::A,
    Column::B,
    Column::C,
    Column::D,
    Column::E,
    Column::F,
    Column::G,
    Column::H,
    Column::I,
    Column::J,
    Column::K,
    Column::L,
    Column::M,
    Column::N,
    Column::O,
    Column::NI,
    Column::NL,
];

impl Column {
    /// The column with an index, from 0 for A to 16 for NL, or none.
    pub fn at(index: u8) -> Option<Column>
        ensures { result ≡ column_at index }
    {
        COLUMNS.get(index as usize).copied()
    }

    /// Its index, from 0 for A to 16 for NL.
    pub fn index(self) -> u8
        ensures value { result ≡ index self }
        ensures small { result < 17 }
    {
        self as u8
    }
}

/// A row of the matrix case, 1 to 15.
#[derive(Clone, Copy, PartialEq, Eq, Debug)]
pub struct RowNo {
    number: u8,
}

impl Model for RowNo {
    ghost use Rattle.std.specs.Prelude.{ℕ, ◌≤◌};

    ghost Value = { ℕ };

    ghost view = { λ n. n.number };

    ghost invariant = { λ n. (1 ≤ n.number) × (n.number ≤ 15) };

    ghost inverse = { λ n. record { number = n } };
}

impl RowNo {
    /// The row of this number, 1 to 15, or none.
    pub fn new(number: u8) -> Option<RowNo>
        ensures { SomeIff result ((1 ≤ number) × (number ≤ 15)) number }
    {
        if number >= 1 && number <= 15 {
            Some(RowNo { number })
        } else {
            None
        }
    }

    /// Its number, 1 to 15.
    pub fn get(self) -> u8
        ensures value { result ≡ self }
        ensures low { 1 ≤ self }
        ensures high { self ≤ 15 }
    {
        self.number
    }
}

/// A position of a justification wedge, 1 to 15.
#[derive(Clone, Copy, PartialEq, Eq, Debug)]
pub struct Position {
    position: u8,
}

impl Model for Position {
    ghost use Rattle.std.specs.Prelude.{ℕ, ◌≤◌};

    ghost Value = { ℕ };

    ghost view = { λ n. n.position };

    ghost invariant = { λ n. (1 ≤ n.position) × (n.position ≤ 15) };

    ghost inverse = { λ n. record { position = n } };
}

impl Position {
    /// The position of this number, 1 to 15, or none.
    pub fn new(number: u8) -> Option<Position>
        ensures { SomeIff result ((1 ≤ number) × (number ≤ 15)) number }
    {
        if number >= 1 && number <= 15 {
            Some(Position { position: number })
        } else {
            None
        }
    }

    /// Its number, 1 to 15.
    pub fn get(self) -> u8
        ensures value { result ≡ self }
        ensures low { 1 ≤ self }
        ensures high { self ≤ 15 }
    {
        self.position
    }
}

/// A place in the matrix case.
#[derive(Clone, Copy, PartialEq, Eq, Debug)]
pub struct Cell {
    pub column: Column,
    pub row: RowNo,
}

/// A signal of the ribbon, in signal order.
#[derive(Clone, Copy, PartialEq, Eq, Debug, Default)]
pub enum Signal {
    #[default]
    A,
    B,
    C,
    D,
    E,
    F,
    G,
    H,
    I,
    J,
    K,
    L,
    M,
    N,
    One,
    Two,
    Three,
    Four,
    Five,
    Six,
    Seven,
    Eight,
    Nine,
    Ten,
    Eleven,
    Twelve,
    Thirteen,
    Fourteen,
    /// The wedge 0005.
    Fine,
    /// The wedge 0075.
    Coarse,
    /// Justification of a space.
    S,
}

/// The signals in signal order.
pub const SIGNALS: [Signal; 31] = [
    Signal::A,
    Signal::B,
    Signal::C,
    Signal::D,
    Signal::E,
    Signal::F,
    Signal::G,
    Signal::H,
    Signal::I,
    Signal::J,
    Signal::K,
    Signal::L,
    Signal::M,
    Signal::N,
    Signal::One,
    Signal::Two,
    Signal::Three,
    Signal::Four,
    Signal::Five,
    Signal::Six,
    Signal::Seven,
    Signal::Eight,
    Signal::Nine,
    Signal::Ten,
    Signal::Eleven,
    Signal::Twelve,
    Signal::Thirteen,
    Signal::Fourteen,
    Signal::Fine,
    Signal::Coarse,
    Signal::S,
];

/// A row of the ribbon.
#[derive(Clone, Copy, PartialEq, Eq, Debug)]
pub enum RibbonRow {
    /// Casts the matrix of this cell; with `s` its width is that of a justified space.
    Cell { column: Column, row: RowNo, s: bool },
    /// Sets the coarse wedge and starts a line.
    Coarse(Position),
    /// Sets the fine wedge and sends a line out.
    FineOut(Position),
}

/// Why signals are no row.
#[derive(Clone, Copy, PartialEq, Eq, Debug)]
pub enum BadRow {
    /// Two letters or more that are not exactly N and I, or N and L.
    TwoLetters,
    TwoNumbers,
    /// 0005 without 0075.
    FineAlone,
    WedgeWithLetter,
    WedgeWithS,
    Repeated,
}

/// The signals of a column, in signal order: its letter, none for O, and two for NI and NL.
fn column_signals(column: Column) -> ArrayVec<Signal, 4>
    ensures signals { result.items ≡ letters_of column }
    ensures few { length result.items ≤ 2 }
{
    let mut found = ArrayVec::new();
    let letter = match column {
        Column::A => Signal::A,
        Column::B => Signal::B,
        Column::C => Signal::C,
        Column::D => Signal::D,
        Column::E => Signal::E,
        Column::F => Signal::F,
        Column::G => Signal::G,
        Column::H => Signal::H,
        Column::I => Signal::I,
        Column::J => Signal::J,
        Column::K => Signal::K,
        Column::L => Signal::L,
        Column::M => Signal::M,
        Column::N => Signal::N,
        Column::O => return found,
        Column::NI => {
            found.push(Signal::I);
            Signal::N
        }
        Column::NL => {
            found.push(Signal::L);
            Signal::N
        }
    };
    found.push(letter);
    found
}

/// The signal of a row or position, none for 15.
fn number_signal(n: u8) -> Option<Signal>
    requires { 1 ≤ n }
    ensures { option_to_list result ≡ number_of n }
{
    match n {
        1 => Some(Signal::One),
        2 => Some(Signal::Two),
        3 => Some(Signal::Three),
        4 => Some(Signal::Four),
        5 => Some(Signal::Five),
        6 => Some(Signal::Six),
        7 => Some(Signal::Seven),
        8 => Some(Signal::Eight),
        9 => Some(Signal::Nine),
        10 => Some(Signal::Ten),
        11 => Some(Signal::Eleven),
        12 => Some(Signal::Twelve),
        13 => Some(Signal::Thirteen),
        14 => Some(Signal::Fourteen),
        _ => None,
    }
}

impl RibbonRow {
    /// The signals of this row, in signal order.
    pub fn signals(self) -> ArrayVec<Signal, 4>
        ensures signals { result.items ≡ signals_of self }
    {
        match self {
            RibbonRow::Cell { column, row, s } => {
                let mut found = column_signals(column);
                if let Some(signal) = number_signal(row.get()) {
                    found.push(signal);
                }
                if s {
                    found.push(Signal::S);
                }
                found
            }
            RibbonRow::Coarse(position) => {
                let mut found = ArrayVec::new();
                if let Some(signal) = number_signal(position.get()) {
                    found.push(signal);
                }
                found.push(Signal::Coarse);
                found
            }
            RibbonRow::FineOut(position) => {
                let mut found = ArrayVec::new();
                if let Some(signal) = number_signal(position.get()) {
                    found.push(signal);
                }
                found.push(Signal::Fine);
                found.push(Signal::Coarse);
                found
            }
        }
    }
}

impl Signal {
    /// Its place in signal order, from 0.
    fn place(self) -> u8
        ensures { result ≡ place self }
    {
        self as u8
    }

    fn is_letter(self) -> bool
        ensures { result ≡ is_letter self }
    {
        self.place() < 14
    }

    fn is_number(self) -> bool
        ensures { result ≡ is_number self }
    {
        14 <= self.place() && self.place() < 28
    }
}

fn has(signals: &[Signal], signal: Signal) -> bool
    ensures { result ≡ has signals.now signal }
{
    signals.iter().any(|other| other.place() == signal.place())
}

fn repeats(signals: &[Signal]) -> bool
    ensures { result ≡ repeats signals.now }
{
    for (index, &signal) in signals.iter().enumerate() {
        if has(&signals[index + 1..], signal) {
            return true;
        }
    }
    false
}

/// The column of a letter.
fn column_of(signal: Signal) -> Option<Column>
    ensures none { IfNone result (is_letter signal ≡ false) }
    ensures letter { IfSome result (λ column. is_letter signal ≡ true) }
    ensures column { IfSome result (λ column. letters_of column ≡ signal ∷ []) }
{
    if signal.is_letter() {
        Column::at(signal.place())
    } else {
        None
    }
}

/// The row or position of a number.
fn number_at(signal: Signal) -> Option<u8>
    ensures none { IfNone result (is_number signal ≡ false) }
    ensures number { IfSome result (λ n. is_number signal ≡ true) }
    ensures low { IfSome result (λ n. 1 ≤ n) }
    ensures high { IfSome result (λ n. n ≤ 14) }
    ensures value { IfSome result (λ n. number_of n ≡ signal ∷ []) }
{
    Some(match signal {
        Signal::One => 1,
        Signal::Two => 2,
        Signal::Three => 3,
        Signal::Four => 4,
        Signal::Five => 5,
        Signal::Six => 6,
        Signal::Seven => 7,
        Signal::Eight => 8,
        Signal::Nine => 9,
        Signal::Ten => 10,
        Signal::Eleven => 11,
        Signal::Twelve => 12,
        Signal::Thirteen => 13,
        Signal::Fourteen => 14,
        _ => return None,
    })
}

/// The column whose letters stand among signals with one letter at most.
fn lone_column(signals: &[Signal]) -> Column
    requires { length (letters signals.now) ≤ 1 }
    ensures { letters signals.now ≡ letters_of result }
{
    for &signal in signals {
        if let Some(column) = column_of(signal) {
            return column;
        }
    }
    Column::O
}

/// The column whose letters stand, in any order, among signals whose letters are those of one.
fn column_among(signals: &[Signal]) -> Column
    requires { two_letters signals.now ≡ false }
    ensures { IsPermutation (letters_of result) (letters signals.now) }
{
    if count_letters(signals) <= 1 {
        return lone_column(signals);
    }
    if has(signals, Signal::I) {
        Column::NI
    } else {
        Column::NL
    }
}

/// The row or position whose number stands among signals with one number at most.
fn number_among(signals: &[Signal]) -> u8
    requires { length (numbers signals.now) ≤ 1 }
    ensures low { 1 ≤ result }
    ensures high { result ≤ 15 }
    ensures value { numbers signals.now ≡ number_of result }
{
    for &signal in signals {
        if let Some(number) = number_at(signal) {
            return number;
        }
    }
    15
}

fn count_letters(signals: &[Signal]) -> usize
    ensures { result ≡ length (letters signals.now) }
{
    signals.iter().filter(|signal| signal.is_letter()).count()
}

fn count_numbers(signals: &[Signal]) -> usize
    ensures { result ≡ length (numbers signals.now) }
{
    signals.iter().filter(|signal| signal.is_number()).count()
}

/// Whether the letters are exactly N and I, or N and L.
fn is_pair(signals: &[Signal]) -> bool
    ensures { result ≡ is_pair signals.now }
{
    count_letters(signals) == 2
        && has(signals, Signal::N)
        && (has(signals, Signal::I) || has(signals, Signal::L))
}

/// Whether there are two letters or more that are not these.
fn two_letters(signals: &[Signal]) -> bool
    ensures { result ≡ two_letters signals.now }
{
    count_letters(signals) > 1 && !is_pair(signals)
}

/// The first cause that makes signals no row.
fn fault(signals: &[Signal]) -> Option<BadRow>
    ensures { result ≡ fault_of signals.now }
{
    if repeats(signals) {
        return Some(BadRow::Repeated);
    }
    if two_letters(signals) {
        return Some(BadRow::TwoLetters);
    }
    if count_numbers(signals) > 1 {
        return Some(BadRow::TwoNumbers);
    }
    let fine = has(signals, Signal::Fine);
    let coarse = has(signals, Signal::Coarse);
    let letter = count_letters(signals) > 0;
    let s = has(signals, Signal::S);
    wedge_fault(fine, coarse, letter, s)
}

/// The first cause among signals with the letters of one column and one number at most.
fn wedge_fault(fine: bool, coarse: bool, letter: bool, s: bool) -> Option<BadRow>
    ensures { result ≡ wedge_fault fine coarse letter s }
{
    if fine && !coarse {
        Some(BadRow::FineAlone)
    } else if coarse && letter {
        Some(BadRow::WedgeWithLetter)
    } else if coarse && s {
        Some(BadRow::WedgeWithS)
    } else {
        None
    }
}

/// The row that these signals spell, in any order.
///
/// The causes are checked in this order: `Repeated`, `TwoLetters`, `TwoNumbers`, `FineAlone`, `WedgeWithLetter`,
/// `WedgeWithS`.
pub fn from_signals(signals: &[Signal]) -> Result<RibbonRow, BadRow>
    ensures fault { result_err result ≡ fault_of signals.now }
    ensures row { IfOk result (λ row. IsRow row) }
    ensures spells { IfOk result (λ row. Spells signals.now row) }
    ensures every_order { (row : RibbonRow) → IsRow row → Spells signals.now row → result ≡ Ok row }
{
    if let Some(why) = fault(signals) {
        return Err(why);
    }
    let number = number_among(signals);
    if has(signals, Signal::Fine) {
        return Ok(RibbonRow::FineOut(Position::new(number).unwrap()));
    }
    if has(signals, Signal::Coarse) {
        return Ok(RibbonRow::Coarse(Position::new(number).unwrap()));
    }
    let column = column_among(signals);
    let row = RowNo::new(number).unwrap();
    let s = has(signals, Signal::S);
    Ok(RibbonRow::Cell { column, row, s })
}

impl BadRow {
    /// Its number, from 1: the causes in the order of the variants.
    pub fn number(self) -> u8
        ensures { result ≡ cause_number self }
    {
        self as u8 + 1
    }
}
