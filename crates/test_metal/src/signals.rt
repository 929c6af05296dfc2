use crate::rows::{cell_row, is_read, shows, wedge_row};
use crate::words::is_worded;
use desk_signals::Signal::{A, B, Coarse, Eight, Fine, Fourteen, G, One, S, Two};
use desk_signals::{BadRow, Column, Position, RowNo, Signal, from_signals};
use std::alloc::Global;

/// Numbers, and whether they are in range.
const NUMBERS: [(u8, bool); 6] = [
    (0, false),
    (1, true),
    (9, true),
    (15, true),
    (16, false),
    (255, false),
];

/// Whether a number is one of a row and of a position, which is then this number, or is neither.
fn is_in_range(number: u8, lawful: bool) -> bool {
    match (RowNo::new(number), Position::new(number)) {
        (Some(row), Some(position)) => lawful && row.get() == number && position.get() == number,
        (None, None) => !lawful,
        _ => false,
    }
}

#[test]
fn numbers_in_range(rt: HostRuntime) {
    for &(number, lawful) in &NUMBERS {
        assert!(rt; is_in_range(number, lawful), "{number}");
    }
}

/// Cells, each by its column, its row and S, and their signals.
static CELLS: [(Column, u8, bool, &[Signal]); 2] = [
    (Column::G, 1, true, &[G, One, S]),
    (Column::O, 15, false, &[]),
];

/// Settings of a wedge, each by 0005 and its number, and their signals.
static SETTINGS: [(bool, u8, &[Signal]); 3] = [
    (false, 15, &[Coarse]),
    (true, 15, &[Fine, Coarse]),
    (true, 14, &[Fourteen, Fine, Coarse]),
];

#[test]
fn images_of_rows(rt: HostRuntime) {
    for &(column, number, s, signals) in &CELLS {
        assert!(rt; shows(cell_row(column, number, s), signals), "{signals:?}");
    }
    for &(fine, number, signals) in &SETTINGS {
        assert!(rt; shows(wedge_row(fine, number), signals), "{signals:?}");
    }
}

/// Signals that are no row, and why.
static UNLAWFUL: [(&[Signal], BadRow); 7] = [
    (&[A, B, Fine], BadRow::TwoLetters),
    (&[One, Two], BadRow::TwoNumbers),
    (&[A, Fine], BadRow::FineAlone),
    (&[A, Fine, Coarse, S], BadRow::WedgeWithLetter),
    (&[Coarse, S], BadRow::WedgeWithS),
    (&[A, A], BadRow::Repeated),
    (&[S, A, B, S], BadRow::Repeated),
];

/// Whether signals are no row for this reason.
fn is_unlawful(signals: &[Signal], why: BadRow) -> bool {
    from_signals(signals) == Err(why)
}

#[test]
fn unlawful_images(rt: HostRuntime) {
    for &(signals, why) in &UNLAWFUL {
        assert!(rt; is_unlawful(signals, why), "{why:?}");
    }
}

const FAULTS: [(BadRow, u8, &str); 6] = [
    (BadRow::TwoLetters, 1, "two letters"),
    (BadRow::TwoNumbers, 2, "two numbers"),
    (BadRow::FineAlone, 3, "0005 without 0075"),
    (BadRow::WedgeWithLetter, 4, "0075 with a letter"),
    (BadRow::WedgeWithS, 5, "0075 with S"),
    (BadRow::Repeated, 6, "a signal stands twice"),
];

/// Whether a fault has this number and these words.
fn is_reported(alloc: Global, why: BadRow, number: u8, words: &str) -> bool {
    is_worded(alloc, &why, words) && why.number() == number
}

#[test]
fn names_its_faults(rt: HostRuntime) {
    for &(why, number, words) in &FAULTS {
        assert!(rt; is_reported(rt.alloc(), why, number, words), "{words}");
    }
}

/// Few signals, and the cells that they are: column, row and S.
static FEW: [(&[Signal], Column, u8, bool); 3] = [
    (&[], Column::O, 15, false),
    (&[S], Column::O, 15, true),
    (&[S, One, G], Column::G, 1, true),
];

#[test]
fn rows_of_few_signals(rt: HostRuntime) {
    for &(signals, column, number, s) in &FEW {
        assert!(rt;
            is_read(cell_row(column, number, s), signals),
            "{signals:?}"
        );
    }
    assert!(rt; is_read(wedge_row(true, 8), &[Coarse, Eight, Fine]));
}
