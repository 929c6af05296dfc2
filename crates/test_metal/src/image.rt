use crate::rows::{cell_row, coarse, is_image, wedge_row};
use crate::words::is_worded;
use desk_image::{BadImage, Image};
use desk_signals::{BadRow, Column};
use std::alloc::Global;

/// Cells, each by its column, its row and S, and their images.
const CELLS: [(Column, u8, bool, u32); 5] = [
    (Column::A, 5, false, 0x4000_1000),
    (Column::A, 8, false, 0x4000_0200),
    (Column::G, 1, true, 0x0101_0001),
    (Column::O, 15, false, 0),
    (Column::O, 15, true, 1),
];

/// Settings of a wedge, each by 0005 and its number, and their images.
const SETTINGS: [(bool, u8, u32); 10] = [
    (false, 3, 0x4002),
    (false, 4, 0x2002),
    (false, 6, 0x0802),
    (false, 8, 0x0202),
    (false, 15, 0x0002),
    (true, 7, 0x0406),
    (true, 8, 0x0206),
    (true, 9, 0x0106),
    (true, 11, 0x0046),
    (true, 15, 0x0006),
];

#[test]
fn images_of_rows(rt: HostRuntime) {
    for &(column, number, s, bits) in &CELLS {
        assert!(rt; is_image(cell_row(column, number, s), bits), "{bits:08x}");
    }
    for &(fine, number, bits) in &SETTINGS {
        assert!(rt; is_image(wedge_row(fine, number), bits), "{bits:08x}");
    }
}

/// Images that are no rows, and why, in words too.
const UNLAWFUL: [(u32, BadImage, &str); 6] = [
    (0x8000_0000, BadImage::HighBit, "bit 31 is set"),
    (
        0x6000_0000,
        BadImage::Row(BadRow::TwoLetters),
        "two letters",
    ),
    (
        0x0001_8000,
        BadImage::Row(BadRow::TwoNumbers),
        "two numbers",
    ),
    (
        0x0000_0004,
        BadImage::Row(BadRow::FineAlone),
        "0005 without 0075",
    ),
    (
        0x4000_0002,
        BadImage::Row(BadRow::WedgeWithLetter),
        "0075 with a letter",
    ),
    (
        0x0000_0003,
        BadImage::Row(BadRow::WedgeWithS),
        "0075 with S",
    ),
];

/// Whether an image is no row for this reason, in these words.
fn is_unlawful(alloc: Global, bits: u32, why: BadImage, words: &str) -> bool {
    Image::new(bits).to_row() == Err(why) && is_worded(alloc, &why, words)
}

#[test]
fn unlawful_images(rt: HostRuntime) {
    for &(bits, why, words) in &UNLAWFUL {
        assert!(rt; is_unlawful(rt.alloc(), bits, why, words), "{words}");
    }
}

#[test]
fn picture_of_coarse_6(rt: HostRuntime) {
    let picture = Image::of_row(coarse(6)).picture();
    assert!(rt; picture.as_slice() == b"...................O.........O.".as_slice());
}
