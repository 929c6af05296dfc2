//! All images of at most two letters and two numbers, with and without 0005, 0075 and S. The numbers here are those of
//! the independent program, as tests/images.py makes and compares them.

use desk_image::{BadImage, Image};
use desk_signals::RibbonRow;
use std::alloc::{AllocError, Global};
use std::test::Fail;

/// The digest of all answers.
const DIGEST: u64 = 6_586_561_702_719_628_372;

/// How often each answer comes: cells, rows of the one wedge and of the other, and then the causes by number.
const COUNTS: [u32; 8] = [510, 15, 15, 75_472, 12_376, 510, 960, 30];

/// Which answer a row is among the counted, and its number in the digest.
fn reported_of_row(row: &RibbonRow) -> (usize, u32) {
    match row {
        RibbonRow::Cell { column, row, s } => {
            let place = 100 * column.index() as u32 + 2 * row.get() as u32;
            (0, 1000 + place + if *s { 1 } else { 0 })
        }
        RibbonRow::Coarse(position) => (1, 5000 + position.get() as u32),
        RibbonRow::FineOut(position) => (2, 6000 + position.get() as u32),
    }
}

/// The same of an image.
fn reported(image: Image) -> (usize, u32) {
    match image.to_row() {
        Ok(row) => reported_of_row(&row),
        Err(BadImage::Row(why)) => (
            2usize.saturating_add(why.number() as usize),
            why.number() as u32,
        ),
        Err(BadImage::HighBit) => (8, 9),
    }
}

/// The masks of at most two of 14 signals.
fn few(alloc: Global) -> Result<Vec<u32>, AllocError> {
    let mut few = Vec::new(alloc);
    for mask in 0..16384u32 {
        if mask.count_ones() <= 2 {
            few.push(mask)?;
        }
    }
    Ok(few)
}

/// What was reported of the images so far: a digest, how often each answer came, and whether each row's image is the
/// one that it was read from.
struct Tally {
    digest: u64,
    counts: [u32; 8],
    alike: bool,
}

/// Adds what is reported of an image.
fn report(tally: &mut Tally, image: Image) {
    let (which, number) = reported(image);
    tally.digest = (tally.digest ^ number as u64).wrapping_mul(1_099_511_628_211);
    if let Some(count) = tally.counts.get_mut(which) {
        *count = count.saturating_add(1);
    }
    if let Ok(row) = image.to_row() {
        tally.alike &= Image::of_row(row) == image;
    }
}

/// Adds what is reported of the images of these letters and numbers.
fn report_of(tally: &mut Tally, letters: u32, numbers: u32) {
    for last in 0..8u32 {
        let bits = letters.wrapping_shl(17) | numbers.wrapping_shl(3) | last;
        report(tally, Image::new(bits));
    }
}

/// What is reported of all images of these masks.
fn reported_of_all(few: &[u32]) -> Tally {
    let mut tally = Tally {
        digest: 14_695_981_039_346_656_037,
        counts: [0; 8],
        alike: true,
    };
    for letters in few {
        for numbers in few {
            report_of(&mut tally, *letters, *numbers);
        }
    }
    tally
}

#[test]
fn every_image_of_two_letters_and_two_numbers(rt: HostRuntime) -> Result<(), Fail> {
    let few = few(rt.alloc())?;
    let Tally {
        digest,
        counts,
        alike,
    } = reported_of_all(few.as_slice());
    assert!(rt;
        few.len() == 106 && alike && digest == DIGEST && counts == COUNTS,
        "{digest} {counts:?}"
    );
    Ok(())
}
