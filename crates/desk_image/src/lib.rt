//! Images of ribbon rows: the 31 channels of a row as the bits of a number.
//!
//! Everything else speaks of rows by their signals; images are for what comes from outside or goes there. So any number
//! is read, and one that is the image of no row is refused with its first cause.
#![tactic(auto)]

ghost use Rattle.std.specs.Prelude.{◌≡◌, ℕ, ◌-◌, ◌^◌, ◌<◌, if◌then◌else◌, ◌==◌, IfOk, slice_index};
ghost use Rattle.std.specs.Result.{result_err};
ghost use Rattle.std.specs.Int.{bit_at};
ghost use Rattle.desk_signals.specs.declared.RibbonRow.{RibbonRow};
ghost use Rattle.desk_signals.specs.Rows.{IsRow};
ghost use Rattle.desk_image.specs.Images.{bit, image, image_fault, signals_in};

pub mod laws;
pub mod words;

use arrayvec::ArrayVec;
use desk_signals::{BadRow, RibbonRow, SIGNALS, Signal, from_signals};
use std::marker::Model;

/// The image of a row: its signals as bits, the first signal at bit 30 and the last at bit 0.
#[derive(Clone, Copy, PartialEq, Eq, Debug)]
pub struct Image(u32);

impl Model for Image {
    ghost use Rattle.std.specs.Prelude.{ℕ};

    ghost Value = { ℕ };

    ghost view = { λ image. image.0 };

    ghost inverse = { λ n. record { 0 = n } };
}

/// Why an image is no row.
#[derive(Clone, Copy, PartialEq, Eq, Debug)]
pub enum BadImage {
    /// Bit 31 is set.
    HighBit,
    Row(BadRow),
}

impl From<BadRow> for BadImage {
    ghost use Rattle.desk_image.specs.declared.BadImage.TheVariants as bad;

    ghost from_gives = { λ why image. image ≡ bad.Row why };

    fn from(why: BadRow) -> BadImage {
        BadImage::Row(why)
    }
}

/// The bit of a signal in an image.
fn bit(signal: Signal) -> u32
    ensures value { result ≡ bit signal }
    ensures small { result < 31 }
{
    30 - signal as u32
}

impl Image {
    /// The image of these 32 bits, lawful or not.
    pub fn new(bits: u32) -> Image
        ensures { result ≡ bits }
    {
        Image(bits)
    }

    /// Its 32 bits.
    pub fn bits(self) -> u32
        ensures { result ≡ self }
    {
        self.0
    }

    /// The image of a row.
    pub fn of_row(row: RibbonRow) -> Image
        ensures { result ≡ image row }
    {
        let signals = row.signals();
        let mut bits: u32 = 0;
        for &signal in signals.as_slice() {
            bits |= 1 << bit(signal);
        }
        Image::new(bits)
    }

    /// The signals whose bits are set, in signal order. It takes one step for each of them, from the highest bit down.
    fn signals(self) -> ArrayVec<Signal, 31>
        requires { self < 2 ^ 31 }
        ensures { result.items ≡ signals_in self }
    {
        // A reference: an index into the constant itself copies it whole at each step.
        let table = &SIGNALS;
        let mut signals: ArrayVec<Signal, 31> = ArrayVec::new();
        let mut rest = self.0;
        while rest != 0 {
            let high = rest.ilog2();
            signals.push(table[30 - high as usize]);
            rest -= 1 << high;
        }
        signals
    }

    /// The row of an image. `HighBit` comes first, then the causes of `from_signals`.
    pub fn to_row(self) -> Result<RibbonRow, BadImage>
        ensures fault { result_err result ≡ image_fault self }
        ensures row { IfOk result (λ row. IsRow row) }
        ensures image { IfOk result (λ row. image row ≡ self) }
        ensures every_row { (row : RibbonRow) → IsRow row → image row ≡ self → result ≡ Ok row }
    {
        if self.0 >= 0x8000_0000 {
            return Err(BadImage::HighBit);
        }
        let row = from_signals(&self.signals())?;
        Ok(row)
    }

    /// The 31 channels, bit 30 first: `O` for a hole and `.` for none.
    pub fn picture(self) -> [u8; 31]
        ensures { (k : ℕ) → k < 31 → slice_index result k ≡ (if bit_at self (30 - k) == 1 then 79 else 46) }
    {
        let mut picture = [b'.'; 31];
        for place in 0..31 {
            if (self.0 >> (30 - place)) & 1 == 1 {
                picture[place] = b'O';
            }
        }
        picture
    }
}
