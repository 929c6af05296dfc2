//! How an image that is no row reads in a message: `bit 31 is set`, `two numbers`.

ghost use Rattle.std.specs.Prelude.{◌≡◌};
ghost use Rattle.desk_image.specs.Words.{bad_image_words};

use crate::BadImage;
use std::error::Error;
use std::fmt;
use std::fmt::{Display, Formatter};

impl BadImage {
    /// Why an image is no row, in words.
    pub fn words(self) -> &'static str
        ensures { result.now ≡ bad_image_words self }
    {
        match self {
            BadImage::HighBit => "bit 31 is set",
            BadImage::Row(why) => why.words(),
        }
    }
}

impl Display for BadImage {
    ghost use Rattle.std.specs.Prelude.{Some};
    ghost use Rattle.desk_image.specs.Words.{bad_image_words};

    ghost output = { λ why. Some (bad_image_words why) };

    fn fmt<W: fmt::Write>(&self, f: &mut Formatter<W>) -> fmt::Result {
        f.write_str(self.words())
    }
}

impl Error for BadImage {}
