//! Names as a terminal shows them.

use std::fmt::{self, Display, Formatter};
use text_copy::is_directional;

/// A name of which each control character is written as `\x1b`, and each directional mark as `<U+202E>`. So a terminal
/// obeys nothing in it, and turns no line round. It takes no memory.
#[derive(Clone, Copy, Debug, PartialEq, Eq)]
pub struct Plain<'a>(pub &'a str);

fn write_char<W: fmt::Write>(f: &mut Formatter<W>, ch: char) -> fmt::Result {
    let code = ch as u32;
    if ch.is_control() {
        write!(f, "\\x{code:02x}")
    } else if is_directional(ch) {
        write!(f, "<U+{code:04X}>")
    } else {
        f.write_char(ch)
    }
}

impl<'a> Display for Plain<'a> {
    fn fmt<W: fmt::Write>(&self, f: &mut Formatter<W>) -> fmt::Result {
        for ch in self.0.chars() {
            write_char(f, ch)?;
        }
        Ok(())
    }
}
