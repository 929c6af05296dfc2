//! Bytes that are written whole, or reported as failed.

ghost use Rattle.std.specs.Prelude.{OnErr, OnOk};
ghost use Rattle.std.specs.Io.KnownBytes.{Appends, Keeps};
ghost use Rattle.feed_stored.specs.Sending.{WritesPrefix};

use std::io::Write;
use thiserror::Error;

/// The writer failed, or took no byte.
#[derive(Clone, Copy, Debug, PartialEq, Eq, Error)]
#[error("write fault")]
pub struct Unsent;

/// Writes the bytes. After an `Err`, as where the writer takes none of what is left, a prefix of them was written.
pub fn send<W: Write>(writer: &mut W, bytes: &[u8]) -> Result<(), Unsent>
    ensures ok { OnOk result (Appends (W.contents writer.old) (W.contents writer.new) bytes.now) }
    ensures err { OnErr result (WritesPrefix (W.contents writer.old) (W.contents writer.new) bytes.now) }
{
    let mut sent = 0;
    while sent < bytes.len() {
        match writer.write(&bytes[sent..]) {
            Ok(0) => return Err(Unsent),
            Ok(n) => sent += n,
            Err(_) => return Err(Unsent),
        }
    }
    Ok(())
}

/// Lets out what the writer holds back.
pub fn let_out<W: Write>(writer: &mut W) -> Result<(), Unsent>
    ensures { Keeps (W.contents writer.old) (W.contents writer.new) }
{
    writer.flush().map_err(|_| Unsent)
}

/// Writes a text whole, and lets it out. After an `Err` a prefix of it was written.
pub fn write_out<W: Write>(writer: &mut W, text: &[u8]) -> Result<(), Unsent>
    ensures ok { OnOk result (Appends (W.contents writer.old) (W.contents writer.new) text.now) }
    ensures err { OnErr result (WritesPrefix (W.contents writer.old) (W.contents writer.new) text.now) }
{
    send(writer, text)?;
    let_out(writer)
}
