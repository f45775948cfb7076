//! Writing all of some bytes.

ghost use Rattle.std.specs.Prelude.{OnOk, OnErr};
ghost use Rattle.std.specs.Io.KnownBytes.{Appends};
ghost use Rattle.bike_stream.specs.Writing.{AppendsFront};

use std::io::Write;
use thiserror::Error;

/// The output failed: a write ended in an error, or took no byte.
#[derive(Clone, Copy, Debug, PartialEq, Eq, Error)]
#[error("write failed")]
pub struct WriteFault;

/// Writes all the bytes, by as many writes as the writer needs, and takes no memory.
///
/// Fails where a write ends in an error (also one that says `Interrupted`) or takes no byte; then a front
/// of the bytes is written, and not all of them.
pub fn write_whole<W: Write>(writer: &mut W, bytes: &[u8]) -> Result<(), WriteFault>
    ensures ok { OnOk result (Appends (W.contents writer.old) (W.contents writer.new) bytes.now) }
    ensures err { OnErr result (AppendsFront (W.contents writer.old) (W.contents writer.new) bytes.now) }
{
    let mut done = 0;
    while done < bytes.len() {
        match writer.write(&bytes[done..]) {
            Ok(count) if count > 0 => done += count,
            _ => return Err(WriteFault),
        }
    }
    Ok(())
}
