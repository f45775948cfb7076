//! What a text is written to.

ghost use Rattle.std.specs.Prelude.{OnOk, OnErr};
ghost use Rattle.bike_json.specs.Outputs.{Takes, Refuses};

use bike_stream::{WriteFault, write_whole};
use std::io::Write;

/// What a text is written to: any writer, which may refuse bytes, or `Discard`, which never does.
pub trait Output {
    ghost use Rattle.bike_json.specs.Outputs.{OutputState};

    // The bytes that it holds, where they are known, and whether it may refuse some.
    ghost contents: { Self → OutputState };

    /// Takes all the bytes. Fails only where it may refuse bytes, and then it has taken a front of them, and not all.
    fn put(&mut self, bytes: &[u8]) -> Result<(), WriteFault>
        ensures ok { OnOk result (Takes (contents self.old) (contents self.new) bytes.now) }
        ensures err { OnErr result (Refuses (contents self.old) (contents self.new) bytes.now) };
}

impl<W: Write> Output for W {
    ghost use Rattle.std.specs.Prelude.{true};

    ghost contents = { λ w. record { bytes = W.contents w; may_refuse = true } };

    fn put(&mut self, bytes: &[u8]) -> Result<(), WriteFault> {
        write_whole(self, bytes)
    }
}

/// Takes every byte and keeps none: a text that is written to it is only counted.
#[derive(Clone, Copy, Debug)]
pub struct Discard;

impl Output for Discard {
    ghost use Rattle.std.specs.Prelude.{None, false};

    ghost contents = { λ _. record { bytes = None; may_refuse = false } };

    fn put(&mut self, bytes: &[u8]) -> Result<(), WriteFault> {
        let _ = bytes;
        Ok(())
    }
}
