// Writers as sinks.
ghost use Rattle.std.specs.Prelude.{◌≡◌, false};

use crate::streams::{Fault, Sink};
use std::io::Write;

/// Any writer as a sink. A write that takes none of some bytes is a refused one, and so is an interrupted one.
#[derive(Drop)]
pub struct FromWrite<W: Write> {
    inner: W,
    failed: bool,
}

impl<W: Write> Sink for FromWrite<W> {
    ghost contents = { λ sink. W.contents sink.inner };

    ghost failed = { λ sink. sink.failed };

    fn write(&mut self, bytes: &[u8]) -> Result<usize, Fault> {
        match self.inner.write(bytes) {
            Ok(count) if count > 0 || bytes.is_empty() => Ok(count),
            _ => {
                self.failed = true;
                Err(Fault)
            }
        }
    }
}

impl<W: Write> FromWrite<W> {
    /// Makes a sink that appends to what the writer holds. It doesn't flush the writer.
    pub fn new(inner: W) -> FromWrite<W>
        ensures contents { ⟦<FromWrite<W> as Sink>⟧.contents result ≡ W.contents inner }
        ensures failed { ⟦<FromWrite<W> as Sink>⟧.failed result ≡ false }
    {
        FromWrite {
            inner,
            failed: false,
        }
    }

    /// Returns the writer, with what it holds.
    pub fn into_inner(self) -> W
        ensures { W.contents result ≡ ⟦<FromWrite<W> as Sink>⟧.contents self }
    {
        let FromWrite { inner, failed: _ } = self;
        inner
    }
}
