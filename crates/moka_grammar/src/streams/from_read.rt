// Readers as sources.
ghost use Rattle.std.specs.Prelude.{◌≡◌, false};

use crate::streams::{Fault, Source};
use std::io::Read;

/// Any reader as a source. An interrupted read is a refused one: it isn't tried again.
#[derive(Drop)]
pub struct FromRead<R: Read> {
    inner: R,
    failed: bool,
}

impl<R: Read> Source for FromRead<R> {
    ghost remaining = { λ source. R.remaining source.inner };

    ghost failed = { λ source. source.failed };

    fn read(&mut self, buffer: &mut [u8]) -> Result<usize, Fault> {
        match self.inner.read(buffer) {
            Ok(count) => Ok(count),
            Err(_) => {
                self.failed = true;
                Err(Fault)
            }
        }
    }
}

impl<R: Read> FromRead<R> {
    /// Makes a source of what the reader has left.
    pub fn new(inner: R) -> FromRead<R>
        ensures remaining { ⟦<FromRead<R> as Source>⟧.remaining result ≡ R.remaining inner }
        ensures failed { ⟦<FromRead<R> as Source>⟧.failed result ≡ false }
    {
        FromRead {
            inner,
            failed: false,
        }
    }

    /// Returns the reader, with what it has left.
    pub fn into_inner(self) -> R
        ensures { R.remaining result ≡ ⟦<FromRead<R> as Source>⟧.remaining self }
    {
        let FromRead { inner, failed: _ } = self;
        inner
    }
}
