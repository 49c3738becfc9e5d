//! The texts that scripts store as values.
ghost use Rattle.std.specs.Prelude.{◌≡◌, ◌↔◌, IfOk, IsTrue};
ghost use Rattle.std.specs.List.{list_all};
ghost use Rattle.moka_grammar.specs.Text.{IsText, is_text_byte};

use std::alloc::{AllocError, Allocator, Global};
use std::marker::Model;

/// The largest number of bytes of a text: enough to tell values apart, and a line stays short.
pub const LONGEST_TEXT: usize = 64;

/// A value of a script: letters, digits and dashes, at least one. A contract sees its bytes.
#[derive(Drop)]
pub struct Text<A: Allocator + Clone + Drop = Global> {
    bytes: Vec<u8, A>,
}

impl<A: Allocator + Clone + Drop> Model for Text<A> {
    ghost use Rattle.std.specs.Prelude.{List, ℕ};

    ghost Value = { List ℕ };

    ghost use Rattle.moka_grammar.specs.Text.{IsText};

    ghost view = { λ text. text.bytes.items };

    ghost invariant = { λ text. IsText text.bytes.items };
}

impl<A: Allocator + Clone + Drop> Clone for Text<A> {
    ghost is_clone = { λ text copy. copy ≡ text };

    /// Copies the text, into memory of its own.
    fn clone(&self) -> Result<Self, AllocError> {
        Text::new(self.bytes.allocator().clone()?, &self.bytes)
    }
}

fn is_text_byte(byte: u8) -> bool
    ensures { result ≡ is_text_byte byte }
{
    byte.is_ascii_alphanumeric() || byte == b'-'
}

fn are_text_bytes(bytes: &[u8]) -> bool
    ensures { result ≡ list_all is_text_byte bytes.now }
{
    bytes.iter().all(|byte| is_text_byte(*byte))
}

/// Returns `true` if the bytes are a text.
pub fn is_text(bytes: &[u8]) -> bool
    ensures { IsTrue result ↔ IsText bytes.now }
{
    if bytes.is_empty() || bytes.len() > LONGEST_TEXT {
        return false;
    }
    are_text_bytes(bytes)
}

impl<A: Allocator + Clone + Drop> Text<A> {
    /// Copies the bytes. `is_text` is the test.
    pub fn new(alloc: A, bytes: &[u8]) -> Result<Text<A>, AllocError>
        requires { IsText bytes.now }
        ensures { IfOk result (λ text. text ≡ bytes.now) }
    {
        Ok(Text {
            bytes: Vec::from_slice(alloc, bytes)?,
        })
    }

    /// Returns the bytes.
    pub fn as_bytes(&self) -> &[u8]
        ensures value { result.now ≡ self.now }
        ensures text { IsText result.now }
    {
        &self.bytes
    }
}
