ghost use Rattle.std.specs.Prelude.{◌≡◌, ◌↔◌, IfOk, IfErr, IsOk, IsTrue};
ghost use Rattle.std.specs.Str.{IsUtf8, IsValidUpTo};

use crate::memory::OutOfMemory;
use std::alloc::Global;
use std::convert::AsStr;
use std::marker::Model;
use thiserror::Error;

/// A text: bytes that are UTF-8. Contracts see it as the list of its bytes.
#[derive(Debug, Drop)]
pub struct Text {
    store: Store,
}

/// Where the bytes of a text stand.
#[derive(Debug, Drop)]
enum Store {
    Owned(Vec<u8>),
    Fixed(&'static str),
}

impl Model for Text {
    ghost use Rattle.std.specs.Prelude.{List, ℕ};
    ghost use Rattle.std.specs.Str.{IsUtf8};

    ghost Value = { List ℕ };

    ghost use Rattle.fizz_text.specs.Text.{content};

    ghost view = { λ t. content t.store };

    ghost invariant = { λ t. IsUtf8 (content t.store) };
}

/// Bytes that are no text. They come back beside the length of their longest prefix that is UTF-8.
#[derive(Debug, Drop, Error)]
#[error("no UTF-8 from byte {valid} on")]
pub struct NotUtf8 {
    pub valid: usize,
    pub bytes: Vec<u8>,
}

impl Text {
    /// The text of these bytes, which are kept; refused exactly where they are not UTF-8.
    pub fn from_bytes(bytes: Vec<u8>) -> Result<Text, NotUtf8>
        ensures accepted { IsOk result ↔ IsUtf8 bytes.items }
        ensures kept { IfOk result (λ t. t ≡ bytes.items) }
        ensures longest { IfErr result (λ e. IsValidUpTo bytes.items e.valid) }
        ensures returned { IfErr result (λ e. e.bytes ≡ bytes) }
    {
        match str::from_utf8(&bytes) {
            Ok(_) => Ok(Text {
                store: Store::Owned(bytes),
            }),
            Err(e) => Err(NotUtf8 {
                valid: e.valid_up_to(),
                bytes,
            }),
        }
    }

    /// A text of the program's own.
    pub fn fixed(text: &'static str) -> Text
        ensures { result ≡ text.now }
    {
        Text {
            store: Store::Fixed(text),
        }
    }

    pub fn as_bytes(&self) -> &[u8]
        ensures value { result.now ≡ self.now }
        ensures utf8 { IsUtf8 result.now }
    {
        match &self.store {
            Store::Owned(bytes) => bytes.as_slice(),
            Store::Fixed(text) => text.as_bytes(),
        }
    }

    pub fn as_str(&self) -> &str
        ensures value { result.now ≡ self.now }
        ensures utf8 { IsUtf8 result.now }
    {
        // Each text is UTF-8 by its type, so nothing is tested again.
        unsafe { str::from_utf8_unchecked(self.as_bytes()) }
    }

    /// An equal text.
    pub fn copy(&self, alloc: Global) -> Result<Text, OutOfMemory>
        ensures { IfOk result (λ t. t ≡ self.now) }
    {
        match &self.store {
            Store::Owned(bytes) => Ok(Text {
                store: Store::Owned(Vec::from_slice(alloc, bytes)?),
            }),
            Store::Fixed(text) => Ok(Text::fixed(text)),
        }
    }
}

impl AsStr for Text {
    ghost text = { λ t. t };

    fn as_str(&self) -> &str {
        self.as_str()
    }
}
