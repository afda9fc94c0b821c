//! Bytes and text that replies, commands and errors hold.
//!
//! A `Vec<u8>` and a `String` have a capacity and an address, which say nothing of what they hold. Here a contract
//! sees the bytes and nothing else, so that two replies with the same bytes are the same value. Both types are made
//! of the standard one and give it back in its memory, and are read as it is: `body[3]`, `text.trim()`.

ghost use Rattle.std.specs.Prelude.{◌≡◌, ℕ, List, [], ◌∷◌, ◌++◌, length, nat_eq, Some, IfOk, OnOk, OnErr, string_bytes};
ghost use Rattle.std.specs.Cmp.Lexicographic.{pointwise};
ghost use Rattle.std.specs.Cmp.Rules.{hashing};
ghost use Rattle.std.specs.Hash as fed;
ghost use Rattle.std.proofs.Common.{rules};

use std::alloc::{AllocError, Global};
use std::fmt;
use std::hash::{Hash, Hasher};
use std::marker::Model;
use std::ops::{DerefSlice, DerefStr};

/// A list of bytes, made from a `Vec<u8>` and given back as one without taking memory.
#[derive(Clone)]
pub struct Bytes {
    items: Vec<u8>,
}

impl Drop for Bytes {
    fn drop(self) {
        let Self { items } = self;
        drop(items);
    }
}

impl Model for Bytes {
    ghost Value = { List ℕ };

    ghost view = { λ bytes. bytes.items.items };
}

impl Bytes {
    /// No bytes. Allocates nothing.
    pub fn new(alloc: Global) -> Bytes
        ensures { result ≡ [] }
    {
        Bytes {
            items: Vec::new(alloc),
        }
    }

    /// A copy of these bytes.
    ///
    /// # Errors
    /// `AllocError`.
    pub fn from_slice(alloc: Global, items: &[u8]) -> Result<Bytes, AllocError>
        ensures { IfOk result (λ bytes. bytes ≡ items.now) }
    {
        Ok(Bytes {
            items: Vec::from_slice(alloc, items)?,
        })
    }

    /// The bytes of a vector, in its memory.
    pub fn from_vec(items: Vec<u8>) -> Bytes
        ensures { result ≡ items.items }
    {
        Bytes { items }
    }

    /// The bytes as a vector, in their memory.
    pub fn into_vec(self) -> Vec<u8>
        ensures { result.items ≡ self }
    {
        let Bytes { items } = self;
        items
    }

    /// The bytes as a slice.
    pub fn as_slice(&self) -> &[u8]
        ensures { result.now ≡ self.now }
    {
        self.items.as_slice()
    }

    /// How many bytes there are.
    pub fn len(&self) -> usize
        ensures { result ≡ length self.now }
    {
        self.items.len()
    }

    /// Whether there is no byte.
    pub fn is_empty(&self) -> bool
        ensures { result ≡ nat_eq (length self.now) 0 }
    {
        self.items.is_empty()
    }

    /// Adds a byte at the end.
    ///
    /// # Errors
    /// `AllocError`; then nothing has changed.
    pub fn push(&mut self, byte: u8) -> Result<(), AllocError>
        ensures ok { OnOk result (self.new ≡ self.old ++ byte ∷ []) }
        ensures err { OnErr result (self.new ≡ self.old) }
    {
        self.items.push(byte)?;
        Ok(())
    }

    /// Adds bytes at the end.
    ///
    /// # Errors
    /// `AllocError`; then nothing has changed.
    pub fn extend_from_slice(&mut self, more: &[u8]) -> Result<(), AllocError>
        ensures ok { OnOk result (self.new ≡ self.old ++ more.now) }
        ensures err { OnErr result (self.new ≡ self.old) }
    {
        self.items.extend_from_slice(more)
    }

    /// Drops all bytes and keeps their memory.
    pub fn clear(&mut self)
        ensures { self.new ≡ [] }
    {
        self.items.clear();
    }
}

/// So `body[3]`, `body.iter()` and the other methods of a slice work.
impl DerefSlice for Bytes {
    type Elem = u8;

    ghost deref_gives = { λ bytes items. items ≡ bytes };

    fn deref(&self) -> &[u8] {
        self.items.as_slice()
    }
}

/// As [`Bytes::from_vec`].
impl From<Vec<u8>> for Bytes {
    ghost from_gives = { λ items bytes. bytes ≡ items.items };

    fn from(items: Vec<u8>) -> Bytes {
        Bytes { items }
    }
}

impl fmt::Debug for Bytes {
    fn fmt<W: fmt::Write>(&self, f: &mut fmt::Formatter<W>) -> fmt::Result {
        fmt::Debug::fmt(&self.items, f)
    }
}

impl PartialEq for Bytes {
    ghost eq = { pointwise nat_eq };

    ghost laws = { Prim.search rules };

    fn eq(&self, other: &Bytes) -> bool {
        self.items == other.items
    }
}

impl Eq for Bytes {
    ghost laws = { Prim.search rules };
}

/// A text, made from a `String` and given back as one without taking memory.
#[derive(Clone)]
pub struct Text {
    text: String,
}

impl Drop for Text {
    fn drop(self) {
        let Self { text } = self;
        drop(text);
    }
}

impl Model for Text {
    ghost Value = { List ℕ };

    ghost view = { λ text. string_bytes text.text };
}

impl Text {
    /// A copy of a text.
    ///
    /// # Errors
    /// `AllocError`.
    pub fn from_str(alloc: Global, text: &str) -> Result<Text, AllocError>
        ensures { IfOk result (λ copy. copy ≡ text.now) }
    {
        Ok(Text {
            text: String::from_str(alloc, text)?,
        })
    }

    /// A string, in its memory.
    pub fn from_string(text: String) -> Text
        ensures { result ≡ string_bytes text }
    {
        Text { text }
    }

    /// The text as a string, in its memory.
    pub fn into_string(self) -> String
        ensures { string_bytes result ≡ self }
    {
        let Text { text } = self;
        text
    }

    /// The text as a slice.
    pub fn as_str(&self) -> &str
        ensures { result.now ≡ self.now }
    {
        self.text.as_str()
    }
}

/// So `text.trim()` and the other methods of a `&str` work.
impl DerefStr for Text {
    ghost deref_gives = { λ text bytes. bytes ≡ text };

    fn deref(&self) -> &str {
        self.text.as_str()
    }
}

/// As [`Text::from_string`].
impl From<String> for Text {
    ghost from_gives = { λ string text. text ≡ string_bytes string };

    fn from(text: String) -> Text {
        Text { text }
    }
}

impl fmt::Display for Text {
    ghost output = { λ text. Some text };

    fn fmt<W: fmt::Write>(&self, f: &mut fmt::Formatter<W>) -> fmt::Result {
        f.write_str(self.text.as_str())
    }
}

impl fmt::Debug for Text {
    fn fmt<W: fmt::Write>(&self, f: &mut fmt::Formatter<W>) -> fmt::Result {
        fmt::Debug::fmt(&self.text, f)
    }
}

impl PartialEq for Text {
    ghost eq = { pointwise nat_eq };

    ghost laws = { Prim.search rules };

    fn eq(&self, other: &Text) -> bool {
        self.text == other.text
    }
}

impl Eq for Text {
    ghost laws = { Prim.search rules };
}

impl Hash for Text {
    ghost hash_input = { fed.str };

    ghost respects_eq = { Prim.search (hashing, rules) };

    fn hash<H: Hasher>(&self, state: &mut H) {
        self.text.as_str().hash(state);
    }
}
