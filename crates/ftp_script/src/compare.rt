//! Bytes, compared with words.

ghost use Rattle.std.specs.Prelude.{◌≡◌, ◌≤◌, nat_eq, true, bytes_eq, length};
ghost use Rattle.std.specs.List.{starts_with};

/// Whether these bytes are the others.
pub(crate) fn is(bytes: &[u8], word: &[u8]) -> bool
    ensures { result ≡ bytes_eq bytes.now word.now }
{
    bytes == word
}

/// Whether bytes begin with a word.
pub(crate) fn begins_with(bytes: &[u8], word: &[u8]) -> bool
    ensures test { result ≡ starts_with nat_eq bytes.now word.now }
    ensures long { result ≡ true → length word.now ≤ length bytes.now }
{
    bytes.starts_with(word)
}
