//! The lines of a listing, as an answer holds them.

ghost use Rattle.std.specs.Prelude.{◌≡◌, ℕ, List, map, string_bytes};

use std::marker::Model;

/// Lines of text, made from a `Vec<String>` and given back as one without taking memory.
pub struct Lines {
    lines: Vec<String>,
}

impl Drop for Lines {
    fn drop(self) {
        let Self { lines } = self;
        drop(lines);
    }
}

impl Model for Lines {
    ghost Value = { List (List ℕ) };

    ghost view = { λ l. map string_bytes l.lines.items };
}

impl Lines {
    /// The lines of a vector, in its memory.
    pub fn from_vec(lines: Vec<String>) -> Lines
        ensures { result ≡ map string_bytes lines.items }
    {
        Lines { lines }
    }

    /// The lines as a vector, in their memory.
    pub fn into_vec(self) -> Vec<String>
        ensures { map string_bytes result.items ≡ self }
    {
        let Lines { lines } = self;
        lines
    }

    /// The lines as a slice.
    pub fn as_slice(&self) -> &[String]
        ensures { map string_bytes result.now ≡ self.now }
    {
        &self.lines
    }
}
