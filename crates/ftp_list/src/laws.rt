//! Laws of the definitions, each the contract of a function without a body.
//!
//! The definitions of the forms are relations, so that they need not say how a split is found.
//! These laws say that nothing is lost by that: a line says one thing in each form.
ghost use Rattle.std.specs.Prelude.{◌≡◌, ℤ, Result, List, ℕ};
ghost use Rattle.ftp_list.specs.Entry.{Entry};
ghost use Rattle.ftp_list.specs.Listing.{IsPosix, IsDos};
ghost use Rattle.ftp_list.specs.declared.error.ParseError.{ParseError};

/// A line says one thing in the POSIX form at an instant.
pub fn posix_says_one_thing()
    ensures { (text : List ℕ) (nanosecond : ℤ) (a b : Result Entry ParseError)
        → IsPosix text nanosecond a → IsPosix text nanosecond b → a ≡ b }
{}

/// A line says one thing in the DOS form.
pub fn dos_says_one_thing()
    ensures { (text : List ℕ) (a b : Result Entry ParseError)
        → IsDos text a → IsDos text b → a ≡ b }
{}
