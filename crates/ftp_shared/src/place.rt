//! A place below the root of a walk.
//!
//! A server may list any name. A place is plain names alone, so that its path can't lead out of the folder that it is put
//! below, there or here.
ghost use Rattle.std.specs.Prelude.{◌≡◌, ◌++◌, [], ◌∷◌, ◌==◌, true, false, length, IfOk, IfSome, IsTrue, Ok, None, ◌↔◌, string_bytes};
ghost use Rattle.std.specs.Ordering.{nat_cmp, as_partial_cmp};
ghost use Rattle.std.specs.Cmp.{partial_order_from_own_ties};
ghost use Rattle.std.specs.Cmp.Lexicographic.{pointwise, slice_cmp};
ghost use Rattle.std.specs.Cmp.Rules.{comparing};
ghost use Rattle.std.proofs.Common.{rules};
ghost use Rattle.ftp_list.specs.Names.{is_plain_name};
ghost use Rattle.ftp_shared.specs.Places.{are_plain, entered, joined};

use ftp_list::is_plain_name;
use std::alloc::{AllocError, Global};
use std::cmp::Ordering;
use std::marker::Model;

/// A name of a [`Place`]. Names are in the order of their bytes.
#[derive(Clone, Debug, Drop)]
pub struct PlaceName {
    text: String,
}

impl Model for PlaceName {
    ghost use Rattle.std.specs.Prelude.{ℕ, List, string_bytes};

    ghost Value = { List ℕ };

    ghost view = { λ name. string_bytes name.text };
}

impl PlaceName {
    /// A copy of a name.
    fn from_str(alloc: Global, text: &str) -> Result<PlaceName, AllocError>
        ensures { IfOk result (λ name. name ≡ text.now) }
    {
        Ok(PlaceName {
            text: String::from_str(alloc, text)?,
        })
    }

    /// The name as text.
    pub fn as_str(&self) -> &str
        ensures { result.now ≡ self.now }
    {
        self.text.as_str()
    }
}

impl PartialEq for PlaceName {
    ghost eq = { pointwise ◌==◌ };

    ghost laws = { Prim.search rules };

    fn eq(&self, other: &PlaceName) -> bool {
        self.text == other.text
    }
}

impl Eq for PlaceName {
    ghost laws = { Prim.search rules };
}

impl PartialOrd for PlaceName {
    ghost partial_cmp = { as_partial_cmp (slice_cmp nat_cmp) };

    ghost laws = { partial_order_from_own_ties (Prim.search (comparing, rules)) (Prim.search (comparing, rules)) };

    fn partial_cmp(&self, other: &PlaceName) -> Option<Ordering> {
        Some(self.cmp(other))
    }
}

impl Ord for PlaceName {
    ghost cmp = { slice_cmp nat_cmp };

    ghost total = { Prim.search (comparing, rules) };

    ghost matches_partial_cmp = { Prim.search (comparing, rules) };

    ghost matches_eq = { Prim.search (comparing, rules) };

    fn cmp(&self, other: &PlaceName) -> Ordering {
        self.text.as_str().cmp(&other.text.as_str())
    }
}

/// What stands below the root of a walk, or the root itself: plain names, the outermost first.
///
/// Contracts see it as the list of its names.
#[derive(Debug, Drop)]
pub struct Place {
    names: Vec<PlaceName>,
}

impl Model for Place {
    ghost use Rattle.std.specs.Prelude.{IsTrue};
    ghost use Rattle.ftp_shared.specs.Places.{Names, are_plain};

    ghost Value = { Names };

    ghost view = { λ place. place.names.items };

    ghost invariant = { λ place. IsTrue (are_plain place.names.items) };
}

impl Clone for Place {
    ghost is_clone = { λ old new. new ≡ old };

    /// The same place.
    fn clone(&self) -> Result<Place, AllocError> {
        Ok(Place {
            names: self.names.clone()?,
        })
    }
}

impl Place {
    /// The root itself.
    pub fn root(alloc: Global) -> Place
        ensures { result ≡ [] }
    {
        Place {
            names: Vec::new(alloc),
        }
    }

    /// The place of a name in the folder of this place; none where the name isn't plain ([`is_plain_name`]).
    ///
    /// # Errors
    /// `AllocError`.
    pub fn child(&self, alloc: Global, name: &str) -> Result<Option<Place>, AllocError>
        ensures none { (result ≡ Ok None) ↔ (is_plain_name name.now ≡ false) }
        ensures place { IfOk result (λ child. IfSome child (λ place.
            (is_plain_name name.now ≡ true) × (place ≡ self.now ++ name.now ∷ []))) }
    {
        if !is_plain_name(name) {
            return Ok(None);
        }
        let Place { mut names } = self.clone()?;
        names.push(PlaceName::from_str(alloc, name)?)?;
        Ok(Some(Place { names }))
    }

    /// How many names it has: none at the root.
    pub fn depth(&self) -> usize
        ensures { result ≡ length self.now }
    {
        self.names.len()
    }

    /// The names, the outermost first.
    pub fn names(&self) -> &[PlaceName]
        ensures names { result.now ≡ self.now }
        ensures plain { IsTrue (are_plain result.now) }
    {
        self.names.as_slice()
    }

    /// The path of the place below a folder, which may be another than the root of the walk: the folder's path, and then
    /// each name after a `/`, but for one that the folder's path ends with, or after an empty one.
    ///
    /// # Errors
    /// `AllocError`.
    pub fn below(&self, alloc: Global, folder: &str) -> Result<String, AllocError>
        ensures path { IfOk result (λ path. string_bytes path ≡ joined folder.now self.now) }
        ensures plain { IsTrue (are_plain self.now) }
    {
        let names = self.names.as_slice();
        let mut path = String::from_str(alloc, folder)?;
        for name in names {
            enter(&mut path)?;
            path.push_str(name.as_str())?;
        }
        Ok(path)
    }
}

/// Adds to a folder's path what stands before a name in it.
fn enter(path: &mut String) -> Result<(), AllocError>
    ensures { IfOk result (λ _. string_bytes path.new ≡ entered (string_bytes path.old)) }
{
    if !path.is_empty() && !path.as_bytes().ends_with(b"/") {
        path.push('/')?;
    }
    Ok(())
}
