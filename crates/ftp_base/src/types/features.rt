//! What a server can do beyond RFC 959, by its reply to FEAT (RFC 2389, section 3.2).
//!
//! A feature is a name and, where the line has a blank, a value: `MLST size*;modify*` has one, `SIZE` none. They
//! lie in a map, so each name stands once and they are gone through in the order of names, whatever the order of the
//! reply. A contract sees the names with their values, and not the map's tree.

ghost use Rattle.std.specs.Prelude.{◌≡◌, ◌==◌, [], length, not, is_none, Option, None, Some, MatchOption, OnOk, OnErr, string_bytes};
ghost use Rattle.std.specs.Option.{option_map};
ghost use Rattle.std.specs.Cmp.{partial_equiv_from_equiv};
ghost use Rattle.std.specs.Map.Iter.{ShowsInOrder, deref_pair};
ghost use Rattle.std.specs.declared.string.String.{String};
ghost use Rattle.std.specs.declared.alloc.Global.{Global};
ghost use Rattle.ftp_base.specs.Features.{Entries, is_same_map, is_same_map-IsEquivalence, shown, with_feature, value_at};

use std::alloc::{AllocError, Global};
use std::collections::BTreeMap;
use std::collections::btree_map::Iter;
use std::fmt;
use std::marker::Model;

/// The features of a server: for each name a value or none. A contract sees the names with their
/// values, in the order of names.
#[derive(Clone)]
pub struct Features {
    map: BTreeMap<String, Option<String>>,
}

impl Drop for Features {
    fn drop(self) {
        let Self { map } = self;
        drop(map);
    }
}

impl Model for Features {
    ghost Value = { Entries };

    ghost view = { λ features. shown features.map.entries };
}

impl Features {
    /// No features. Allocates nothing.
    pub fn new(alloc: Global) -> Features
        ensures { result ≡ [] }
    {
        Features {
            map: BTreeMap::new(alloc),
        }
    }

    /// Gives a name this value, in place of an earlier one.
    ///
    /// # Errors
    /// `AllocError`; then nothing has changed.
    pub fn insert(&mut self, name: String, value: Option<String>) -> Result<(), AllocError>
        ensures ok { OnOk result
            (self.new ≡ with_feature self.old (string_bytes name, option_map string_bytes value)) }
        ensures err { OnErr result (self.new ≡ self.old) }
    {
        self.map.insert(name, value)?;
        Ok(())
    }

    /// The value at a name, if the name is there.
    pub fn get(&self, name: &str) -> Option<&Option<String>>
        ensures { MatchOption result (value_at self.now name.now ≡ None)
            (λ value. value_at self.now name.now ≡ Some (option_map string_bytes value.now)) }
    {
        self.map.get(name)
    }

    /// Whether the name is there, with a value or without one.
    pub fn contains(&self, name: &str) -> bool
        ensures { result ≡ not (is_none (value_at self.now name.now)) }
    {
        self.get(name).is_some()
    }

    /// How many names there are.
    pub fn len(&self) -> usize
        ensures { result ≡ length self.now }
    {
        self.map.len()
    }

    /// Whether there is none.
    pub fn is_empty(&self) -> bool
        ensures { result ≡ (length self.now == 0) }
    {
        self.map.len() == 0
    }

    /// Each name with its value, in the order of names.
    pub fn iter(&self) -> Iter<'_, String, Option<String>>
        ensures rest { shown result ≡ self.now }
        ensures runs { ShowsInOrder (deref_pair {K = String Global} {X = Option (String Global)}) }
    {
        self.map.iter()
    }

    /// The features as a map.
    pub fn as_map(&self) -> &BTreeMap<String, Option<String>>
        ensures { shown result.now.entries ≡ self.now }
    {
        &self.map
    }

    /// The features as a map, in its memory.
    pub fn into_map(self) -> BTreeMap<String, Option<String>>
        ensures { shown result.entries ≡ self }
    {
        let Features { map } = self;
        map
    }
}

impl fmt::Debug for Features {
    fn fmt<W: fmt::Write>(&self, f: &mut fmt::Formatter<W>) -> fmt::Result {
        fmt::Debug::fmt(&self.map, f)
    }
}

impl PartialEq for Features {
    ghost eq = { is_same_map };

    ghost laws = { partial_equiv_from_equiv is_same_map-IsEquivalence };

    fn eq(&self, other: &Features) -> bool {
        self.map == other.map
    }
}

impl Eq for Features {
    ghost laws = { is_same_map-IsEquivalence };
}
