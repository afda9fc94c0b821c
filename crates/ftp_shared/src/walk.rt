//! The order of a walk: which folder is listed next, what is entered, and where a walk ends. It lists nothing itself.
ghost use Rattle.std.specs.Prelude.{◌≡◌, ◌++◌, [], ◌∷◌, IfOk, IfSome, string_bytes, take};
ghost use Rattle.ftp_shared.specs.Places.{Enters, IsNext, folders_among, joined, listed_as};

use crate::place::Place;
use crate::visitor::{PassedOver, Visitor};
use ftp_base::types::{FtpResult, Response};
use ftp_list::{File, Listing};
use std::alloc::{AllocError, Global};

/// How far a walk goes.
#[derive(Clone, Copy, Debug, PartialEq, Eq)]
pub struct WalkLimits {
    /// How many names below the root an entry has at most.
    pub levels: usize,
    /// How many entries of a folder are shown at most.
    pub entries: usize,
}

impl Default for WalkLimits {
    /// 64 levels, and 1,000,000 entries of each folder.
    fn default() -> WalkLimits
        ensures { result ≡ record { levels = 64; entries = 1000000 } }
    {
        WalkLimits {
            levels: 64,
            entries: 1_000_000,
        }
    }
}

/// The folders that a walk has still to list, depth first: the last is listed next.
#[derive(Drop)]
pub struct Walk {
    root: String,
    limits: WalkLimits,
    folders: Vec<Place>,
}

impl Walk {
    /// A walk of the folder at this path, of which nothing was listed. An empty path is the current directory.
    ///
    /// # Errors
    /// `AllocError`.
    pub fn new(alloc: Global, root: &str, limits: WalkLimits) -> Result<Walk, AllocError>
        ensures folders { IfOk result (λ walk. walk.folders.items ≡ [] ∷ []) }
        ensures limits { IfOk result (λ walk. walk.limits ≡ limits) }
        ensures root { IfOk result (λ walk. string_bytes walk.root ≡ listed_as root.now) }
    {
        let mut folders = Vec::new(alloc);
        folders.push(Place::root(alloc))?;
        let root = if root.is_empty() { "." } else { root };
        Ok(Walk {
            root: String::from_str(alloc, root)?,
            limits,
            folders,
        })
    }

    /// The folder that is to be listed next, if there is one. One that lies too deep isn't: the visitor is told of it.
    ///
    /// # Errors
    /// The visitor's.
    pub fn next_folder<V: Visitor>(&mut self, visitor: &mut V) -> FtpResult<Option<Place>>
        ensures next { IfOk result (λ next. IsNext self.old.limits.levels self.old.folders.items
            next self.new.folders.items) }
        ensures limits { self.new.limits ≡ self.old.limits }
        ensures root { self.new.root ≡ self.old.root }
    {
        let levels = self.limits.levels;
        while let Some(folder) = self.folders.pop() {
            if folder.depth() < levels {
                return Ok(Some(folder));
            }
            visitor.passed_over(&folder, PassedOver::TooDeep)?;
        }
        Ok(None)
    }

    /// The path by which a folder is listed.
    ///
    /// # Errors
    /// `AllocError`.
    pub fn path(&self, alloc: Global, folder: &Place) -> Result<String, AllocError>
        ensures { IfOk result (λ path.
            string_bytes path ≡ joined (string_bytes self.now.root) folder.now) }
    {
        folder.below(alloc, self.root.as_str())
    }

    /// Shows the visitor each entry of a folder's listing once; the folders that it enters are listed next.
    ///
    /// # Errors
    /// The visitor's; `OutOfMemory`.
    pub fn visit<V: Visitor>(
        &mut self,
        alloc: Global,
        folder: &Place,
        listing: &Listing,
        visitor: &mut V,
    ) -> FtpResult<()>
        ensures entered { IfOk result (λ _. Enters folder.now
            (take self.old.limits.entries listing.now.files.items) self.old.folders.items
            self.new.folders.items) }
        ensures limits { self.new.limits ≡ self.old.limits }
        ensures root { self.new.root ≡ self.old.root }
    {
        let most = self.limits.entries.min(listing.files.len());
        let entries = &listing.files[..most];
        let mut entered = Vec::new(alloc);
        for entry in entries {
            if let Some(place) = shown(alloc, folder, entry, visitor)? {
                keep(&mut entered, place)?;
            }
        }
        pass_over(folder, listing, most, visitor)?;
        while let Some(place) = entered.pop() {
            keep(&mut self.folders, place)?;
        }
        Ok(())
    }

    /// Tells the visitor of a folder that the server refuses to list.
    ///
    /// # Errors
    /// The visitor's.
    pub fn refused<V: Visitor>(
        &mut self,
        folder: &Place,
        reply: &Response,
        visitor: &mut V,
    ) -> FtpResult<()> {
        visitor.passed_over(folder, PassedOver::Refused(reply))
    }
}

/// Shows an entry to the visitor, or that its name isn't plain. Returns its place where it is a folder that is entered.
///
/// # Errors
/// The visitor's; `OutOfMemory`.
fn shown<V: Visitor>(
    alloc: Global,
    folder: &Place,
    entry: &File,
    visitor: &mut V,
) -> FtpResult<Option<Place>>
    ensures { IfOk result (λ shown. IfSome shown (λ place.
        folders_among folder.now (entry.now ∷ []) ≡ place ∷ [])) }
{
    let Some(place) = folder.child(alloc, entry.name())? else {
        visitor.passed_over(folder, PassedOver::NotPlain(entry))?;
        return Ok(None);
    };
    if visitor.entry(&place, entry)? && entry.is_directory() {
        Ok(Some(place))
    } else {
        Ok(None)
    }
}

/// Tells the visitor what of a listing isn't shown to it: entries beyond so many, what only the server's system has, and
/// lines that can't be read.
///
/// # Errors
/// The visitor's.
fn pass_over<V: Visitor>(
    folder: &Place,
    listing: &Listing,
    most: usize,
    visitor: &mut V,
) -> FtpResult<()> {
    let more = listing.files.len().saturating_sub(most);
    if more > 0 {
        visitor.passed_over(folder, PassedOver::TooMany(more))?;
    }
    for other in &listing.others {
        visitor.passed_over(folder, PassedOver::Other(other))?;
    }
    for line in &listing.unread {
        visitor.passed_over(folder, PassedOver::Unread(line.as_str()))?;
    }
    Ok(())
}

/// Adds a folder to others.
fn keep(folders: &mut Vec<Place>, place: Place) -> Result<(), AllocError>
    ensures { IfOk result (λ _. folders.new.items ≡ folders.old.items ++ place ∷ []) }
{
    folders.push(place)?;
    Ok(())
}
