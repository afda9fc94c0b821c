//! What a walk is for.

use crate::place::Place;
use ftp_base::types::{FtpResult, Response};
use ftp_list::{File, OtherFile};

/// What is shown each entry of a folder and of the folders below it.
///
/// A walk gives no path that leads elsewhere: each [`Place`] is plain names below the root of the walk. An error of its
/// methods ends the walk, which returns it.
pub trait Visitor: Drop {
    /// A file, folder or link, which stands at this place. Returns whether it is entered, where it is a folder; what a link
    /// leads to isn't looked at. Each entry of a folder is shown once, in the order of the listing, before the first entry
    /// of a folder in it.
    ///
    /// # Errors
    /// The visitor's own.
    fn entry(&mut self, place: &Place, entry: &File) -> FtpResult<bool>;

    /// Something in this folder, or the folder itself, is passed over, and the walk goes on. A visitor that doesn't
    /// implement this ignores it.
    ///
    /// # Errors
    /// The visitor's own.
    fn passed_over(&mut self, _folder: &Place, _what: PassedOver<'_>) -> FtpResult<()> {
        Ok(())
    }
}

impl<V: Visitor> Visitor for &mut V {
    fn entry(&mut self, place: &Place, entry: &File) -> FtpResult<bool> {
        (**self).entry(place, entry)
    }

    fn passed_over(&mut self, folder: &Place, what: PassedOver<'_>) -> FtpResult<()> {
        (**self).passed_over(folder, what)
    }
}

/// What a walk passes over in a folder.
#[derive(Clone, Copy, Debug)]
pub enum PassedOver<'l> {
    /// The folder itself: the server refuses to list it, by this reply.
    Refused(&'l Response),
    /// The folder itself: it lies as deep as the walk goes.
    TooDeep,
    /// So many entries, the last of the listing.
    TooMany(usize),
    /// An entry whose name isn't plain: it may lead elsewhere.
    NotPlain(&'l File),
    /// What only the server's system has, as a device.
    Other(&'l OtherFile),
    /// A line of the listing that can't be read.
    Unread(&'l str),
}
