//! What stands at a path of a tree, and what a plan may do.

ghost use Rattle.std.specs.Prelude.{◌≡◌};
ghost use Rattle.mirror_plan.specs.Listing.{is_folder};

/// What stands at a path of a tree.
#[derive(Clone, Copy, Debug, PartialEq, Eq)]
pub enum Node {
    /// A folder.
    Folder {
        /// Whether it was listed to its end and no line of its listing was left unread.
        is_whole: bool,
    },
    /// A file.
    File {
        /// Its size in bytes.
        size: u64,
        /// When it was last changed, in seconds since 1970, if that is known.
        modified: Option<i64>,
    },
    /// A link, a device or whatever else is no file and no folder.
    Other,
}

/// What a plan may do beyond making folders and copying files.
#[derive(Clone, Copy, Debug, PartialEq, Eq)]
pub struct Policy {
    /// Whether it removes what the first tree was seen not to have.
    pub delete: bool,
    /// Whether it copies a file of the same size that is later in the first tree.
    pub newer: bool,
}

pub(crate) fn is_folder(node: Option<Node>) -> bool
    ensures { result ≡ is_folder node }
{
    match node {
        Some(Node::Folder { is_whole: _ }) => true,
        Some(
            Node::File {
                size: _,
                modified: _,
            },
        ) => false,
        Some(Node::Other) => false,
        None => false,
    }
}
