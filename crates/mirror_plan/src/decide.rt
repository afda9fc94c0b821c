//! What a plan does at one path.
ghost use Rattle.std.specs.Prelude.{◌≡◌};
ghost use Rattle.std.specs.List.{list_any};
ghost use Rattle.mirror_plan.specs.Listing.{standing};
ghost use Rattle.mirror_plan.specs.Paths.{is_below};
ghost use Rattle.mirror_plan.specs.Plan as plan;

use crate::action::Reason;
use crate::node::{Node, Policy, is_folder};
use crate::path::{RelativePath, is_below};
use crate::tree::{Tree, start_below};
use ftp_shared::PlaceName;

/// What stands at a path, or at the last name on the way to it that is there.
fn nearest(tree: &Tree, names: &[PlaceName]) -> Option<Node>
    ensures { result ≡ plan.nearest tree.now names.now }
{
    let mut reached = tree.at(&names[..0]);
    for end in 0..names.len() {
        let next = tree.at(&names[..end + 1]);
        if next.is_none() {
            return reached;
        }
        reached = next;
    }
    reached
}

fn shows_absence(node: Option<Node>) -> bool
    ensures { result ≡ plan.shows_absence node }
{
    match node {
        None => false,
        Some(Node::Folder { is_whole }) => is_whole,
        Some(
            Node::File {
                size: _,
                modified: _,
            },
        ) => false,
        Some(Node::Other) => false,
    }
}

/// Whether the tree was seen not to have a path.
pub(crate) fn is_gone(tree: &Tree, names: &[PlaceName]) -> bool
    ensures { result ≡ plan.is_gone tree.now names.now }
{
    tree.at(names).is_none() && shows_absence(nearest(tree, names))
}

/// Whether nothing is at a path and it can be made there.
fn is_free(tree: &Tree, names: &[PlaceName]) -> bool
    ensures { result ≡ plan.is_free tree.now names.now }
{
    tree.at(names).is_none() && is_folder(nearest(tree, names))
}

fn is_later(time: Option<i64>, other: Option<i64>) -> bool
    ensures { result ≡ plan.is_later time other }
{
    match (time, other) {
        (Some(time), Some(other)) => other < time,
        (Some(_), None) => false,
        (None, _) => false,
    }
}

fn is_stale(policy: Policy, size: u64, modified: Option<i64>, there: Option<Node>) -> bool
    ensures { result ≡ plan.is_stale policy size modified there }
{
    match there {
        None => false,
        Some(Node::Folder { is_whole: _ }) => false,
        Some(
            Node::File {
                size: old_size,
                modified: old_modified,
            },
        ) => size != old_size || (policy.newer && is_later(modified, old_modified)),
        Some(Node::Other) => false,
    }
}

/// Whether a node of the first tree is made or copied.
pub(crate) fn is_made(to: &Tree, policy: Policy, names: &[PlaceName], node: Node) -> bool
    ensures { result ≡ plan.is_made to.now policy names.now node }
{
    match node {
        Node::Folder { is_whole: _ } => is_free(to, names),
        Node::File { size, modified } => {
            is_free(to, names) || is_stale(policy, size, modified, to.at(names))
        }
        Node::Other => false,
    }
}

fn is_kept(node: Node) -> bool
    ensures { result ≡ plan.is_kept node }
{
    match node {
        Node::Folder { is_whole } => !is_whole,
        Node::File {
            size: _,
            modified: _,
        } => false,
        Node::Other => true,
    }
}

/// Whether something below a folder is never removed. What is below it comes directly after it.
fn holds_kept(to: &Tree, folder: &[PlaceName]) -> bool
    ensures { result ≡ plan.holds_kept to.now folder.now }
{
    let entries = to.entries();
    let start = start_below(entries, folder);
    for entry in &entries[start..] {
        if !is_below(entry.0.names(), folder) {
            return false;
        }
        if is_kept(entry.1) {
            return true;
        }
    }
    false
}

/// Whether a node of the second tree is removed.
pub(crate) fn is_removed(
    from: &Tree,
    to: &Tree,
    policy: Policy,
    names: &[PlaceName],
    node: Node,
) -> bool
    ensures { result ≡ plan.is_removed from.now to.now policy names.now node }
{
    policy.delete
        && is_gone(from, names)
        && !is_kept(node)
        && !(is_folder(Some(node)) && holds_kept(to, names))
}

/// Why a node of the first tree and what stands there in the second aren't made alike.
pub(crate) fn unlike(node: Node, there: Option<Node>) -> Option<Reason>
    ensures { result ≡ plan.unlike node there }
{
    match (node, there) {
        (Node::Other, _) => Some(Reason::NotAFileOrFolder),
        (_, Some(Node::Other)) => Some(Reason::NotAFileOrFolder),
        (_, None) => None,
        (Node::Folder { is_whole: _ }, Some(Node::Folder { is_whole: _ })) => None,
        (
            Node::File {
                size: _,
                modified: _,
            },
            Some(
                Node::File {
                    size: _,
                    modified: _,
                },
            ),
        ) => None,
        _ => Some(Reason::KindDiffers),
    }
}

fn reason_kept(node: Node) -> Reason
    ensures { result ≡ plan.reason_kept node }
{
    match node {
        Node::Other => Reason::NotAFileOrFolder,
        Node::Folder { is_whole: true } => Reason::NotEmptied,
        _ => Reason::ListingNotWhole,
    }
}

fn reason_left(above: Option<Node>, node: Node) -> Reason
    ensures { result ≡ plan.reason_left above node }
{
    match above {
        Some(Node::Folder { is_whole: true }) => reason_kept(node),
        Some(
            Node::File {
                size: _,
                modified: _,
            },
        ) => Reason::KindDiffers,
        Some(Node::Other) => Reason::NotAFileOrFolder,
        _ => Reason::ListingNotWhole,
    }
}

/// Why a node of the second tree that the first doesn't have isn't removed.
pub(crate) fn not_removed(
    from: &Tree,
    to: &Tree,
    policy: Policy,
    names: &[PlaceName],
    node: Node,
) -> Option<Reason>
    ensures { result ≡ plan.not_removed from.now to.now policy names.now node }
{
    if policy.delete && from.at(names).is_none() && !is_removed(from, to, policy, names, node) {
        Some(reason_left(nearest(from, names), node))
    } else {
        None
    }
}
