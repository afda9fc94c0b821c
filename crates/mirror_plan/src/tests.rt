//! Names that lead nowhere, outcomes of insertions, and plans in full.

use crate::action::{Action, Plan};
use crate::node::{Node, Policy};
use crate::path::{PathError, RelativePath};
use crate::planning::plan;
use crate::tree::{InsertError, Tree};
use std::alloc::{AllocError, Global};
use std::test::Fail;

const HOSTILE: [&str; 9] = [
    "../../.ssh/authorized_keys",
    "/etc/passwd",
    "a/b",
    "a\\b",
    "a\0",
    "a\r\n",
    ".",
    "..",
    "",
];

#[test]
fn no_hostile_name_makes_a_path(rt: HostRuntime) -> Result<(), Fail> {
    let folder = RelativePath::of_name(rt.alloc(), "folder")?;
    for name in HOSTILE {
        let alone = RelativePath::of_name(rt.alloc(), name);
        assert!(rt; matches!(alone, Err(PathError::NotPlain)), "{name:?}");
        let below = folder.child(rt.alloc(), name);
        assert!(rt; matches!(below, Err(PathError::NotPlain)), "{name:?}");
    }
    Ok(())
}

#[test]
fn a_path_is_written_below_a_root(rt: HostRuntime) -> Result<(), Fail> {
    let path = path(rt.alloc(), &["a", "..b", "c d"])?;
    assert_eq!(rt;
        path.below(rt.alloc(), "/home/mirror")?.as_str(),
        "/home/mirror/a/..b/c d"
    );
    assert_eq!(rt; path.name(), "c d");
    assert_eq!(rt; path.depth(), 3);
    Ok(())
}

fn path(alloc: Global, names: &[&str]) -> Result<RelativePath, Fail> {
    let mut made = None;
    for name in names {
        let next = match made {
            None => RelativePath::of_name(alloc, name)?,
            Some(folder) => RelativePath::child(&folder, alloc, name)?,
        };
        made = Some(next);
    }
    Ok(made.ok_or("no names")?)
}

fn folder() -> Node {
    Node::Folder { is_whole: true }
}

fn file(size: u64) -> Node {
    Node::File {
        size,
        modified: Some(0),
    }
}

#[test]
fn an_insertion_tells_why_it_fails(rt: HostRuntime) -> Result<(), Fail> {
    let mut tree = Tree::new(rt.alloc(), true);
    let orphan = tree.insert(path(rt.alloc(), &["a", "b"])?, file(1));
    assert_eq!(rt; orphan, Err(InsertError::NoFolder));
    tree.insert(path(rt.alloc(), &["a"])?, folder())?;
    tree.insert(path(rt.alloc(), &["a", "b"])?, file(1))?;
    let again = tree.insert(path(rt.alloc(), &["a", "b"])?, file(2));
    assert_eq!(rt; again, Err(InsertError::AlreadyThere));
    let below_file = tree.insert(path(rt.alloc(), &["a", "b", "c"])?, file(1));
    assert_eq!(rt; below_file, Err(InsertError::NoFolder));
    assert_eq!(rt; tree.get(&path(rt.alloc(), &["a", "b"])?), Some(file(1)));
    Ok(())
}

/// What the server has, and what is here.
fn server(alloc: Global) -> Result<Tree, Fail> {
    let mut tree = Tree::new(alloc, true);
    tree.insert(path(alloc, &["d"])?, folder())?;
    tree.insert(path(alloc, &["k"])?, folder())?;
    tree.insert(path(alloc, &["g"])?, file(5))?;
    tree.insert(path(alloc, &["d", "f"])?, file(3))?;
    tree.insert(path(alloc, &["m"])?, file(6))?;
    tree.insert(path(alloc, &["part"])?, Node::Folder { is_whole: false })?;
    Ok(tree)
}

fn local(alloc: Global) -> Result<Tree, Fail> {
    let mut tree = Tree::new(alloc, true);
    tree.insert(path(alloc, &["d"])?, folder())?;
    tree.insert(path(alloc, &["d", "f"])?, file(4))?;
    tree.insert(path(alloc, &["d", "old"])?, file(1))?;
    tree.insert(path(alloc, &["e"])?, folder())?;
    tree.insert(path(alloc, &["e", "x"])?, file(2))?;
    tree.insert(path(alloc, &["k"])?, file(9))?;
    tree.insert(path(alloc, &["l"])?, Node::Other)?;
    tree.insert(path(alloc, &["m"])?, folder())?;
    tree.insert(path(alloc, &["m", "z"])?, file(1))?;
    tree.insert(path(alloc, &["part"])?, folder())?;
    tree.insert(path(alloc, &["part", "y"])?, file(7))?;
    Ok(tree)
}

fn shown(alloc: Global, plan: &Plan) -> Result<String, AllocError> {
    let mut text = String::new(alloc);
    for action in &plan.actions {
        let (word, path) = match action {
            Action::MakeFolder(path) => (" make ", path),
            Action::Copy {
                path,
                size: _,
                modified: _,
            } => (" copy ", path),
            Action::RemoveFile(path) => (" remove ", path),
            Action::RemoveFolder(path) => (" remove folder ", path),
        };
        text.push_str(word)?;
        text.push_str(path.below(alloc, "")?.as_str())?;
    }
    for left in &plan.undone {
        text.push_str(format!(in alloc; " {:?} ", left.reason)?.as_str())?;
        text.push_str(left.path.below(alloc, "")?.as_str())?;
    }
    Ok(text)
}

#[test]
fn a_download_that_removes(rt: HostRuntime) -> Result<(), Fail> {
    let policy = Policy {
        delete: true,
        newer: false,
    };
    let made = plan(
        rt.alloc(),
        &server(rt.alloc())?,
        &local(rt.alloc())?,
        policy,
    )?;
    assert_eq!(rt;
        shown(rt.alloc(), &made)?.as_str(),
        " remove e/x remove folder e remove d/old copy d/f copy g KindDiffers k \
         KindDiffers m NotAFileOrFolder l KindDiffers m/z ListingNotWhole part/y"
    );
    Ok(())
}

#[test]
fn an_upload_that_keeps(rt: HostRuntime) -> Result<(), Fail> {
    let policy = Policy {
        delete: false,
        newer: true,
    };
    let made = plan(
        rt.alloc(),
        &local(rt.alloc())?,
        &server(rt.alloc())?,
        policy,
    )?;
    assert_eq!(rt;
        shown(rt.alloc(), &made)?.as_str(),
        " copy d/f copy d/old make e copy e/x copy part/y KindDiffers k \
         NotAFileOrFolder l KindDiffers m"
    );
    Ok(())
}
