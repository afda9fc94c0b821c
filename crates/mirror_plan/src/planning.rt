//! The plan of a mirror, path by path.
ghost use Rattle.std.specs.Prelude.{◌≡◌, ◌++◌, IfOk, OnOk};
ghost use Rattle.std.specs.List.{AllByRecursion};
ghost use Rattle.mirror_plan.specs.Listing.{IsTree, standing};
ghost use Rattle.mirror_plan.specs.Carried.{CanAllBeCarriedOut, IsAlike, IsJustified, IsSettled, all_carried_out};
ghost use Rattle.mirror_plan.specs.Plan as plan;

use crate::action::{Action, Plan, Undone};
use crate::decide::{is_made, is_removed, not_removed, unlike};
use crate::node::{Node, Policy};
use crate::path::RelativePath;
use crate::tree::Tree;
use std::alloc::{AllocError, Global};

/// Adds the action that makes a node.
fn push_making(actions: &mut Vec<Action>, path: &RelativePath, node: Node) -> Result<(), AllocError>
    ensures { OnOk result (actions.new.items ≡ actions.old.items ++ plan.making path.now node) }
{
    match node {
        Node::Folder { is_whole: _ } => actions.push(Action::MakeFolder(path.clone()?))?,
        Node::File { size, modified } => actions.push(Action::Copy {
            path: path.clone()?,
            size,
            modified,
        })?,
        Node::Other => {}
    }
    Ok(())
}

/// Adds the action that removes a node.
fn push_removing(
    actions: &mut Vec<Action>,
    path: &RelativePath,
    node: Node,
) -> Result<(), AllocError>
    ensures { OnOk result (actions.new.items ≡ actions.old.items ++ plan.removing path.now node) }
{
    match node {
        Node::Folder { is_whole: _ } => actions.push(Action::RemoveFolder(path.clone()?))?,
        Node::File {
            size: _,
            modified: _,
        } => actions.push(Action::RemoveFile(path.clone()?))?,
        Node::Other => {}
    }
    Ok(())
}

/// What is removed, what is below a folder before the folder.
fn removals(
    alloc: Global,
    from: &Tree,
    to: &Tree,
    policy: Policy,
) -> Result<Vec<Action>, AllocError>
    ensures { IfOk result (λ v. v.items ≡ plan.removals from.now to.now policy to.now.entries) }
{
    let entries = to.entries();
    let mut actions = Vec::new(alloc);
    let mut index = entries.len();
    while index > 0 {
        index -= 1;
        let entry = &entries[index];
        if is_removed(from, to, policy, entry.0.names(), entry.1) {
            push_removing(&mut actions, &entry.0, entry.1)?;
        }
    }
    Ok(actions)
}

/// Adds what is made and copied, a folder before what is below it.
fn push_makings(
    actions: &mut Vec<Action>,
    from: &Tree,
    to: &Tree,
    policy: Policy,
) -> Result<(), AllocError>
    ensures { OnOk result (actions.new.items ≡ actions.old.items ++ plan.makings to.now policy from.now.entries) }
{
    for entry in from.entries() {
        if is_made(to, policy, entry.0.names(), entry.1) {
            push_making(actions, &entry.0, entry.1)?;
        }
    }
    Ok(())
}

/// The actions of a plan.
fn actions(alloc: Global, from: &Tree, to: &Tree, policy: Policy) -> Result<Vec<Action>, AllocError>
    ensures { IfOk result (λ v. v.items ≡ plan.actions_of from.now to.now policy) }
{
    let mut actions = removals(alloc, from, to, policy)?;
    push_makings(&mut actions, from, to, policy)?;
    Ok(actions)
}

/// Adds the paths of the first tree that aren't made.
fn push_unmade(undone: &mut Vec<Undone>, from: &Tree, to: &Tree) -> Result<(), AllocError>
    ensures unmade { OnOk result (undone.new.items
        ≡ undone.old.items ++ plan.unmade to.now from.now.entries) }
    ensures tree { IsTree from.now }
{
    for entry in from.entries() {
        if let Some(reason) = unlike(entry.1, to.get(&entry.0)) {
            undone.push(Undone {
                path: entry.0.clone()?,
                reason,
            })?;
        }
    }
    Ok(())
}

/// Adds the paths of the second tree that aren't removed.
fn push_unremoved(
    undone: &mut Vec<Undone>,
    from: &Tree,
    to: &Tree,
    policy: Policy,
) -> Result<(), AllocError>
    ensures unremoved { OnOk result (undone.new.items
        ≡ undone.old.items ++ plan.unremoved from.now to.now policy to.now.entries) }
    ensures tree { IsTree to.now }
{
    for entry in to.entries() {
        if let Some(reason) = not_removed(from, to, policy, entry.0.names(), entry.1) {
            undone.push(Undone {
                path: entry.0.clone()?,
                reason,
            })?;
        }
    }
    Ok(())
}

/// Plans what to do so that `to` becomes like `from`.
///
/// A folder that `to` lacks is made, and a file that it lacks is copied. A file that both have is copied where the sizes
/// differ, or, under `policy.newer`, where `from`'s time is known to be later. Under `policy.delete` what `from` was
/// seen not to have is removed: a folder of `from` that was listed whole lacks it, or lacks a folder above it.
///
/// A path where one tree has a file and the other a folder is left, and so is all that is below it. Nothing is ever
/// removed to make room for something of another kind. Each path that is left is in `undone`, with the reason.
///
/// That takes about as many steps as the trees have entries, each times the depth of its path and the logarithm of the other
/// tree's size; a folder that is removed costs a pass over what is below it, besides.
///
/// # Errors
/// `AllocError`.
pub fn plan(alloc: Global, from: &Tree, to: &Tree, policy: Policy) -> Result<Plan, AllocError>
    ensures in_order { IfOk result (λ made. CanAllBeCarriedOut made.actions.items (standing to.now)) }
    ensures alike { IfOk result (λ made. IsAlike policy made.undone.items (standing from.now)
        (all_carried_out made.actions.items (standing to.now))) }
    ensures settled { IfOk result (λ made. IsSettled policy from.now
        (all_carried_out made.actions.items (standing to.now))) }
    ensures justified { IfOk result (λ made. AllByRecursion (IsJustified policy from.now)
        made.actions.items) }
    ensures actions { IfOk result (λ made. made.actions.items ≡ plan.actions_of from.now to.now policy) }
    ensures undone { IfOk result (λ made. made.undone.items ≡ plan.undone_of from.now to.now policy) }
{
    let actions = actions(alloc, from, to, policy)?;
    let mut undone = Vec::new(alloc);
    push_unmade(&mut undone, from, to)?;
    push_unremoved(&mut undone, from, to, policy)?;
    Ok(Plan { actions, undone })
}
