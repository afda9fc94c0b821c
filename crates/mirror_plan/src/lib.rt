//! The plan of a mirror: what to make, copy and remove so that one tree becomes like another.
//!
//! A program lists two trees into `Tree`s and asks `plan` for the actions, which it carries out in their order. Nothing
//! here reads or writes a file or a connection.
#![tactic(auto)]

mod action;
mod decide;
mod node;
mod path;
mod planning;
#[cfg(test)]
mod tests;
mod tree;

pub use crate::action::{Action, Plan, Reason, Undone};
pub use crate::node::{Node, Policy};
pub use crate::path::{PathError, RelativePath};
pub use crate::planning::plan;
pub use crate::tree::{InsertError, Tree};
