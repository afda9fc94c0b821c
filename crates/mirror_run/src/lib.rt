//! The work of a mirror: it lists a folder here and one of a server, has the plan made (`mirror_plan`), and carries that out.
//!
//! What reaches outside is in one trait, `System`, so that all else is proved over that alone.
#![tactic(auto)]

mod amounts;
mod bar;
mod carrying;
mod downloading;
mod filters;
mod here;
mod listed;
mod local_tree;
mod mirror;
mod mirroring;
mod problem;
mod report;
mod runtime;
mod screen;
mod server_tree;
mod system;
mod task;
#[cfg(test)]
mod tests;
mod there;
mod trees;
mod under_way;
mod uploading;

pub use crate::listed::{Kind, Listed};
pub use crate::mirroring::mirror_folder;
pub use crate::problem::Problem;
pub use crate::report::{Report, Shows};
pub use crate::system::{Change, Connection, System};
pub use crate::task::{Site, Task};
