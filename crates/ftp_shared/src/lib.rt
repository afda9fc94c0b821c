//! What both clients share that needs no session: the order of a walk, how a client is made anew, and a progress that begins
//! at an offset.
#![tactic(auto)]

mod connect_options;
mod from_offset;
mod named;
mod place;
#[cfg(test)]
mod tests;
mod visitor;
mod walk;

pub use crate::connect_options::ConnectOptions;
pub use crate::from_offset::FromOffset;
pub use crate::named::{UTF8, UTF8_ON, has_facts, has_feature};
pub use crate::place::{Place, PlaceName};
pub use crate::visitor::{PassedOver, Visitor};
pub use crate::walk::{Walk, WalkLimits};
