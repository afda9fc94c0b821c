//! Tests of sessions over memory that no row of text can say, as transfers that are handed out, sources and data that fail,
//! and whole files in which one call of a connection or of the transport fails; and of the blocking client, over loopback
//! sockets and shared by threads.
#![tactic(auto)]

#[cfg(test)]
mod addresses;
#[cfg(test)]
mod asks;
#[cfg(test)]
mod broken_data;
#[cfg(test)]
mod clients;
pub mod device;
#[cfg(test)]
mod downloads;
#[cfg(test)]
mod dropped;
#[cfg(test)]
mod failing;
#[cfg(test)]
mod faults;
#[cfg(test)]
mod files;
#[cfg(test)]
mod greetings;
#[cfg(test)]
mod handed;
#[cfg(test)]
mod limits;
#[cfg(test)]
mod listings;
#[cfg(test)]
mod made_anew;
#[cfg(test)]
mod memory_scene;
#[cfg(test)]
mod reads;
#[cfg(test)]
mod room;
#[cfg(test)]
mod rows;
#[cfg(test)]
mod saving;
#[cfg(test)]
mod scene;
#[cfg(test)]
mod secure;
#[cfg(test)]
mod server;
#[cfg(test)]
mod settings;
#[cfg(test)]
mod sources;
#[cfg(test)]
mod strangers;
#[cfg(test)]
mod transfers;
#[cfg(test)]
mod utf8;
#[cfg(test)]
mod walking;
