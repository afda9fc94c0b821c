//! Tests of the polled client over tokio's sockets, on loopback.
#![tactic(auto)]

#[cfg(test)]
mod clients;
#[cfg(test)]
mod counted;
#[cfg(test)]
mod cuts;
#[cfg(test)]
mod downloads;
#[cfg(test)]
mod dropped;
#[cfg(test)]
mod limits;
#[cfg(test)]
mod listings;
#[cfg(test)]
mod made_anew;
#[cfg(test)]
mod saving;
#[cfg(test)]
mod scene;
#[cfg(test)]
mod settings;
#[cfg(test)]
mod surface;
#[cfg(test)]
mod transfers;
#[cfg(test)]
mod utf8;
#[cfg(test)]
mod walking;
#[cfg(test)]
mod writers;
