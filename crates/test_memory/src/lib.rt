//! Tests of clients over memory: those that threads share (`threads`), and sessions under TLS (`secure`), in what no row of
//! `rows_secure` makes on them. Clients that remember that EPSV was refused (`modes`), and whole files of the polled client
//! that are dropped (`copies`).
#![tactic(auto)]

#[cfg(test)]
mod copies;
#[cfg(test)]
mod modes;
#[cfg(test)]
mod secure;
#[cfg(test)]
mod threads;
