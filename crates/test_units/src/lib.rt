//! Tests of what can be used without a session: the base, with the lines of listings; the parsers of listings, over lines as
//! servers send them; transfers over memory; connections and listeners over sockets, blocking and over `tokio`; connections
//! that may be under TLS, and transports that make them; and the control channel. They show what a call returns with ample
//! memory, which no contract can say, and each way in which small types are read. What is a matter of values is a row
//! of `rows_base`.
#![tactic(auto)]

#[cfg(test)]
mod accessors;
#[cfg(test)]
mod channel;
#[cfg(test)]
mod contents;
#[cfg(test)]
mod conversions;
#[cfg(test)]
mod copies;
#[cfg(test)]
mod cut_lines;
#[cfg(test)]
mod data_sockets;
#[cfg(test)]
mod described;
#[cfg(test)]
mod features;
#[cfg(test)]
mod handshakes;
#[cfg(test)]
mod hostile;
#[cfg(test)]
mod listings;
#[cfg(test)]
mod networks;
#[cfg(test)]
mod reads;
#[cfg(test)]
mod real_lines;
#[cfg(test)]
mod replies;
#[cfg(test)]
mod rows;
#[cfg(test)]
mod scene;
#[cfg(test)]
mod seen;
#[cfg(test)]
mod splits;
#[cfg(test)]
mod streams;
#[cfg(test)]
mod tables;
#[cfg(test)]
mod tasks;
#[cfg(test)]
mod tokio_calls;
#[cfg(test)]
mod tokio_connects;
#[cfg(test)]
mod tokio_requests;
#[cfg(test)]
mod tokio_traffic;
#[cfg(test)]
mod transfers;
#[cfg(test)]
mod whole_listings;
