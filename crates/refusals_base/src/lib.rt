//! What the clauses of public calls refuse, of the crates that no session is needed for.
//!
//! Each function has the clauses of one public call of `ftp_base`, `ftp_calls`, `ftp_list`, `ftp_transport`, `ftp_control` or
//! `ftp_transfer`, word for word, and makes that call; where the call is one of every connection and the function one of
//! memory, the clauses are those at memory. So it is proved from the contracts of those crates alone. The edits in
//! must-fail/ put a wrong body in its place, made of other public calls, and the clauses refuse each: a line break that
//! gets through, a byte that is lost, a number of the wrong place, a file that the line doesn't list, a line that goes out
//! beside its turn, a reply that ends too early or too late, a mark that nobody looks at.
#![tactic(auto)]

mod answers;
mod calls;
mod commands;
mod connections;
mod listings;
mod memory;
mod reading;
mod sending;
mod transfers;
mod uploads;
