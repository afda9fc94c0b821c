//! What the clauses of public calls refuse.
//!
//! Each function has the clauses of one public call of `ftp_session` or `ftp_dialogue`, word for word, and makes that
//! call. So it is proved from the contracts of those crates alone. The edits in must-fail/ put a wrong body in its
//! place, made of other public calls, and the clauses refuse each: a call that sends something else, that comes too
//! early, twice or not at all, or that forgets what it was to leave behind. `from_contracts` makes several calls, and says
//! what follows from their clauses alone.
#![tactic(auto)]

mod commands;
mod connecting;
mod ending;
mod from_contracts;
mod machine;
mod polls;
mod readiness;
mod resyncing;
mod securing;
mod transfers;
mod waiting;
