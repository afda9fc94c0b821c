//! What the definitions of runs speak of: where a run stands, what a call and a run result in, and what events made of
//! a session.
//!
//! They are types of code and not of specs alone, so that the definitions can be computed, and a session be compared
//! with them.

use crate::{Answer, Call, State};
use ftp_base::types::{Bytes, FtpError, Items};
use ftp_control::control::ReplyForm;
use ftp_transport::{Request, RequestOutcome, Room};
use std::io::ErrorKind;
use std::net::SocketAddr;

/// What went over a data connection.
#[derive(Clone)]
pub struct Traffic {
    /// The bytes that were read from it.
    pub received: Bytes,
    /// The bytes that were written to it.
    pub sent: Bytes,
}

impl Drop for Traffic {
    fn drop(self) {
        let Self { received, sent } = self;
        drop(received);
        drop(sent);
    }
}

/// What stands beside the control connection.
#[derive(Clone, Drop)]
pub struct NetRecord {
    /// What the transport and the builder were asked, in order.
    pub asked: Items<Request>,
    /// What went over the data connections that were closed and handed back, in order.
    pub closed: Items<Traffic>,
    /// What went over the data connection, from the moment that it was made.
    pub data_conn: Option<Traffic>,
}

/// What a request of the transport, the builder or the connector, or a step on the data connection, resulted in.
#[derive(Clone, Drop)]
pub enum NetOutcome {
    /// A request of the transport resulted in this.
    Answered(RequestOutcome),
    /// The caller's builder made a connection; or returned this error.
    Built(Option<FtpError>),
    /// The connector put the data connection under TLS; or returned this error.
    Secured(Option<FtpError>),
    /// A read returned these bytes; none at the end.
    Read(Bytes),
    /// A write took so many bytes.
    Wrote(usize),
    /// A close was done.
    Closed,
    /// A read, a write or a close failed.
    Failed(ErrorKind),
    /// There was no memory for what a read would return, or for what came of all reads.
    NoMemory,
}

/// Where a run stands.
// Its largest parts come last: a clone that runs out of memory drops what it has made so far.
#[derive(Clone, Drop)]
pub struct PlayState {
    /// Whether the session has failed.
    pub failed: bool,
    /// All that was to be sent: it goes out as far as there is room.
    pub said: Bytes,
    /// The unsent tail of a line that was begun before, which goes out before the next line.
    pub unsent: Bytes,
    /// The address of the control connection at this end.
    pub local: SocketAddr,
    /// The address of its peer.
    pub peer: SocketAddr,
    /// The bytes that are part of no reply yet.
    pub bytes: Bytes,
    /// Whether no others come.
    pub ended: bool,
    /// The outcomes to come of the transport's requests, and of what is done on the data connection.
    pub outcomes: Items<NetOutcome>,
    /// What stands beside the control connection.
    pub net_record: NetRecord,
    /// What the session keeps beside its channel.
    pub state: State,
}

/// What a call waits for.
#[derive(Clone, Copy, Debug, PartialEq, Eq)]
pub enum Wait {
    /// Room for the last line.
    Room,
    /// More bytes, or their end, for a reply of this form.
    Bytes(ReplyForm),
    /// The outcome of a request.
    Outcome,
}

/// What a call results in.
#[derive(Drop)]
pub enum Played {
    /// Its answer, and where the run stands then.
    Done(Answer, PlayState),
    /// It waits for this, here.
    Pending(Wait, PlayState),
}
