//! Connections over memory in a task.
//!
//! Nothing tells when bytes come over memory, so no task can be registered: one that waits there asks to be polled
//! again.

use super::{MemoryConn, MemoryListener, MemoryTransport, TaskConn, TaskTransport, Waiting};
use futures::task::Context;

impl TaskConn for MemoryConn {
    ghost needs = { λ _ _. ⊥ };

    fn poll_ready(&mut self, _cx: &mut Context<'_>) -> Waiting {
        Waiting::Nothing
    }
}

impl TaskTransport for MemoryTransport {
    fn forget(&mut self) {}

    fn poll_connect_ready(&mut self, _cx: &mut Context<'_>) -> Waiting {
        Waiting::Nothing
    }

    fn poll_secure_ready(&mut self, _cx: &mut Context<'_>) -> Waiting {
        Waiting::Nothing
    }

    fn poll_accept_ready(_listener: &mut MemoryListener, _cx: &mut Context<'_>) -> Waiting {
        Waiting::Nothing
    }
}
