//! A hold of a client's lock.

ghost use Rattle.futures.specs.Poll.{OnPending};
ghost use Rattle.futures.specs.Task.{IsArmed, Keeps};
ghost use Rattle.tokio.specs.Locks.{CanLock};

use ftp_base::encoding::Encoding;
use ftp_session::session::{DropsCalls, PolledCall, Session, WaitsInTask};
use ftp_transport::{AsksItself, TaskConn, TaskTransport};
use futures::Future;
use futures::task::{Context, Poll};
use std::alloc::{AllocError, Global};
use std::mem;
use std::sync::Arc;
use tokio::sync::{LockOwned, Mutex, OwnedMutexGuard};

/// A wait for a lock, which hasn't ended.
#[derive(Drop)]
pub(crate) struct Queued<S: Drop> {
    lock: LockOwned<S>,
    ghost can: { CanLock lock },
}

/// How far a state has come with the lock of its client.
#[derive(Drop)]
pub(crate) enum Hold<S: Drop> {
    /// There was no memory to wait for it.
    Lacks,
    /// It is waited for.
    Waits(Queued<S>),
    /// It is held.
    Has(OwnedMutexGuard<S>),
    /// It was let go.
    Gone,
}

impl<S: Drop> Hold<S> {
    /// A wait for this lock begins.
    pub(crate) fn on(shared: &Arc<Mutex<S>, Global>) -> Hold<S> {
        match shared.clone() {
            Ok(shared) => Hold::of(shared),
            Err(_) => Hold::Lacks,
        }
    }

    /// A wait for this lock begins, which is kept for that.
    pub(crate) fn of(shared: Arc<Mutex<S>, Global>) -> Hold<S> {
        Hold::Waits(Queued {
            lock: Mutex::lock_owned(shared),
        })
    }

    /// Continues to wait for the lock, unless it is held or was let go.
    ///
    /// # Errors
    /// Where there is no memory to wait.
    pub(crate) fn poll_lock(&mut self, cx: &mut Context<'_>) -> Poll<Result<(), AllocError>>
        ensures registered { OnPending result (IsArmed cx.new) }
        ensures kept { Keeps cx.old cx.new }
    {
        if !self.waits() {
            return Poll::Ready(Ok(()));
        }
        match mem::replace(self, Hold::Gone) {
            Hold::Waits(queued) => self.poll_queued(queued, cx),
            _ => Poll::Ready(Err(AllocError)),
        }
    }

    /// Whether the lock is neither held nor was let go.
    fn waits(&self) -> bool {
        matches!(self, Hold::Waits(_) | Hold::Lacks)
    }

    /// Continues to wait for the lock.
    fn poll_queued(
        &mut self,
        queued: Queued<S>,
        cx: &mut Context<'_>,
    ) -> Poll<Result<(), AllocError>>
        ensures registered { OnPending result (IsArmed cx.new) }
        ensures kept { Keeps cx.old cx.new }
    {
        let Queued { mut lock } = queued;
        match lock.poll(cx) {
            Poll::Ready(Ok(guard)) => {
                self.put(Hold::Has(guard));
                Poll::Ready(Ok(()))
            }
            Poll::Ready(Err(AllocError)) => Poll::Ready(Err(AllocError)),
            Poll::Pending => {
                self.put(Hold::Waits(Queued { lock }));
                Poll::Pending
            }
        }
    }

    /// The hold is this one from now on.
    fn put(&mut self, hold: Hold<S>) {
        drop(mem::replace(self, hold));
    }

    /// Lets the lock go.
    pub(crate) fn let_go(&mut self) {
        self.put(Hold::Gone);
    }

    /// The hold, which is gone from here.
    pub(crate) fn take(&mut self) -> Hold<S> {
        mem::replace(self, Hold::Gone)
    }
}

impl<Tr: TaskTransport, K: Drop, E: Encoding, B: Drop> Hold<Box<Session<Tr, K, E, B>>>
where
    Tr::Conn: TaskConn,
{
    /// A call that waits is dropped under the lock, where it is held.
    pub(crate) fn drop_call(&mut self, call: &PolledCall) {
        if let Hold::Has(session) = self {
            session.drop_call(call);
            session.forget_request(&mut AsksItself);
        }
    }

    /// The offset that a call has set for the next transfer is taken back, where the lock is held.
    pub(crate) fn forget_offset(&mut self) {
        if let Hold::Has(session) = self {
            session.forget_offset();
        }
    }
}
