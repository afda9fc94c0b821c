//! The state that asks what a client was greeted with.

use crate::client::ImplAsyncFtpStream;
use crate::lock::Lock;
use ftp_base::encoding::Encoding;
use ftp_base::types::FtpResult;
use ftp_transport::{TaskConn, TaskTransport};
use futures::Future;
use futures::task::{Context, Poll};
use std::alloc::Global;

/// The lock of a client is waited for, to copy the text that its server greeted with.
///
/// # Errors
/// Those of [`Lock`]; `OutOfMemory` for the copy.
pub struct Welcome<'r, R, Tr: TaskTransport, K: Drop, E: Encoding, B: Drop>
where
    Tr::Conn: TaskConn,
{
    rt: &'r R,
    lock: Lock<Tr, K, E, B>,
}

impl<R, Tr: TaskTransport, K: Drop, E: Encoding, B: Drop> Drop for Welcome<'_, R, Tr, K, E, B>
where
    Tr::Conn: TaskConn,
{
    fn drop(self) {
        let Self { rt: _, lock } = self;
        drop(lock);
    }
}

impl<'r, R: AllocGlobal, Tr: TaskTransport, K: Drop, E: Encoding, B: Drop> Future
    for Welcome<'r, R, Tr, K, E, B>
where
    Tr::Conn: TaskConn,
{
    type Output = FtpResult<Option<String>>;

    fn poll(&mut self, cx: &mut Context<'_>) -> Poll<FtpResult<Option<String>>> {
        match self.lock.poll(cx) {
            Poll::Ready(Ok(socket)) => {
                Poll::Ready(copied(self.rt.alloc(), socket.get_welcome_msg()))
            }
            Poll::Ready(Err(fault)) => Poll::Ready(Err(fault)),
            Poll::Pending => Poll::Pending,
        }
    }
}

/// A copy of a text, if there is one.
fn copied(alloc: Global, text: Option<&str>) -> FtpResult<Option<String>> {
    match text {
        Some(text) => Ok(Some(String::from_str(alloc, text)?)),
        None => Ok(None),
    }
}

impl<Tr: TaskTransport, K: Drop, E: Encoding, B: Drop> ImplAsyncFtpStream<Tr, K, E, B>
where
    Tr::Conn: TaskConn,
{
    /// A copy of the text that the server greeted with, if the greeting was read (RFC 959, section 5.4). Nothing is sent.
    ///
    /// # Errors
    /// `OutOfMemory`.
    pub fn get_welcome_msg<'r, R>(&self, rt: &'r R) -> Welcome<'r, R, Tr, K, E, B> {
        Welcome {
            rt,
            lock: self.get_ref(),
        }
    }
}
