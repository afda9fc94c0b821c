//! A transfer that one thread finishes while another makes a command.

use crate::threads::scene::{Client, Scene, Tally, Transfer, number, opened, seen};
use crate::threads::turns::meets;
use ftp_base::types::{FtpError, FtpResult};
use std::sync::Wait;
use std::sync::atomic::AtomicU32;
use std::test::Fail;
use std::thread;
use std::thread::Threads;

/// How often the two calls are made at the same time.
const ROUNDS: u32 = 100;

/// The number of an error, and the code of the reply that was unexpected; 0 where there is none.
fn refused(answer: FtpResult<()>) -> (u8, u32) {
    let refused = match &answer {
        Ok(()) => (0, 0),
        Err(FtpError::UnexpectedResponse(reply)) => (10, reply.status().code()),
        Err(fault) => (fault.number(), 0),
    };
    drop(answer);
    refused
}

/// Finishes a transfer once two threads have met.
fn finished<R>(rt: &R, client: &Client, transfer: Transfer, count: &AtomicU32) -> (u8, u32)
where
    R: Wait + AllocGlobal,
{
    meets(count);
    refused(client.finish(rt, transfer))
}

/// Sends NOOP once two threads have met.
fn sent_noop<R: Wait + AllocGlobal>(rt: &R, client: &Client, count: &AtomicU32) -> u8 {
    meets(count);
    number(client.noop(rt))
}

/// A round: what the two calls resulted in, how many bytes were sent and are part of no reply, and the transfers.
fn round<R>(rt: &R) -> Result<((u8, u32), u8, (usize, usize, Tally)), Fail>
where
    R: Wait + Threads + Sync + AllocGlobal,
{
    let Scene { client, transfer } = Box::into_inner(opened(rt, b"200 a\r\n200 b\r\n")?);
    let client = Box::new(rt.alloc(), client)?;
    let count = AtomicU32::new(0);
    let (finish, noop) = thread::join(
        rt,
        || finished(rt, &client, transfer, &count),
        || sent_noop(rt, &client, &count),
    );
    Ok((finish, noop, seen(rt, &client)))
}

#[test]
fn a_finish_and_a_command_of_two_threads_read_one_reply_each(rt: HostRuntime) -> Result<(), Fail> {
    for _ in 0..ROUNDS {
        // PASV and RETR a, and NOOP once. Which of the two replies of 200 either reads, the order of the lock says.
        let due = ((10, 200), 0, (20, 0, [1, 1, 0, 0]));
        assert_eq!(rt; round(&rt)?, due);
    }
    Ok(())
}
