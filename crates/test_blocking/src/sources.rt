//! Uploads whose sources are interrupted or fail, and downloads by readers.

use crate::memory_scene::{MemorySession, greeted, number};
use ftp_base::types::{FileType, FtpError, FtpResult};
use ftp_session::session::DownloadReader;
use ftp_transfer::Transfer;
use ftp_transport::MemoryConn;
use std::alloc::Global;
use std::io;
use std::io::{ErrorKind, Read};
use std::test::Fail;

/// A source that is interrupted so many times, then delivers bytes, and then ends or fails.
#[derive(Drop)]
struct Stumbling {
    interruptions: u32,
    bytes: &'static [u8],
    fault: Option<ErrorKind>,
}

impl Read for Stumbling {
    fn read(&mut self, buf: &mut [u8]) -> io::Result<usize> {
        if self.interruptions > 0 {
            self.interruptions -= 1;
            return Err(ErrorKind::Interrupted.into());
        }
        let count = self.bytes.read(buf)?;
        match self.fault {
            Some(kind) if count == 0 => Err(kind.into()),
            _ => Ok(count),
        }
    }
}

/// How many bytes an upload of this source returns, or 1000 and the number of its error.
fn put(alloc: Global, session: &mut MemorySession, source: &mut Stumbling) -> u64 {
    match session.put_file(alloc, &(), "f", source) {
        Ok(count) => count,
        refusal => 1000 + u64::from(number(refusal)),
    }
}

/// What an upload of this source returns that goes as an image, how many bytes arrive, and what the command after it
/// returns.
fn uploaded(alloc: Global, source: &mut Stumbling) -> Result<(u64, usize, u8), Fail> {
    let mut session = greeted(alloc, "200 t;227 x (10,0,0,1,4,0).;150 b;226 d;200 o")?;
    session.transfer_type(alloc, FileType::Image)?;
    let answer = put(alloc, &mut session, source);
    let arrived = match session.transport().uploaded().first() {
        Some(conn) => conn.sent().len(),
        None => 255,
    };
    Ok((answer, arrived, number(session.noop(alloc))))
}

/// The same of a source that is interrupted so often, and delivers one byte.
fn interrupted(alloc: Global, interruptions: u32) -> Result<(u64, usize, u8), Fail> {
    let mut source = Stumbling {
        interruptions,
        bytes: b"a",
        fault: None,
    };
    uploaded(alloc, &mut source)
}

#[test]
fn a_source_is_read_again_where_it_is_interrupted_64_times(rt: HostRuntime) -> Result<(), Fail> {
    let (last, more) = (interrupted(rt.alloc(), 64)?, interrupted(rt.alloc(), 65)?);
    assert_eq!(rt; (last, more), ((1, 1, 0), (1001, 0, 0)));
    Ok(())
}

#[test]
fn what_a_source_gave_before_its_fault_is_uploaded(rt: HostRuntime) -> Result<(), Fail> {
    let mut source = Stumbling {
        interruptions: 0,
        bytes: b"ab",
        fault: Some(ErrorKind::BrokenPipe),
    };
    let came = uploaded(rt.alloc(), &mut source)?;
    assert_eq!(rt; came, (1001, 2, 0));
    Ok(())
}

/// Reads two bytes, and returns them as a number; or returns an error.
#[derive(Drop)]
struct Pair {
    fails: bool,
}

impl DownloadReader<MemoryConn, u16> for Pair {
    fn read(&mut self, transfer: &mut Transfer<MemoryConn>) -> FtpResult<u16> {
        let mut pair = [0u8; 2];
        Read::read(transfer, &mut pair)?;
        if self.fails {
            return Err(FtpError::InvalidAddress);
        }
        Ok(u16::from_be_bytes(pair))
    }
}

/// What a download by a reader returns, or the number of its error, where the last reply is this; and what the command
/// after it returns.
fn pair_of(alloc: Global, replies: &str, fails: bool) -> Result<(u16, u8), Fail> {
    let mut session = greeted(alloc, replies)?;
    let pair = match session.retr(alloc, &(), "f", &mut Pair { fails }) {
        Ok(pair) => pair,
        refusal => u16::from(number(refusal)),
    };
    Ok((pair, number(session.noop(alloc))))
}

#[test]
fn a_reader_gives_what_it_read_and_its_fault_comes_before_the_last_reply(
    rt: HostRuntime,
) -> Result<(), Fail> {
    let accepted = "227 x (10,0,0,1,4,0).;150 b;226 d;200 o";
    let refused = "227 x (10,0,0,1,4,0).;150 b;426 n;200 o";
    let read = pair_of(rt.alloc(), accepted, false)?;
    let failed = pair_of(rt.alloc(), refused, true)?;
    assert_eq!(rt; (read, failed), ((0x6865, 0), (15, 0)));
    Ok(())
}
