//! Downloads to a writer, uploads, and what they report their progress to.

use crate::memory_scene::{MemorySession, greeted, number};
use ftp_base::types::FileType;
use ftp_session::session::Failure;
use ftp_transfer::{NoProgress, Progress};
use std::alloc::Global;
use std::io;
use std::io::{ErrorKind, Read, Write};
use std::test::Fail;

/// The sum of what was reported, and how often.
#[derive(Drop)]
struct Told {
    sum: u64,
    times: u32,
}

impl Progress for Told {
    fn went(&mut self, so_far: u64) {
        self.sum = self.sum.saturating_add(so_far);
        self.times = self.times.saturating_add(1);
    }
}

/// A server that agrees to a data command, and to the next one.
const AGREED: &str = "227 x (10,0,0,1,4,0).;150 b;226 d;200 o";

/// A download to a `Vec`: how many bytes the call returns, what was written, what was reported, and the number of the
/// error of the command after it.
fn saved(alloc: Global, bytes: &mut Vec<u8>) -> Result<(u64, u64, u32, u8), Fail> {
    let mut session = greeted(alloc, AGREED)?;
    let mut told = Told { sum: 0, times: 0 };
    let count = session.write_to(alloc, &(), "f", bytes, &mut told)?;
    Ok((count, told.sum, told.times, number(session.noop(alloc))))
}

#[test]
fn a_download_goes_to_a_writer_and_tells_how_far_it_has_come(rt: HostRuntime) -> Result<(), Fail> {
    let mut bytes = Vec::new(rt.alloc());
    let came = saved(rt.alloc(), &mut bytes)?;
    assert_eq!(rt; (bytes.as_slice(), came), (&b"hello"[..], (5, 5, 1, 0)));
    Ok(())
}

/// A writer that takes two bytes at once, and fails after four.
#[derive(Drop)]
struct Narrow {
    taken: Vec<u8>,
}

impl Write for Narrow {
    fn write(&mut self, buf: &[u8]) -> io::Result<usize> {
        if self.taken.len() >= 4 {
            return Err(ErrorKind::StorageFull.into());
        }
        let piece = if buf.len() > 2 { &buf[..2] } else { buf };
        self.taken.extend_from_slice(piece)?;
        Ok(piece.len())
    }

    fn flush(&mut self) -> io::Result<()> {
        Ok(())
    }
}

/// The numbers of the errors of a download to a writer that fails, and of the command after it; whether the caller's
/// writer is recorded to have failed.
fn filled(alloc: Global, writer: &mut Narrow) -> Result<(u8, u8, bool), Fail> {
    let mut session = greeted(alloc, "227 x (10,0,0,1,4,0).;150 b;426 n;200 o")?;
    let full = number(session.write_to(alloc, &(), "f", writer, &mut NoProgress));
    let by_caller = session.last_failure() == Some(Failure::Caller);
    Ok((full, number(session.noop(alloc)), by_caller))
}

#[test]
fn a_writer_that_fails_has_a_front_and_the_last_reply_is_read(rt: HostRuntime) -> Result<(), Fail> {
    let mut writer = Narrow {
        taken: Vec::new(rt.alloc()),
    };
    let came = filled(rt.alloc(), &mut writer)?;
    assert_eq!(rt;
        (writer.taken.as_slice(), came),
        (&b"hell"[..], (1, 0, true))
    );
    Ok(())
}

/// An upload of a text, by the first call or the second: how many bytes it returns and reports.
fn put(alloc: Global, appends: bool) -> Result<(u64, u64, u32), Fail> {
    let mut session: Box<MemorySession> = greeted(alloc, AGREED)?;
    let mut told = Told { sum: 0, times: 0 };
    let mut source = &b"a\nb"[..];
    let count = if appends {
        session.append_file_with(alloc, &(), "f", &mut source, &mut told)?
    } else {
        session.put_file_with(alloc, &(), "f", &mut source, &mut told)?
    };
    Ok((count, told.sum, told.times))
}

#[test]
fn an_upload_tells_how_many_bytes_have_gone_out(rt: HostRuntime) -> Result<(), Fail> {
    // CR is put before the LF: RFC 959, section 3.1.1.1
    let came = (put(rt.alloc(), false)?, put(rt.alloc(), true)?);
    assert_eq!(rt; came, ((4, 4, 1), (4, 4, 1)));
    Ok(())
}

/// A source that fails after so many bytes; and the most that it was asked for at once.
#[derive(Drop)]
struct Failing {
    left: usize,
    most: usize,
}

impl Read for Failing {
    fn read(&mut self, buf: &mut [u8]) -> io::Result<usize> {
        self.most = self.most.max(buf.len());
        if self.left == 0 {
            return Err(ErrorKind::BrokenPipe.into());
        }
        let count = buf.len().min(self.left);
        self.left -= count;
        Ok(count)
    }
}

/// An upload from a source that fails after 150,000 bytes: the number of its error, the most that the source was asked
/// for at once, the sum of what was reported and how often, and how many bytes went out.
fn broken_off(alloc: Global) -> Result<(u8, usize, u64, u32, usize), Fail> {
    let mut session = greeted(alloc, "200 o;227 x (10,0,0,1,4,0).;150 b")?;
    session.transfer_type(alloc, FileType::Binary)?;
    let mut told = Told { sum: 0, times: 0 };
    let mut source = Failing {
        left: 150_000,
        most: 0,
    };
    let refused = number(session.put_file_with(alloc, &(), "f", &mut source, &mut told));
    let mut sent = 0usize;
    for upload in session.transport().uploaded() {
        sent = upload.sent().len().saturating_add(sent);
    }
    Ok((refused, source.most, told.sum, told.times, sent))
}

#[test]
fn all_that_a_source_gave_goes_out_by_64_kib_before_its_error(rt: HostRuntime) -> Result<(), Fail> {
    // 65,536, 131,072 and 150,000 bytes had gone
    let came = broken_off(rt.alloc())?;
    assert_eq!(rt; came, (1, 8_192, 346_608, 3, 150_000));
    Ok(())
}

/// How many bytes a download has, and for how many it holds memory.
fn held(alloc: Global) -> Result<(usize, usize), Fail> {
    let mut session = greeted(alloc, AGREED)?;
    let bytes = session.retr_as_buffer(alloc, &(), "f")?;
    Ok((bytes.len(), bytes.capacity()))
}

#[test]
fn a_download_holds_no_more_than_a_quarter_above_its_bytes(rt: HostRuntime) -> Result<(), Fail> {
    let (len, capacity) = held(rt.alloc())?;
    assert_eq!(rt; (len, capacity <= 6), (5, true));
    Ok(())
}
