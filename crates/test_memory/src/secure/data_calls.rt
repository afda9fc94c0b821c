//! The calls of data connections that no row of TLS makes, in a secure session over memory (RFC 4217, section 9).

use crate::secure::scene::{number, session};
use ftp_base::status::Status;
use ftp_base::types::FtpResult;
use ftp_session::session::{DownloadReader, Session};
use ftp_transfer::{NoProgress, Transfer};
use rows_tls::{Line, Net, Seal};
use std::alloc::{AllocError, Global};
use std::io::Read;
use std::test::Fail;

/// The replies to `PBSZ`, `PROT` and three data commands.
const REPLIES: &str =
    "200 a\r\n200 b\r\n227 x (10,0,0,1,4,0).\r\n150 b\r\n226 d\r\n227 x (10,0,0,1,4,0).\r\n150 b\r\n226 d\r\n227 x (10,0,0,1,4,0).\r\n150 b\r\n226 d\r\n";

/// A session of the tests.
type Secure = Session<Net, Seal>;

/// A connector on whose streams the replies come, and then these.
fn seal(alloc: Global, data: [&str; 3]) -> Result<Box<Seal>, AllocError> {
    let mut seal = Seal::new(alloc, REPLIES)?;
    for text in data {
        seal.then(text)?;
    }
    Ok(seal)
}

/// A secure session with three data connections, on which these come under TLS.
fn secured(alloc: Global, data: [&str; 3]) -> FtpResult<Box<Secure>> {
    let seal = seal(alloc, data)?;
    let mut session = session(alloc, 3)?;
    session.into_secure(alloc, Box::into_inner(seal), "ftp.example")?;
    Ok(session)
}

/// Reads once, and returns how many bytes came.
#[derive(Drop)]
struct Once;

impl DownloadReader<Line, usize> for Once {
    fn read(&mut self, transfer: &mut Transfer<Line>) -> FtpResult<usize> {
        let mut bytes = [0u8; 16];
        Ok(Read::read(transfer, &mut bytes)?)
    }
}

#[test]
fn a_reader_is_handed_what_comes_under_tls(rt: HostRuntime) -> Result<(), Fail> {
    let alloc = rt.alloc();
    let mut session = secured(alloc, ["a file", "", ""])?;
    let count = session.retr(alloc, &(), "f", &mut Once)?;
    drop(session);
    assert_eq!(rt; count, 6);
    Ok(())
}

/// How many names and how many facts come.
fn listed(alloc: Global, session: &mut Secure) -> FtpResult<(usize, usize)> {
    let names = session.nlst(alloc, &(), None)?.len();
    Ok((names, session.mlsd(alloc, &(), None)?.len()))
}

/// How many bytes a download to a writer has, and whether they are those of the file.
fn saved(alloc: Global, session: &mut Secure) -> FtpResult<(u64, bool)> {
    let mut bytes = Vec::new(alloc);
    let count = session.write_to(alloc, &(), "f", &mut bytes, &mut NoProgress)?;
    Ok((count, bytes.as_slice() == b"a file".as_slice()))
}

#[test]
fn names_facts_and_a_download_to_a_writer_come_under_tls(rt: HostRuntime) -> Result<(), Fail> {
    let alloc = rt.alloc();
    let mut session = secured(alloc, ["a\r\nb\r\n", "type=file; c\r\n", "a file"])?;
    let listed = listed(alloc, &mut session)?;
    let saved = saved(alloc, &mut session)?;
    drop(session);
    assert_eq!(rt; (listed, saved), ((2, 1), (6, true)));
    Ok(())
}

/// Whether a transfer is under TLS, and the number of the error with which it ends.
fn ends(alloc: Global, session: &mut Secure, transfer: Transfer<Line>) -> (bool, u8) {
    let is_under = transfer.get_ref().is_under();
    (is_under, number(session.finish(alloc, transfer)))
}

/// The end of an upload to a file's end.
fn appended(alloc: Global, session: &mut Secure) -> FtpResult<(bool, u8)> {
    let transfer = session.append_with_stream(alloc, &(), "f")?;
    Ok(ends(alloc, session, transfer))
}

/// The end of a download by a data command of the caller's.
fn commanded(alloc: Global, session: &mut Secure) -> FtpResult<(bool, u8)> {
    let expected = [Status::AboutToSend];
    let (reply, transfer) = session.custom_data_command(alloc, &(), "RETR f", &expected)?;
    drop(reply);
    Ok(ends(alloc, session, transfer))
}

#[test]
fn what_is_appended_and_a_data_command_of_the_callers_go_under_tls(
    rt: HostRuntime,
) -> Result<(), Fail> {
    let alloc = rt.alloc();
    let mut session = secured(alloc, ["", "", ""])?;
    let count = session.append_file(alloc, &(), "f", &mut b"xy".as_slice())?;
    let appends = appended(alloc, &mut session)?;
    let gets = commanded(alloc, &mut session)?;
    drop(session);
    assert_eq!(rt; (count, appends, gets), (2, (true, 0), (true, 0)));
    Ok(())
}
