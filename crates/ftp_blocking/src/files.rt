//! Whole files, a method each: the session's call of that name, in one hold of the lock.

use super::ImplFtpStream;
use ftp_base::encoding::Encoding;
use ftp_base::types::FtpResult;
use ftp_session::session::DownloadReader;
use ftp_shared::FromOffset;
use ftp_transfer::Progress;
use ftp_transport::{Conn, Network, PassiveStreamBuilder, Transport};
use std::io::{Read, Write};
use std::sync::Wait;

impl<Tr: Network, K: Drop, E: Encoding, B: PassiveStreamBuilder<Tr::Conn>> ImplFtpStream<
    Tr,
    K,
    E,
    B,
>
where
    Tr::Conn: Conn,
{
    /// Uploads all of a source to this file, in the place of what it held: `STOR` (125, 150; RFC 959, section 4.1.3),
    /// the bytes, and the last reply (226, 250). Returns how many bytes were written. They are a text, whose lines end
    /// in CR LF on the wire (RFC 959, section 3.1.1.1), until a `TYPE` of another kind is accepted. The offset is used
    /// as by `retr_as_stream`.
    ///
    /// # Errors
    /// Those of a data command. The error of the source or of the data connection, `SourceTooLarge`, or `OutOfMemory`
    /// for a buffer: then the transfer is left. The error of the data connection's close comes before that of the last
    /// reply.
    pub fn put_file<R: Wait + AllocGlobal, S: Read>(
        &self,
        rt: &R,
        path: &str,
        source: &mut S,
    ) -> FtpResult<u64>
    where
        Tr: Transport<R>,
    {
        self.opening(rt).put_file(rt.alloc(), rt, path, source)
    }

    /// Uploads all of a source to the end of this file: `APPE` (125, 150; RFC 959, section 4.1.3), as `put_file`
    /// does.
    ///
    /// # Errors
    /// Those of `put_file`.
    pub fn append_file<R: Wait + AllocGlobal, S: Read>(
        &self,
        rt: &R,
        path: &str,
        source: &mut S,
    ) -> FtpResult<u64>
    where
        Tr: Transport<R>,
    {
        self.opening(rt).append_file(rt.alloc(), rt, path, source)
    }

    /// Uploads all of a source to this file, as `put_file` does, and reports how far it has come.
    ///
    /// # Errors
    /// Those of `put_file`.
    pub fn put_file_with<R: Wait + AllocGlobal, S: Read, P: Progress>(
        &self,
        rt: &R,
        path: &str,
        source: &mut S,
        progress: &mut P,
    ) -> FtpResult<u64>
    where
        Tr: Transport<R>,
    {
        self.opening(rt)
            .put_file_with(rt.alloc(), rt, path, source, progress)
    }

    /// Uploads all of a source to the end of this file, as `append_file` does, and reports how far it has come.
    ///
    /// # Errors
    /// Those of `put_file`.
    pub fn append_file_with<R: Wait + AllocGlobal, S: Read, P: Progress>(
        &self,
        rt: &R,
        path: &str,
        source: &mut S,
        progress: &mut P,
    ) -> FtpResult<u64>
    where
        Tr: Transport<R>,
    {
        self.opening(rt)
            .append_file_with(rt.alloc(), rt, path, source, progress)
    }

    /// Downloads this file to a writer: `RETR` (150, 125; RFC 959, section 4.1.3), the bytes as they come, and the last
    /// reply (226, 250). Returns how many bytes were written, and reports how far the download has come; `NoProgress`
    /// ignores that. The offset is used as by `retr_as_stream`. The client is busy until then.
    ///
    /// # Errors
    /// Those of a data command. The error of the data connection, where what came was written, or of the writer, where
    /// a front of that was; `SourceTooLarge` past 2^63 - 1 bytes; `OutOfMemory` for a buffer: they come before the
    /// error of the last reply, which is read all the same.
    pub fn write_to<R: Wait + AllocGlobal, W: Write, P: Progress>(
        &self,
        rt: &R,
        path: &str,
        writer: &mut W,
        progress: &mut P,
    ) -> FtpResult<u64>
    where
        Tr: Transport<R>,
    {
        self.opening(rt)
            .write_to(rt.alloc(), rt, path, writer, progress)
    }

    /// Downloads what follows this offset, in bytes, of a file to a writer, as `write_to` does: `REST` (350; RFC 3659,
    /// section 5), where the offset isn't 0, and `RETR` (150, 125), in one hold of the lock. Returns how many bytes came, and reports
    /// the place in the file that the download has come to: the offset and these. An offset that `resume_transfer` set
    /// doesn't count, and none is left, unless memory runs out before a data connection is asked for.
    ///
    /// # Errors
    /// Those of `resume_transfer` and `write_to`.
    pub fn download_to<R: Wait + AllocGlobal, W: Write, P: Progress>(
        &self,
        rt: &R,
        path: &str,
        writer: &mut W,
        offset: u64,
        progress: &mut P,
    ) -> FtpResult<u64>
    where
        Tr: Transport<R>,
    {
        let mut session = self.opening(rt);
        session.resume_transfer(rt.alloc(), offset)?;
        let mut progress = FromOffset::new(offset, progress);
        session.write_to(rt.alloc(), rt, path, writer, &mut progress)
    }

    /// Downloads this file to the caller's reader: `RETR` (150, 125; RFC 959, section 4.1.3), the reader, which is
    /// called once on the transfer, and the last reply (226, 250). Returns what the reader returned. The offset is used
    /// as by `retr_as_stream`. The client is busy until the reader returns.
    ///
    /// # Errors
    /// Those of a data command. The reader's error comes before that of the last reply, which is read all the same.
    pub fn retr<R: Wait + AllocGlobal, D: Drop, F: DownloadReader<Tr::Conn, D>>(
        &self,
        rt: &R,
        path: &str,
        reader: &mut F,
    ) -> FtpResult<D>
    where
        Tr: Transport<R>,
    {
        self.opening(rt).retr(rt.alloc(), rt, path, reader)
    }
}
