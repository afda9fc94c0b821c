//! Whole files, from a caller's source or to a caller's reader (RFC 959, sections 3.2 and 4.1.3).
//!
//! Each opens a transfer as its stream form does, moves the bytes, and brings the transfer to its end, of which the
//! caller sees nothing. An upload that fails leaves its transfer: its last reply is read before the next command.

ghost use Rattle.std.specs.Prelude.{◌≡◌, IfErr, false, is_none};
ghost use Rattle.ftp_dialogue.specs.Coding.{chosen};
ghost use Rattle.ftp_dialogue.specs.Link.{asking, blocking, built_by};
ghost use Rattle.ftp_session.specs.Counting.{CountsDownload, CountsSaving, CountsUpload};
ghost use Rattle.ftp_session.specs.Files.{EndsDownload, EndsUpload, FinishesHeld, Puts, Receives, Retrieves, Stores, WritesTo, failed_if, first_of, lacks_memory, unless_failed};
ghost use Rattle.ftp_session.specs.Kept.{Keeps, KeepsChoices};
ghost use Rattle.ftp_transfer.specs.Saving.{Saves};

use super::client::Session;
use super::ending::{ended, leave_behind};
use super::moving::{read_held, send_held, write_held};
use super::polling::DropsCalls;
use super::{Answer, Call};
use ftp_base::encoding::Encoding;
use ftp_base::types::{FtpError, FtpResult};
use ftp_dialogue::data_path::NoData;
use ftp_transfer::{NoProgress, Progress, Transfer, Watch};
use ftp_transport::{Conn, Network, PassiveStreamBuilder, Transport};
use std::alloc::Global;
use std::io::{Read, Write};

/// What reads a download for [`Session::retr`], and what it makes of it: a `D`.
///
/// A closure that takes a transfer can't stand in a bound, so a reader is a type of its own.
pub trait DownloadReader<C: Conn + Drop, D> {
    ghost use Rattle.std.specs.Prelude.{Result};
    ghost use Rattle.ftp_base.specs.declared.types.fault.FtpError.{FtpError as Faults};
    ghost use Rattle.ftp_transfer.specs.Transfer.{TransferValue};

    /// What it may return for a transfer, and how it leaves the transfer.
    ghost reads: { TransferValue → Result D Faults → TransferValue → Type 0 } = { λ _ _ _. Unit {0} };

    /// Reads from the transfer, as much as it wants to. It is called once.
    ///
    /// # Errors
    /// Its own, which are those of `retr`.
    fn read(&mut self, transfer: &mut Transfer<C>) -> FtpResult<D>
        ensures { reads transfer.old result transfer.new };
}

impl<Tr: Network, K: Drop, E: Encoding, B: PassiveStreamBuilder<Tr::Conn>> Session<Tr, K, E, B>
where
    Tr::Conn: Conn,
{
    /// Uploads all of a source to this file, in the place of what it held: `STOR` (125, 150), the bytes, and the last
    /// reply (226, 250). Returns how many bytes were written. They are a text, whose lines end in CR LF on the wire
    /// (RFC 959, section 3.1.1.1), until a `TYPE` of another kind is accepted. The upload begins at the offset that
    /// `resume_transfer` set, if it did; the offset is taken away.
    ///
    /// # Errors
    /// Those of a data command: `DataConnectionAlreadyOpen` where a transfer is live, and nothing is sent. The error of
    /// the source or of the data connection, `SourceTooLarge` where more than 2^63 - 1 bytes would be written,
    /// `OutOfMemory` for a buffer: what was read before is written, the last reply isn't read, and the transfer is
    /// left; or for the record of the data connection, and nothing is read. The error of the data connection's close comes
    /// before that of the last reply. `OutOfMemory` for the last reply leaves the transfer, and the session has failed.
    pub fn put_file<R, S: Read>(
        &mut self,
        alloc: Global,
        rt: &R,
        path: &str,
        source: &mut S,
    ) -> FtpResult<u64>
    where
        Tr: Transport<R>,
        ensures puts { Puts (asking (built_by B.answers self.old.builder) ⊥ (blocking Tr.Conn.Conn))
            (blocking Tr.Conn.Conn) (chosen E.decoded E.encoded self.old.encoding.0)
            (Call.PutWithStream path.now) (S.remaining source.old) (S.remaining source.new)
            self.old.mark self.new.mark self.old.former self.new.former self.old.machine
            self.new.machine result }
        ensures counts { IfErr result (λ fault. CountsUpload
            (asking (built_by B.answers self.old.builder) ⊥ (blocking Tr.Conn.Conn))
            (blocking Tr.Conn.Conn) (chosen E.decoded E.encoded self.old.encoding.0)
            (Call.PutWithStream path.now) (S.remaining source.old) (S.remaining source.new)
            self.old.mark self.old.former self.new.former self.old.machine self.new.machine fault) }
        ensures keeps { KeepsChoices self.old self.new }
    {
        self.put_file_with(alloc, rt, path, source, &mut NoProgress)
    }

    /// Uploads all of a source to this file, as `put_file` does, and reports how far it has come.
    ///
    /// # Errors
    /// Those of `put_file`.
    pub fn put_file_with<R, S: Read, P: Progress>(
        &mut self,
        alloc: Global,
        rt: &R,
        path: &str,
        source: &mut S,
        progress: &mut P,
    ) -> FtpResult<u64>
    where
        Tr: Transport<R>,
        ensures puts { Puts (asking (built_by B.answers self.old.builder) ⊥ (blocking Tr.Conn.Conn))
            (blocking Tr.Conn.Conn) (chosen E.decoded E.encoded self.old.encoding.0)
            (Call.PutWithStream path.now) (S.remaining source.old) (S.remaining source.new)
            self.old.mark self.new.mark self.old.former self.new.former self.old.machine
            self.new.machine result }
        ensures counts { IfErr result (λ fault. CountsUpload
            (asking (built_by B.answers self.old.builder) ⊥ (blocking Tr.Conn.Conn))
            (blocking Tr.Conn.Conn) (chosen E.decoded E.encoded self.old.encoding.0)
            (Call.PutWithStream path.now) (S.remaining source.old) (S.remaining source.new)
            self.old.mark self.old.former self.new.former self.old.machine self.new.machine fault) }
        ensures keeps { KeepsChoices self.old self.new }
    {
        match self.put_with_stream(alloc, rt, path) {
            Ok(transfer) => self.store(alloc, source, progress, transfer),
            Err(fault) => Err(fault),
        }
    }

    /// Uploads all of a source to the end of this file: `APPE` (125, 150), as `put_file` does.
    ///
    /// # Errors
    /// Those of `put_file`.
    pub fn append_file<R, S: Read>(
        &mut self,
        alloc: Global,
        rt: &R,
        path: &str,
        source: &mut S,
    ) -> FtpResult<u64>
    where
        Tr: Transport<R>,
        ensures puts { Puts (asking (built_by B.answers self.old.builder) ⊥ (blocking Tr.Conn.Conn))
            (blocking Tr.Conn.Conn) (chosen E.decoded E.encoded self.old.encoding.0)
            (Call.AppendWithStream path.now) (S.remaining source.old) (S.remaining source.new)
            self.old.mark self.new.mark self.old.former self.new.former self.old.machine
            self.new.machine result }
        ensures counts { IfErr result (λ fault. CountsUpload
            (asking (built_by B.answers self.old.builder) ⊥ (blocking Tr.Conn.Conn))
            (blocking Tr.Conn.Conn) (chosen E.decoded E.encoded self.old.encoding.0)
            (Call.AppendWithStream path.now) (S.remaining source.old) (S.remaining source.new)
            self.old.mark self.old.former self.new.former self.old.machine self.new.machine fault) }
        ensures keeps { KeepsChoices self.old self.new }
    {
        self.append_file_with(alloc, rt, path, source, &mut NoProgress)
    }

    /// Uploads all of a source to the end of this file, as `append_file` does, and reports how far it has come.
    ///
    /// # Errors
    /// Those of `put_file`.
    pub fn append_file_with<R, S: Read, P: Progress>(
        &mut self,
        alloc: Global,
        rt: &R,
        path: &str,
        source: &mut S,
        progress: &mut P,
    ) -> FtpResult<u64>
    where
        Tr: Transport<R>,
        ensures puts { Puts (asking (built_by B.answers self.old.builder) ⊥ (blocking Tr.Conn.Conn))
            (blocking Tr.Conn.Conn) (chosen E.decoded E.encoded self.old.encoding.0)
            (Call.AppendWithStream path.now) (S.remaining source.old) (S.remaining source.new)
            self.old.mark self.new.mark self.old.former self.new.former self.old.machine
            self.new.machine result }
        ensures counts { IfErr result (λ fault. CountsUpload
            (asking (built_by B.answers self.old.builder) ⊥ (blocking Tr.Conn.Conn))
            (blocking Tr.Conn.Conn) (chosen E.decoded E.encoded self.old.encoding.0)
            (Call.AppendWithStream path.now) (S.remaining source.old) (S.remaining source.new)
            self.old.mark self.old.former self.new.former self.old.machine self.new.machine fault) }
        ensures keeps { KeepsChoices self.old self.new }
    {
        match self.append_with_stream(alloc, rt, path) {
            Ok(transfer) => self.store(alloc, source, progress, transfer),
            Err(fault) => Err(fault),
        }
    }

    /// Downloads this file to the caller's reader: `RETR` (150, 125), the reader, which is called once on the transfer,
    /// and the last reply (226, 250). Returns what the reader returned. The bytes are as they come, and it isn't asked
    /// for that all of them are read. The download begins at the offset that `resume_transfer` set, if it did; the
    /// offset is taken away.
    ///
    /// # Errors
    /// Those of a data command: `DataConnectionAlreadyOpen` where a transfer is live, and nothing is sent. The reader's
    /// error, whatever the last reply is, which is read all the same; else the error of the last reply. `OutOfMemory`
    /// for the last reply leaves the transfer, and the session has failed; for the record of the data connection it leaves
    /// the transfer, and the reader isn't called.
    pub fn retr<R, D: Drop, F: DownloadReader<Tr::Conn, D>>(
        &mut self,
        alloc: Global,
        rt: &R,
        path: &str,
        reader: &mut F,
    ) -> FtpResult<D>
    where
        Tr: Transport<R>,
        ensures retrieves { Retrieves (asking (built_by B.answers self.old.builder) ⊥
            (blocking Tr.Conn.Conn)) (blocking Tr.Conn.Conn) (chosen E.decoded E.encoded
            self.old.encoding.0) (Call.RetrAsStream path.now) F.reads self.old.mark self.new.mark
            self.old.former self.new.former self.old.machine self.new.machine result }
        ensures counts { IfErr result (λ fault. CountsDownload
            (asking (built_by B.answers self.old.builder) ⊥ (blocking Tr.Conn.Conn))
            (blocking Tr.Conn.Conn) (chosen E.decoded E.encoded self.old.encoding.0)
            (Call.RetrAsStream path.now) F.reads self.old.mark self.old.former self.new.former
            self.old.machine self.new.machine fault) }
        ensures keeps { KeepsChoices self.old self.new }
    {
        match self.retr_as_stream(alloc, rt, path) {
            Ok(transfer) => self.read_by(alloc, reader, transfer),
            Err(fault) => Err(fault),
        }
    }

    /// Downloads this file to a writer: `RETR` (150, 125), the bytes as they come, and the last reply (226, 250).
    /// Returns how many bytes were written, and reports how far the download has come. It begins at the offset that
    /// `resume_transfer` set, if it did; the offset is taken away.
    ///
    /// # Errors
    /// Those of a data command: `DataConnectionAlreadyOpen` where a transfer is live, and nothing is sent. The error of
    /// the data connection, where what came was written, or of the writer, where a front of that was; `SourceTooLarge`
    /// where more than 2^63 - 1 bytes come; `OutOfMemory` for a buffer: whatever the last reply is, which is read all
    /// the same. Else the error of the last reply. `OutOfMemory` for that leaves the transfer, and the session has
    /// failed; for the record of the data connection it leaves the transfer, and nothing is written.
    pub fn write_to<R, W: Write, P: Progress>(
        &mut self,
        alloc: Global,
        rt: &R,
        path: &str,
        writer: &mut W,
        progress: &mut P,
    ) -> FtpResult<u64>
    where
        Tr: Transport<R>,
        ensures writes { WritesTo (asking (built_by B.answers self.old.builder) ⊥
            (blocking Tr.Conn.Conn)) (blocking Tr.Conn.Conn) (chosen E.decoded E.encoded
            self.old.encoding.0) (Call.RetrAsStream path.now) (W.contents writer.old)
            (W.contents writer.new) self.old.mark self.new.mark self.old.former self.new.former
            self.old.machine self.new.machine result }
        ensures counts { IfErr result (λ fault. CountsSaving
            (asking (built_by B.answers self.old.builder) ⊥ (blocking Tr.Conn.Conn))
            (blocking Tr.Conn.Conn) (chosen E.decoded E.encoded self.old.encoding.0)
            (Call.RetrAsStream path.now) (W.contents writer.old) (W.contents writer.new)
            self.old.mark self.old.former self.new.former self.old.machine self.new.machine fault) }
        ensures keeps { KeepsChoices self.old self.new }
    {
        match self.retr_as_stream(alloc, rt, path) {
            Ok(transfer) => self.receive(alloc, writer, progress, transfer),
            Err(fault) => Err(fault),
        }
    }

    /// Hands a transfer to a reader, and brings it to its end. Where there is no memory for the record of its data
    /// connection the reader isn't called, and the transfer is left.
    fn read_by<D: Drop, F: DownloadReader<Tr::Conn, D>>(
        &mut self,
        alloc: Global,
        reader: &mut F,
        transfer: Transfer<Tr::Conn>,
    ) -> FtpResult<D>
        ensures receives { Receives (blocking Tr.Conn.Conn)
            (chosen E.decoded E.encoded self.old.encoding.0) (F.reads transfer) (Unit {0})
            self.old.mark self.new.mark self.old.machine self.new.machine result }
        ensures keeps { Keeps self.old self.new }
    {
        let read = read_held(&mut self.machine, &mut self.mark, transfer, reader);
        self.end_download(alloc, read, false)
    }

    /// Writes a transfer's bytes to a writer, and brings the transfer to its end. Where there is no memory for the record of
    /// its data connection nothing is written, and the transfer is left.
    fn receive<W: Write, P: Progress>(
        &mut self,
        alloc: Global,
        writer: &mut W,
        progress: &mut P,
        transfer: Transfer<Tr::Conn>,
    ) -> FtpResult<u64>
        ensures receives { Receives (blocking Tr.Conn.Conn)
            (chosen E.decoded E.encoded self.old.encoding.0)
            (λ saved over. Saves Tr.Conn.tells (W.contents writer.old) (W.contents writer.new)
            transfer over saved)
            (W.contents writer.new ≡ W.contents writer.old) self.old.mark self.new.mark
            self.old.machine self.new.machine result }
        ensures keeps { Keeps self.old self.new }
    {
        let mut watch = Watch::new(progress);
        let saved = write_held(
            &mut self.machine,
            &mut self.mark,
            alloc,
            transfer,
            writer,
            &mut watch,
        );
        self.end_download(alloc, saved, watch.data_failed())
    }

    /// Copies a source to a transfer, and brings it to its end; or leaves it, where that can't be done. Where there is no
    /// memory for the record of its data connection nothing is read.
    fn store<S: Read, P: Progress>(
        &mut self,
        alloc: Global,
        source: &mut S,
        progress: &mut P,
        transfer: Transfer<Tr::Conn>,
    ) -> FtpResult<u64>
        ensures stores { Stores (blocking Tr.Conn.Conn) (chosen E.decoded E.encoded
            self.old.encoding.0) (S.remaining source.old) (S.remaining source.new) transfer
            self.old.mark self.new.mark self.old.machine self.new.machine result }
        ensures keeps { Keeps self.old self.new }
    {
        let mut watch = Watch::new(progress);
        let copied = send_held(
            &mut self.machine,
            &mut self.mark,
            alloc,
            source,
            transfer,
            &mut watch,
        );
        match copied {
            Some(copied) => self.end_upload(alloc, copied, watch.data_failed()),
            None => {
                leave_behind(&mut self.machine);
                Err(FtpError::OutOfMemory)
            }
        }
    }

    /// Brings an upload to its end, whose data connection was taken back; or leaves it, where it wasn't copied.
    fn end_upload(
        &mut self,
        alloc: Global,
        copied: FtpResult<u64>,
        data_failed: bool,
    ) -> FtpResult<u64>
        requires held { is_none self.old.machine.net.data_conn ≡ false }
        ensures ends { EndsUpload (blocking Tr.Conn.Conn) (chosen E.decoded E.encoded
            self.old.encoding.0) self.old.machine self.new.machine copied result }
        ensures mark { self.new.mark ≡ self.old.mark }
        ensures keeps { Keeps self.old self.new }
    {
        self.note(&copied, data_failed);
        match copied {
            Ok(count) => unless_failed(count, self.finish_held(alloc)),
            Err(fault) => {
                pass_over(self.machine.local_call(alloc, &Call::Leave));
                Err(fault)
            }
        }
    }

    /// Brings a download to its end, whose data connection was taken back; or leaves it, where nothing of it was moved.
    fn end_download<T: Drop>(
        &mut self,
        alloc: Global,
        moved: Option<FtpResult<T>>,
        data_failed: bool,
    ) -> FtpResult<T>
        requires held { is_none moved ≡ false →
            is_none self.old.machine.net.data_conn ≡ false }
        ensures ends { EndsDownload (blocking Tr.Conn.Conn) (chosen E.decoded E.encoded
            self.old.encoding.0) self.old.machine self.new.machine moved result }
        ensures mark { self.new.mark ≡ self.old.mark }
        ensures keeps { Keeps self.old self.new }
    {
        match moved {
            Some(moved) => {
                self.note(&moved, data_failed);
                first_of(moved, self.finish_held(alloc))
            }
            None => {
                leave_behind(&mut self.machine);
                Err(FtpError::OutOfMemory)
            }
        }
    }

    /// A whole file has met an error of input or output, if it did: on the data connection, or in what the caller handed in.
    fn note<T>(&mut self, copied: &FtpResult<T>, data_failed: bool)
        ensures machine { self.new.machine ≡ self.old.machine }
        ensures mark { self.new.mark ≡ self.old.mark }
        ensures keeps { Keeps self.old self.new }
    {
        if let Err(fault) = copied {
            self.note_failure(fault, data_failed);
        }
    }

    /// Brings a transfer to its end whose data connection was taken back. Where memory runs out for that the session has
    /// failed, since the file's call has begun.
    fn finish_held(&mut self, alloc: Global) -> FtpResult<()>
        requires held { is_none self.old.machine.net.data_conn ≡ false }
        ensures finishes { FinishesHeld (blocking Tr.Conn.Conn)
            (chosen E.decoded E.encoded self.old.encoding.0) self.old.machine self.new.machine
            result }
        ensures mark { self.new.mark ≡ self.old.mark }
        ensures keeps { Keeps self.old self.new }
    {
        let ended = ended(
            self.machine
                .call_alone(&NoData, alloc, &self.encoding, &Call::Finish),
        );
        self.fail_if(lacks_memory(&ended));
        ended
    }

    /// The session has failed, if so.
    fn fail_if(&mut self, lost: bool)
        ensures machine { self.new.machine ≡ failed_if lost self.old.machine }
        ensures mark { self.new.mark ≡ self.old.mark }
        ensures keeps { Keeps self.old self.new }
    {
        if lost {
            self.fail();
        }
    }
}

/// Whether there was no memory for the end of a transfer.
fn lacks_memory(ended: &FtpResult<()>) -> bool
    ensures { result ≡ lacks_memory ended.now }
{
    match ended {
        Ok(()) => false,
        Err(FtpError::OutOfMemory) => true,
        Err(
            FtpError::ConnectionError(_)
            | FtpError::SecureError(_)
            | FtpError::UnexpectedResponse(_)
            | FtpError::BadResponse
            | FtpError::InvalidAddress
            | FtpError::DataConnectionAlreadyOpen
            | FtpError::SessionFailed,
        ) => false,
    }
}

/// What leaving a transfer resulted in is discarded.
fn pass_over(answer: Answer) {
    drop(answer);
}

/// A value, unless a call after it failed.
fn unless_failed<T: Drop>(value: T, ended: FtpResult<()>) -> FtpResult<T>
    ensures { result ≡ unless_failed value ended }
{
    match ended {
        Ok(()) => Ok(value),
        Err(fault) => Err(fault),
    }
}

/// The error of the first, or that of the second, or what the first returned.
fn first_of<T: Drop>(read: FtpResult<T>, ended: FtpResult<()>) -> FtpResult<T>
    ensures { result ≡ first_of read ended }
{
    match read {
        Ok(value) => unless_failed(value, ended),
        Err(fault) => Err(fault),
    }
}
