//! Calls that open a data connection.

ghost use Rattle.std.specs.Prelude.{◌≡◌, IfErr, option_map};
ghost use Rattle.ftp_calls.specs.declared.call.Answer.TheVariants.{Fault};
ghost use Rattle.ftp_dialogue.specs.Coding.{chosen};
ghost use Rattle.ftp_dialogue.specs.Counted.{CountsFaultsBeside};
ghost use Rattle.ftp_dialogue.specs.Link.{asking, blocking, built_by};
ghost use Rattle.ftp_session.specs.Calls.{bytes_answer, lines_answer};
ghost use Rattle.ftp_session.specs.Counting.{CountsDownload, CountsSaving, CountsUpload};
ghost use Rattle.ftp_session.specs.Files.{Puts, Retrieves, WritesTo};
ghost use Rattle.ftp_session.specs.Handed.{Opens, PlaysSeen};
ghost use Rattle.ftp_transfer.specs.declared.direction.Direction.TheVariants as directions;
ghost use Rattle.ftp_session.specs.Kept.{Keeps, KeepsChoices};

use ftp_base::encoding::Encoding;
use ftp_base::types::FtpResult;
use ftp_session::session::{Call, DownloadReader, Session};
use ftp_transfer::{Progress, Transfer};
use ftp_transport::{Conn, Network, PassiveStreamBuilder, Transport};
use std::alloc::Global;
use std::io::{Read, Write};

/// `Session::retr_as_stream`.
pub fn retr_as_stream<Tr: Network, K: Drop, E: Encoding, B: PassiveStreamBuilder<Tr::Conn>, R>(
    session: &mut Session<Tr, K, E, B>,
    alloc: Global,
    rt: &R,
    path: &str,
) -> FtpResult<Transfer<Tr::Conn>>
where
    Tr::Conn: Conn,
    Tr: Transport<R>,
    ensures opens { Opens (asking (built_by B.answers session.old.builder) ⊥
        (blocking Tr.Conn.Conn)) (chosen E.decoded E.encoded session.old.encoding.0)
        (Call.RetrAsStream path.now) directions.Download session.old.mark session.new.mark
        session.old.former session.new.former session.old.machine session.new.machine result }
    ensures counts { IfErr result (λ fault. CountsFaultsBeside
        (asking (built_by B.answers session.old.builder) ⊥ (blocking Tr.Conn.Conn))
        session.old.machine session.new.machine (Fault fault)) }
    ensures keeps { KeepsChoices session.old session.new }
{
    session.retr_as_stream(alloc, rt, path)
}

/// `Session::append_with_stream`.
pub fn append_with_stream<Tr: Network, K: Drop, E: Encoding, B: PassiveStreamBuilder<Tr::Conn>, R>(
    session: &mut Session<Tr, K, E, B>,
    alloc: Global,
    rt: &R,
    path: &str,
) -> FtpResult<Transfer<Tr::Conn>>
where
    Tr::Conn: Conn,
    Tr: Transport<R>,
    ensures opens { Opens (asking (built_by B.answers session.old.builder) ⊥
        (blocking Tr.Conn.Conn)) (chosen E.decoded E.encoded session.old.encoding.0)
        (Call.AppendWithStream path.now) directions.Upload session.old.mark session.new.mark
        session.old.former session.new.former session.old.machine session.new.machine result }
    ensures counts { IfErr result (λ fault. CountsFaultsBeside
        (asking (built_by B.answers session.old.builder) ⊥ (blocking Tr.Conn.Conn))
        session.old.machine session.new.machine (Fault fault)) }
    ensures keeps { KeepsChoices session.old session.new }
{
    session.append_with_stream(alloc, rt, path)
}

/// `Session::retr_as_buffer`.
pub fn retr_as_buffer<Tr: Network, K: Drop, E: Encoding, B: PassiveStreamBuilder<Tr::Conn>, R>(
    session: &mut Session<Tr, K, E, B>,
    alloc: Global,
    rt: &R,
    path: &str,
) -> FtpResult<Vec<u8>>
where
    Tr::Conn: Conn,
    Tr: Transport<R>,
    ensures fetches { PlaysSeen (asking (built_by B.answers session.old.builder) ⊥
        (blocking Tr.Conn.Conn)) (chosen E.decoded E.encoded session.old.encoding.0)
        (Call.Retr path.now) session.old.mark session.new.mark session.old.machine
        session.new.machine (bytes_answer result) }
    ensures counts { CountsFaultsBeside (asking (built_by B.answers session.old.builder) ⊥
        (blocking Tr.Conn.Conn)) session.old.machine session.new.machine (bytes_answer result) }
    ensures keeps { Keeps session.old session.new }
{
    session.retr_as_buffer(alloc, rt, path)
}

/// `Session::nlst`.
pub fn nlst<Tr: Network, K: Drop, E: Encoding, B: PassiveStreamBuilder<Tr::Conn>, R>(
    session: &mut Session<Tr, K, E, B>,
    alloc: Global,
    rt: &R,
    path: Option<&str>,
) -> FtpResult<Vec<String>>
where
    Tr::Conn: Conn,
    Tr: Transport<R>,
    ensures fetches { PlaysSeen (asking (built_by B.answers session.old.builder) ⊥
        (blocking Tr.Conn.Conn)) (chosen E.decoded E.encoded session.old.encoding.0)
        (Call.Nlst (option_map (λ text. text.now) path.entry)) session.old.mark session.new.mark
        session.old.machine session.new.machine (lines_answer result) }
    ensures counts { CountsFaultsBeside (asking (built_by B.answers session.old.builder) ⊥
        (blocking Tr.Conn.Conn)) session.old.machine session.new.machine (lines_answer result) }
    ensures keeps { Keeps session.old session.new }
{
    session.nlst(alloc, rt, path)
}

/// `Session::retr`.
pub fn retr<
    Tr: Network,
    K: Drop,
    E: Encoding,
    B: PassiveStreamBuilder<Tr::Conn>,
    R,
    D: Drop,
    F: DownloadReader<Tr::Conn, D>,
>(
    session: &mut Session<Tr, K, E, B>,
    alloc: Global,
    rt: &R,
    path: &str,
    reader: &mut F,
) -> FtpResult<D>
where
    Tr::Conn: Conn,
    Tr: Transport<R>,
    ensures retrieves { Retrieves (asking (built_by B.answers session.old.builder) ⊥
        (blocking Tr.Conn.Conn)) (blocking Tr.Conn.Conn) (chosen E.decoded E.encoded
        session.old.encoding.0) (Call.RetrAsStream path.now) F.reads session.old.mark
        session.new.mark session.old.former session.new.former session.old.machine
        session.new.machine result }
    ensures counts { IfErr result (λ fault. CountsDownload
        (asking (built_by B.answers session.old.builder) ⊥ (blocking Tr.Conn.Conn))
        (blocking Tr.Conn.Conn) (chosen E.decoded E.encoded session.old.encoding.0)
        (Call.RetrAsStream path.now) F.reads session.old.mark session.old.former session.new.former
        session.old.machine session.new.machine fault) }
    ensures keeps { KeepsChoices session.old session.new }
{
    session.retr(alloc, rt, path, reader)
}

/// `Session::write_to`.
pub fn write_to<
    Tr: Network,
    K: Drop,
    E: Encoding,
    B: PassiveStreamBuilder<Tr::Conn>,
    R,
    W: Write,
    P: Progress,
>(
    session: &mut Session<Tr, K, E, B>,
    alloc: Global,
    rt: &R,
    path: &str,
    writer: &mut W,
    progress: &mut P,
) -> FtpResult<u64>
where
    Tr::Conn: Conn,
    Tr: Transport<R>,
    ensures writes { WritesTo (asking (built_by B.answers session.old.builder) ⊥
        (blocking Tr.Conn.Conn)) (blocking Tr.Conn.Conn) (chosen E.decoded E.encoded
        session.old.encoding.0) (Call.RetrAsStream path.now) (W.contents writer.old)
        (W.contents writer.new) session.old.mark session.new.mark session.old.former
        session.new.former session.old.machine session.new.machine result }
    ensures counts { IfErr result (λ fault. CountsSaving (asking
        (built_by B.answers session.old.builder) ⊥ (blocking Tr.Conn.Conn)) (blocking Tr.Conn.Conn)
        (chosen E.decoded E.encoded session.old.encoding.0) (Call.RetrAsStream path.now)
        (W.contents writer.old) (W.contents writer.new) session.old.mark session.old.former
        session.new.former session.old.machine session.new.machine fault) }
    ensures keeps { KeepsChoices session.old session.new }
{
    session.write_to(alloc, rt, path, writer, progress)
}

/// `Session::put_file`.
pub fn put_file<Tr: Network, K: Drop, E: Encoding, B: PassiveStreamBuilder<Tr::Conn>, R, S: Read>(
    session: &mut Session<Tr, K, E, B>,
    alloc: Global,
    rt: &R,
    path: &str,
    source: &mut S,
) -> FtpResult<u64>
where
    Tr::Conn: Conn,
    Tr: Transport<R>,
    ensures puts { Puts (asking (built_by B.answers session.old.builder) ⊥ (blocking Tr.Conn.Conn))
        (blocking Tr.Conn.Conn) (chosen E.decoded E.encoded session.old.encoding.0)
        (Call.PutWithStream path.now) (S.remaining source.old) (S.remaining source.new)
        session.old.mark session.new.mark session.old.former session.new.former session.old.machine
        session.new.machine result }
    ensures counts { IfErr result (λ fault. CountsUpload
        (asking (built_by B.answers session.old.builder) ⊥ (blocking Tr.Conn.Conn))
        (blocking Tr.Conn.Conn) (chosen E.decoded E.encoded session.old.encoding.0)
        (Call.PutWithStream path.now) (S.remaining source.old) (S.remaining source.new)
        session.old.mark session.old.former session.new.former session.old.machine session.new.machine fault) }
    ensures keeps { KeepsChoices session.old session.new }
{
    session.put_file(alloc, rt, path, source)
}
