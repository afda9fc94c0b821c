//! The bytes of a whole file, over a transfer that its session handed out (RFC 959, section 3.2).
//!
//! Room for the record of the data connection is made before a byte is moved, so that the connection comes back into the
//! session whatever happens: what was sent and received on it is on record.

ghost use Rattle.std.specs.Prelude.{◌≡◌};
ghost use Rattle.ftp_transfer.specs.Copying.{Copies};
ghost use Rattle.ftp_transfer.specs.Saving.{Saves};
ghost use Rattle.ftp_session.specs.Files.{MovesHeld};

use super::files::DownloadReader;
use ftp_base::types::FtpResult;
use ftp_dialogue::machine::Machine;
use ftp_transfer::mark::SessionEnd;
use ftp_transfer::{Progress, Transfer, TransferParts, Watch, copy, save};
use ftp_transport::{Conn, Network};
use std::alloc::Global;
use std::io::{Read, Write};

/// Copies a source to a transfer, and takes its data connection back, against the session's end of its mark. Returns what
/// came of the copy, or nothing where there was no memory for the record of the connection: nothing was read then, and
/// the transfer is dropped.
pub(super) fn send_held<Tr: Network, S: Read, P: Progress>(
    machine: &mut Machine<Tr>,
    mark: &mut Option<SessionEnd>,
    alloc: Global,
    source: &mut S,
    mut transfer: Transfer<Tr::Conn>,
    watch: &mut Watch<'_, P>,
) -> Option<FtpResult<u64>>
where
    Tr::Conn: Conn,
    ensures moves { MovesHeld
        (λ copied sent. Copies Tr.Conn.tells machine.old.state.settings.text
        (S.remaining source.old) (S.remaining source.new) transfer sent copied)
        (S.remaining source.new ≡ S.remaining source.old) mark.old mark.new machine.old machine.new
        result }
{
    let text = machine.state.settings.text;
    if machine.transport.make_room().is_err() {
        return None;
    }
    let end = mark.take()?;
    let copied = copy(alloc, text, source, &mut transfer, watch);
    machine.data_conn = Some(transfer.into_conn(end));
    Some(copied)
}

/// Writes the bytes of a transfer to a writer, and takes its data connection back. Returns what came of that, or nothing
/// where there was no memory for the record of the connection: nothing was written then, and the transfer is dropped.
pub(super) fn write_held<Tr: Network, W: Write, P: Progress>(
    machine: &mut Machine<Tr>,
    mark: &mut Option<SessionEnd>,
    alloc: Global,
    mut transfer: Transfer<Tr::Conn>,
    writer: &mut W,
    watch: &mut Watch<'_, P>,
) -> Option<FtpResult<u64>>
where
    Tr::Conn: Conn,
    ensures moves { MovesHeld
        (λ saved over. Saves Tr.Conn.tells (W.contents writer.old) (W.contents writer.new) transfer
        over saved)
        (W.contents writer.new ≡ W.contents writer.old) mark.old mark.new machine.old machine.new
        result }
{
    if machine.transport.make_room().is_err() {
        return None;
    }
    let end = mark.take()?;
    let saved = save(alloc, &mut transfer, writer, watch);
    machine.data_conn = Some(transfer.into_conn(end));
    Some(saved)
}

/// Calls a reader on a transfer, and takes its data connection back. Returns what the reader did, or nothing where there
/// was no memory for the record of the connection: it wasn't called then, and the transfer is dropped.
pub(super) fn read_held<Tr: Network, D, F: DownloadReader<Tr::Conn, D>>(
    machine: &mut Machine<Tr>,
    mark: &mut Option<SessionEnd>,
    mut transfer: Transfer<Tr::Conn>,
    reader: &mut F,
) -> Option<FtpResult<D>>
where
    Tr::Conn: Conn,
    ensures moves { MovesHeld (F.reads transfer) (Unit {0}) mark.old mark.new machine.old
        machine.new
        result }
{
    if machine.transport.make_room().is_err() {
        return None;
    }
    let end = mark.take()?;
    let read = reader.read(&mut transfer);
    machine.data_conn = Some(transfer.into_conn(end));
    Some(read)
}
