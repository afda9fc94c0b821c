//! Scripts, played.
//!
//! The calls of a script are made by a session over a connection over memory that delivers what the server sends and
//! then ends, one after another, so that it is known what went out in each. Its data connections come from a transport
//! over memory.

ghost use Rattle.std.specs.Prelude.{◌≡◌, ◌++◌, OnOk, None, IfOk, ℕ, List, [], drop, map};
ghost use Rattle.ftp_transport.specs.Memory.{fresh_between, unspecified};
ghost use Rattle.ftp_dialogue.specs.State.{Begins};
ghost use Rattle.ftp_dialogue.specs.NetEvents.{first_net};
ghost use Rattle.ftp_dialogue.specs.Dialogue.{rule_by};
ghost use Rattle.ftp_script.specs.Playing.{IsTranscript, MakesOne, giving, server_address, supply_of};
ghost use Rattle.ftp_session.specs.Kept.{KeepsChoices};

use crate::script::Script;
use crate::shown::{push_call, push_end};
use crate::supplies::transport_of;
use ftp_base::types::FtpResult;
use ftp_calls::call::Call;
use ftp_runs::RunCalls;
use ftp_session::session::Session;
use ftp_transport::{Asked, MemoryConn, MemoryTransport};
use std::alloc::{AllocError, Global};
use std::net::{Ipv4Addr, SocketAddr, SocketAddrV4};
use std::slice;

/// The transcript of a script.
///
/// # Errors
/// `AllocError` where an allocation fails outside a call.
pub(crate) fn transcript_of(alloc: Global, script: &Script) -> Result<Vec<u8>, AllocError>
    ensures { IfOk result (λ text. IsTranscript script.now text.items) }
{
    let mut session = session_of(alloc, script)?;
    let mut text = Vec::new(alloc);
    push_made(alloc, &mut text, &mut session, &Call::Greet)?;
    for call in script.calls.as_slice() {
        push_made(alloc, &mut text, &mut session, call)?;
    }
    let received = session.get_ref().received();
    push_end(alloc, &mut text, received.saturating_sub(session.untaken()))?;
    Ok(text)
}

/// A session that is to read what the server sends, over a transport with the data connections.
fn session_of(alloc: Global, script: &Script) -> Result<Session<MemoryTransport>, AllocError>
    ensures encoding { IfOk result (λ session. session.encoding.0 ≡ None) }
    ensures builder { IfOk result (λ session. session.builder ≡ None) }
    ensures mark { IfOk result (λ session. session.mark ≡ None) }
    ensures begins { IfOk result (λ session.
        Begins (Unit {0}) (rule_by script.now.lenient) (giving script.now.server (fresh_between
        unspecified server_address))
        (first_net [] (map supply_of script.now.data_conns) []) session.machine) }
{
    let transport = transport_of(alloc, script.data_conns.as_slice())?;
    let here = SocketAddr::V4(SocketAddrV4::new(Ipv4Addr::new(0, 0, 0, 0), 0));
    let server = SocketAddr::V4(SocketAddrV4::new(Ipv4Addr::new(192, 0, 2, 7), 21));
    let mut conn = MemoryConn::between(alloc, here, server);
    conn.feed(script.server.as_slice())?;
    conn.end();
    match session_on(alloc, transport, conn, script.lenient) {
        Ok(session) => Ok(session),
        Err(_) => Err(AllocError),
    }
}

/// A session that reads replies leniently, or doesn't.
fn session_on(
    alloc: Global,
    transport: MemoryTransport,
    conn: MemoryConn,
    lenient: bool,
) -> FtpResult<Session<MemoryTransport>>
    ensures encoding { IfOk result (λ session. session.encoding.0 ≡ None) }
    ensures builder { IfOk result (λ session. session.builder ≡ None) }
    ensures mark { IfOk result (λ session. session.mark ≡ None) }
    ensures begins { IfOk result (λ session. Begins (Unit {0}) (rule_by lenient) conn
        (first_net transport.answered transport.ready transport.closed) session.machine) }
{
    let mut session = Session::new(alloc, transport, conn)?;
    session.set_lenient_replies(lenient);
    Ok(session)
}

/// Makes a call, and adds the lines that went out in it, the addresses that were asked for, and its answer.
fn push_made(
    alloc: Global,
    text: &mut Vec<u8>,
    session: &mut Session<MemoryTransport>,
    call: &Call,
) -> Result<(), AllocError>
    requires encoding { session.old.encoding.0 ≡ None }
    requires builder { session.old.builder ≡ None }
    requires mark { session.old.mark ≡ None }
    ensures keeps { KeepsChoices session.old session.new }
    ensures mark { session.new.mark ≡ None }
    ensures makes { OnOk result ((made : List ℕ) × (text.new.items ≡ text.old.items ++ made) ×
        MakesOne call.now session.old.machine session.new.machine made) }
{
    let before = session.get_ref().sent().len();
    let asked = session.transport().requests().len();
    let answers = match session.run(alloc, &(), slice::from_ref(call)) {
        Ok(answers) => answers,
        Err(_) => return Err(AllocError),
    };
    let sent = sent_after(session, before);
    push_call(alloc, text, sent, asked_after(session, asked), &answers[0])
}

/// What went out after the first so many bytes.
fn sent_after(session: &Session<MemoryTransport>, before: usize) -> &[u8]
    ensures { result.now ≡ drop before session.now.machine.channel.told.sent }
{
    session.get_ref().sent().get(before..).unwrap_or(&[])
}

/// What was asked for after the first so many requests.
fn asked_after(session: &Session<MemoryTransport>, before: usize) -> &[Asked]
    ensures { result.now ≡ drop before session.now.machine.net.asked }
{
    session.transport().requests().get(before..).unwrap_or(&[])
}
