//! The session that a client holds: the machine of all dialogues, and the encoding of its texts.
//!
//! It is made on a connection, with or without its greeting. What can go wrong later fails a session for good, and a
//! session that has failed returns `SessionFailed` from each call and touches nothing; the connection is dropped with
//! it.

ghost use Rattle.std.specs.Prelude.{◌≡◌, IfOk, MatchResult, Ok, IfErr, OnOk, OnErr, Some, None, length, option_map};
ghost use Rattle.ftp_control.specs.Channel.{IsSound, untaken};
ghost use Rattle.ftp_session.specs.Calls.{Connects, FailsToConnect};
ghost use Rattle.ftp_session.specs.Counting.{CountsInGreeting};
ghost use Rattle.ftp_dialogue.specs.Coding.{chosen};
ghost use Rattle.ftp_dialogue.specs.NetEvents.{first_net};
ghost use Rattle.ftp_dialogue.specs.Link.{blocking};
ghost use Rattle.ftp_dialogue.specs.Sound.{SoundCounts};
ghost use Rattle.ftp_dialogue.specs.State.{greeted_again, Begins};

use super::chosen::Chosen;
use super::parameters::NoStreamBuilder;
use super::{Call, Counts, Failure, State};
use ftp_base::encoding::{Encoding, Utf8Encoding};
use ftp_base::types::{FtpError, FtpResult};
use ftp_control::control::ReplyRule;
use ftp_dialogue::machine::Machine;
use ftp_secure::NoTlsConnector;
use ftp_transfer::mark::SessionEnd;
use ftp_transport::{Conn, Network};
use std::alloc::Global;
use std::marker::PhantomData;

/// A session over the connections of a transport.
///
/// Its parameters are the transport, the connector of TLS, the encoding of texts on the control connection and the
/// builder of passive data connections. Without the last three, as in `Session<TcpTransport>`, it has no TLS, reads
/// and writes UTF-8, and lets the transport make its data connections. A session that can be put under TLS is one over a
/// transport of `ftp_secure`, as `Session<Secured<TcpTransport, K>, K>`.
pub struct Session<
    Tr: Network,
    K: Drop = NoTlsConnector,
    E: Encoding = Utf8Encoding,
    B: Drop = NoStreamBuilder,
> {
    pub(super) machine: Machine<Tr>,
    pub(super) encoding: Chosen<E>,
    // The connector is the transport's (`SecureNetwork`).
    connector: PhantomData<K>,
    pub(super) builder: Option<B>,
    /// This end of the mark of the transfer that was handed out last.
    pub(super) mark: Option<SessionEnd>,
    /// That of the transfer before, as the last look left it: what was found there stays in evidence.
    pub(super) former: Option<SessionEnd>,
}

impl<Tr: Network, K: Drop, E: Encoding, B: Drop> Drop for Session<Tr, K, E, B> {
    fn drop(self) {
        let Self {
            machine,
            encoding,
            connector: _,
            builder,
            mark,
            former,
        } = self;
        drop(machine);
        drop(encoding);
        drop(builder);
        drop(mark);
        drop(former);
    }
}

impl<Tr: Network, K: Drop, E: Encoding, B: Drop> Session<Tr, K, E, B> {
    /// A session on a connection, which reads replies as RFC 959, section 4.2, has them. Nothing is read and nothing is
    /// sent.
    ///
    /// # Errors
    /// `OutOfMemory` for the buffer of received bytes. The connection is closed.
    pub fn new(alloc: Global, transport: Tr, conn: Tr::Conn) -> FtpResult<Session<Tr, K, E, B>>
        ensures memory { IfErr result (λ fault. fault ≡ FtpError.OutOfMemory) }
        ensures begins { IfOk result (λ session. Begins Tr.Conn.tells ReplyRule.Strict
            (Tr.Conn.told conn) (first_net (Tr.asked transport) (Tr.ready transport)
            (Tr.closed transport)) session.machine) }
        ensures sound { IfOk result (λ session. IsSound Tr.Conn.tells session.machine.channel) }
        ensures encoding { IfOk result (λ session. session.encoding.0 ≡ None) }
        ensures builder { IfOk result (λ session. session.builder ≡ None) }
        ensures mark { IfOk result (λ session. session.mark ≡ None) }
    {
        Session::by_rule(alloc, transport, conn, ReplyRule::Strict)
    }

    /// A session on a connection, which reads replies by this rule.
    fn by_rule(
        alloc: Global,
        transport: Tr,
        conn: Tr::Conn,
        rule: ReplyRule,
    ) -> FtpResult<Session<Tr, K, E, B>>
        ensures memory { IfErr result (λ fault. fault ≡ FtpError.OutOfMemory) }
        ensures begins { IfOk result (λ session. Begins Tr.Conn.tells rule (Tr.Conn.told conn)
            (first_net (Tr.asked transport) (Tr.ready transport) (Tr.closed transport))
            session.machine) }
        ensures sound { IfOk result (λ session. IsSound Tr.Conn.tells session.machine.channel) }
        ensures encoding { IfOk result (λ session. session.encoding.0 ≡ None) }
        ensures builder { IfOk result (λ session. session.builder ≡ None) }
        ensures mark { IfOk result (λ session. session.mark ≡ None) }
    {
        let machine = Machine::new(alloc, transport, conn, rule)?;
        Ok(Session {
            machine,
            encoding: Chosen(None),
            connector: PhantomData,
            builder: None,
            mark: None,
            former: None,
        })
    }

    /// A session on a connection, once the server's greeting (220) was read.
    ///
    /// # Errors
    /// `OutOfMemory`; those of a read of one reply. The connection is closed then.
    pub fn connect_with_stream(
        alloc: Global,
        transport: Tr,
        conn: Tr::Conn,
    ) -> FtpResult<Session<Tr, K, E, B>>
    where
        Tr::Conn: Conn,
        ensures encoding { IfOk result (λ session. session.encoding.0 ≡ None) }
        ensures builder { IfOk result (λ session. session.builder ≡ None) }
        ensures mark { IfOk result (λ session. session.mark ≡ None) }
        ensures connects { MatchResult result (λ session. Connects (blocking Tr.Conn.Conn)
            (chosen E.decoded E.encoded None) ReplyRule.Strict (Tr.Conn.told conn)
            (first_net (Tr.asked transport) (Tr.ready transport) (Tr.closed transport))
            session.machine (Ok tt)) (λ fault. FailsToConnect (blocking Tr.Conn.Conn)
            (chosen E.decoded E.encoded None) ReplyRule.Strict (Tr.Conn.told conn)
            (first_net (Tr.asked transport) (Tr.ready transport) (Tr.closed transport)) fault) }
        ensures counts { IfErr result (λ fault. CountsInGreeting (blocking Tr.Conn.Conn)
            (chosen E.decoded E.encoded None) ReplyRule.Strict (Tr.Conn.told conn)
            (first_net (Tr.asked transport) (Tr.ready transport) (Tr.closed transport)) fault) }
    {
        Session::greeted(alloc, transport, conn, ReplyRule::Strict)
    }

    /// The same, where replies are read leniently from the greeting on (`ReplyRule::Lenient`).
    ///
    /// # Errors
    /// Those of `connect_with_stream`.
    pub fn connect_with_stream_lenient(
        alloc: Global,
        transport: Tr,
        conn: Tr::Conn,
    ) -> FtpResult<Session<Tr, K, E, B>>
    where
        Tr::Conn: Conn,
        ensures encoding { IfOk result (λ session. session.encoding.0 ≡ None) }
        ensures builder { IfOk result (λ session. session.builder ≡ None) }
        ensures mark { IfOk result (λ session. session.mark ≡ None) }
        ensures connects { MatchResult result (λ session. Connects (blocking Tr.Conn.Conn)
            (chosen E.decoded E.encoded None) ReplyRule.Lenient (Tr.Conn.told conn)
            (first_net (Tr.asked transport) (Tr.ready transport) (Tr.closed transport))
            session.machine (Ok tt)) (λ fault. FailsToConnect (blocking Tr.Conn.Conn)
            (chosen E.decoded E.encoded None) ReplyRule.Lenient (Tr.Conn.told conn)
            (first_net (Tr.asked transport) (Tr.ready transport) (Tr.closed transport)) fault) }
        ensures counts { IfErr result (λ fault. CountsInGreeting (blocking Tr.Conn.Conn)
            (chosen E.decoded E.encoded None) ReplyRule.Lenient (Tr.Conn.told conn)
            (first_net (Tr.asked transport) (Tr.ready transport) (Tr.closed transport)) fault) }
    {
        Session::greeted(alloc, transport, conn, ReplyRule::Lenient)
    }

    /// A session on a connection, which reads replies by this rule, once the server's greeting was read.
    pub(super) fn greeted(
        alloc: Global,
        transport: Tr,
        conn: Tr::Conn,
        rule: ReplyRule,
    ) -> FtpResult<Session<Tr, K, E, B>>
    where
        Tr::Conn: Conn,
        ensures encoding { IfOk result (λ session. session.encoding.0 ≡ None) }
        ensures builder { IfOk result (λ session. session.builder ≡ None) }
        ensures mark { IfOk result (λ session. session.mark ≡ None) }
        ensures connects { MatchResult result (λ session. Connects (blocking Tr.Conn.Conn)
            (chosen E.decoded E.encoded None) rule (Tr.Conn.told conn)
            (first_net (Tr.asked transport) (Tr.ready transport) (Tr.closed transport))
            session.machine (Ok tt)) (λ fault. FailsToConnect (blocking Tr.Conn.Conn)
            (chosen E.decoded E.encoded None) rule (Tr.Conn.told conn)
            (first_net (Tr.asked transport) (Tr.ready transport) (Tr.closed transport)) fault) }
    {
        let mut session = Session::by_rule(alloc, transport, conn, rule)?;
        match session.greet(alloc) {
            Ok(()) => Ok(session),
            Err(fault) => {
                drop(session);
                Err(fault)
            }
        }
    }

    /// Sets the encoding of texts on the control connection; the text of the greeting is read again under it.
    ///
    /// # Errors
    /// `OutOfMemory`, and nothing changes.
    pub fn set_encoding(&mut self, alloc: Global, encoding: E) -> FtpResult<()>
        ensures set { OnOk result (self.new.encoding.0 ≡ Some encoding) }
        ensures welcome { OnOk result (self.new.machine ≡
            greeted_again (E.decoded encoding) self.old.machine) }
        ensures memory { IfErr result (λ fault. fault ≡ FtpError.OutOfMemory) }
        ensures builder { self.new.builder ≡ self.old.builder }
        ensures former { self.new.former ≡ self.old.former }
        ensures mark { self.new.mark ≡ self.old.mark }
        ensures unchanged { OnErr result (self.new ≡ self.old) }
    {
        if let Some(welcome) = &mut self.machine.state.welcome {
            welcome.decode_again(alloc, &encoding)?;
        }
        self.encoding = Chosen(Some(encoding));
        Ok(())
    }

    /// The transport, with the record of what it was asked and of the data connections that are over.
    pub fn transport(&self) -> &Tr
        ensures asked { Tr.asked result.now ≡ self.now.machine.net.asked }
        ensures ready { Tr.ready result.now ≡ self.now.machine.net.ready }
        ensures closed { Tr.closed result.now ≡ self.now.machine.net.closed }
    {
        &self.machine.transport
    }

    /// The control connection.
    pub fn get_ref(&self) -> &Tr::Conn
        ensures { Tr.Conn.told result.now ≡ self.now.machine.channel.told }
    {
        self.machine.channel.get_ref()
    }

    /// What the session keeps beside its channel.
    pub fn state(&self) -> &State
        ensures value { result.now ≡ self.now.machine.state }
    {
        &self.machine.state
    }

    /// How many transfers were opened, and how they came to their end (RFC 959, section 3.2).
    pub fn counts(&self) -> &Counts
        ensures value { result.now ≡ self.now.machine.state.counts }
        ensures sound { SoundCounts result.now }
    {
        self.machine.holds();
        &self.machine.state.counts
    }

    /// How many received bytes are part of no reply yet.
    pub fn untaken(&self) -> usize
        ensures value { result ≡ length (untaken self.now.machine.channel) }
        ensures sound { IsSound Tr.Conn.tells self.now.machine.channel }
        ensures counts { SoundCounts self.now.machine.state.counts }
    {
        self.machine.holds();
        self.machine.channel.untaken()
    }

    /// Whether the session has failed: a read or a write of the control connection did, the input ended or went
    /// beyond a reply's limit where a reply was due, or memory ran out inside a dialogue. Each later command fails
    /// with `SessionFailed`.
    pub fn failed(&self) -> bool
        ensures { result ≡ self.now.machine.channel.failed }
    {
        self.machine.channel.failed()
    }

    /// Where the last error of input or output was met, if there was one: after a call that returned `Io`, where that
    /// was. Where both the close of an upload and its last reply fail, it is the reply's, though the call returned that
    /// of the close. It stays until the next is met. No clause has it.
    pub fn last_failure(&self) -> Option<Failure> {
        self.machine.last_failure()
    }

    /// The text that the server greeted with, once the greeting was accepted.
    pub fn get_welcome_msg(&self) -> Option<&str>
        ensures { option_map (λ text. text.now) result ≡
            option_map (λ welcome. welcome.text) self.now.machine.state.welcome }
    {
        match &self.machine.state.welcome {
            Some(welcome) => Some(welcome.text()),
            None => None,
        }
    }
}
