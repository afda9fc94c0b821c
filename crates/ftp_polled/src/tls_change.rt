//! How far a change of TLS has come: its commands and the handshake, one after another.

use ftp_base::encoding::Encoding;
use ftp_base::status::Status;
use ftp_base::types::{ConnectionError, FtpError, FtpResult};
use ftp_calls::call::BorrowedCall;
use ftp_secure::SecureNetwork;
use ftp_session::session::{
    Answer, DropsCalls, PolledCall, PollsCalls, PollsTls, Session, WaitsInTask, give_up_change,
};
use ftp_transport::{
    AsksItself, PassiveStreamBuilder, PollConn, PollTransport, TaskConn, TaskTransport,
};
use futures::task::Poll;
use std::alloc::{AllocError, Global};
use std::mem;

/// A connector, and the server's name.
type Handed<K> = (K, String);

/// The steps of a change, at most.
const STEPS: u8 = 5;

/// What a change does next.
#[derive(Drop)]
enum Step {
    /// It looks whether a transfer is live, and sends its first command.
    Begins,
    /// Its first command is made: `AUTH TLS` or `CCC`.
    Asks(Box<PolledCall>),
    /// The connector puts the connection under TLS.
    Shakes,
    /// `PBSZ 0` is made.
    Sizes(Box<PolledCall>),
    /// `PROT P` is made.
    Protects(Box<PolledCall>),
    /// It is done, or failed.
    Over,
}

/// A change of TLS of a session.
pub(crate) struct Change<K: Drop> {
    step: Step,
    // Whether the connection is put under TLS, and not taken from under it.
    secures: bool,
    // The connector, until the session has it. None where there was no memory for the server's name.
    handed: Option<Handed<K>>,
}

impl<K: Drop> Drop for Change<K> {
    fn drop(self) {
        let Self {
            step,
            secures: _,
            handed,
        } = self;
        drop(step);
        drop(handed);
    }
}

/// A command of a change and the status that accepts it, in memory of its own.
///
/// # Errors
/// There is no memory for it.
fn command(alloc: Global, line: &str, status: Status) -> FtpResult<Box<PolledCall>> {
    let call = BorrowedCall::CustomCommand(line, &[status]).owned(alloc)?;
    Ok(Box::new(alloc, PolledCall::new(call))?)
}

/// What a step of a change results in.
enum Turn {
    /// The next step is to be made.
    Goes,
    /// The change is done, or failed.
    Ends(FtpResult<()>),
    /// It waits.
    Waits,
}

/// Whether a command was accepted.
fn accepted(answer: Answer) -> FtpResult<()> {
    match answer {
        Answer::Fault(fault) => Err(fault),
        other => {
            drop(other);
            Ok(())
        }
    }
}

impl<K: Drop> Change<K> {
    /// A session is put under TLS, by this connector, to a server of this name.
    pub(crate) fn to_secure(alloc: Global, connector: K, domain: &str) -> Change<K> {
        let handed = match String::from_str(alloc, domain) {
            Ok(name) => Some((connector, name)),
            Err(AllocError) => {
                drop(connector);
                None
            }
        };
        Change {
            step: Step::Begins,
            secures: true,
            handed,
        }
    }

    /// A session's control connection is taken from under TLS.
    pub(crate) fn to_clear() -> Change<K> {
        Change {
            step: Step::Begins,
            secures: false,
            handed: None,
        }
    }

    /// Goes to this step.
    fn go_to(&mut self, step: Step) {
        drop(mem::replace(&mut self.step, step));
    }
}

impl<K: Drop> Change<K> {
    /// Continues the change.
    pub(crate) fn poll<R: AllocGlobal, Tr, E: Encoding, B>(
        &mut self,
        rt: &R,
        session: &mut Session<Tr, K, E, B>,
    ) -> Poll<FtpResult<()>>
    where
        Tr: PollTransport<R, ()> + TaskTransport + SecureNetwork<K>,
        Tr::Conn: PollConn<()> + TaskConn,
        B: PassiveStreamBuilder<Tr::Conn>,
    {
        for _ in 0..STEPS {
            match self.turn(rt, session) {
                Turn::Goes => {}
                Turn::Ends(changed) => return Poll::Ready(changed),
                Turn::Waits => return Poll::Pending,
            }
        }
        Poll::Ready(Err(FtpError::ConnectionError(ConnectionError::AlreadyCompleted)))
    }

    /// Makes the next step.
    fn turn<R: AllocGlobal, Tr, E: Encoding, B>(
        &mut self,
        rt: &R,
        session: &mut Session<Tr, K, E, B>,
    ) -> Turn
    where
        Tr: PollTransport<R, ()> + TaskTransport + SecureNetwork<K>,
        Tr::Conn: PollConn<()> + TaskConn,
        B: PassiveStreamBuilder<Tr::Conn>,
    {
        match mem::replace(&mut self.step, Step::Over) {
            Step::Begins => self.begin(rt, session),
            Step::Asks(call) => self.ask(rt, session, call),
            Step::Shakes => self.shake(rt, session),
            Step::Sizes(call) => self.size(rt, session, call),
            Step::Protects(call) => self.protect(rt, session, call),
            Step::Over => Turn::Ends(Err(FtpError::ConnectionError(
                ConnectionError::AlreadyCompleted,
            ))),
        }
    }

    /// Nothing is sent beside a live transfer, nor where there is no memory; else the first command is.
    fn begin<R: AllocGlobal, Tr, E: Encoding, B: Drop>(
        &mut self,
        rt: &R,
        session: &mut Session<Tr, K, E, B>,
    ) -> Turn
    where
        Tr: PollTransport<R, ()> + TaskTransport + SecureNetwork<K>,
        Tr::Conn: PollConn<()> + TaskConn,
    {
        if <Session<Tr, K, E, B> as PollsTls<R, K>>::look_beside(session) {
            return Turn::Ends(Err(FtpError::DataConnectionAlreadyOpen));
        }
        if self.secures && self.handed.is_none() {
            return Turn::Ends(Err(session.withheld()));
        }
        let made = if self.secures {
            command(rt.alloc(), "AUTH TLS", Status::AuthOk)
        } else {
            command(rt.alloc(), "CCC", Status::CommandOk)
        };
        match made {
            Ok(call) => {
                self.go_to(Step::Asks(call));
                Turn::Goes
            }
            Err(fault) => {
                drop(fault);
                Turn::Ends(Err(session.withheld()))
            }
        }
    }

    /// The first command is polled: where it is accepted TLS begins, or ends.
    fn ask<R: AllocGlobal, Tr, E: Encoding, B>(
        &mut self,
        rt: &R,
        session: &mut Session<Tr, K, E, B>,
        mut call: Box<PolledCall>,
    ) -> Turn
    where
        Tr: PollTransport<R, ()> + TaskTransport + SecureNetwork<K>,
        Tr::Conn: PollConn<()> + TaskConn,
        B: PassiveStreamBuilder<Tr::Conn>,
    {
        match session.poll_call(rt.alloc(), rt, &mut call, &mut ()) {
            Poll::Pending => {
                self.go_to(Step::Asks(call));
                Turn::Waits
            }
            Poll::Ready(answer) => match accepted(answer) {
                Err(fault) => Turn::Ends(Err(fault)),
                Ok(()) if self.secures => {
                    self.go_to(Step::Shakes);
                    Turn::Goes
                }
                Ok(()) => Turn::Ends(<Session<Tr, K, E, B> as PollsTls<R, K>>::take_off(session)),
            },
        }
    }

    /// The handshake is polled: where it is done `PBSZ 0` is made.
    fn shake<R: AllocGlobal, Tr, E: Encoding, B: Drop>(
        &mut self,
        rt: &R,
        session: &mut Session<Tr, K, E, B>,
    ) -> Turn
    where
        Tr: PollTransport<R, ()> + TaskTransport + SecureNetwork<K>,
        Tr::Conn: PollConn<()> + TaskConn,
    {
        match session.poll_put_under(rt, self.handed.take()) {
            Poll::Pending => {
                self.go_to(Step::Shakes);
                Turn::Waits
            }
            Poll::Ready(Err(fault)) => Turn::Ends(Err(fault)),
            Poll::Ready(Ok(())) => match command(rt.alloc(), "PBSZ 0", Status::CommandOk) {
                Ok(call) => {
                    self.go_to(Step::Sizes(call));
                    Turn::Goes
                }
                Err(fault) => fails(session, fault),
            },
        }
    }

    /// `PBSZ 0` is polled: where it is accepted `PROT P` is made.
    fn size<R: AllocGlobal, Tr, E: Encoding, B>(
        &mut self,
        rt: &R,
        session: &mut Session<Tr, K, E, B>,
        mut call: Box<PolledCall>,
    ) -> Turn
    where
        Tr: PollTransport<R, ()> + TaskTransport,
        Tr::Conn: PollConn<()> + TaskConn,
        B: PassiveStreamBuilder<Tr::Conn>,
    {
        match session.poll_call(rt.alloc(), rt, &mut call, &mut ()) {
            Poll::Pending => {
                self.go_to(Step::Sizes(call));
                Turn::Waits
            }
            Poll::Ready(answer) => match accepted(answer) {
                Err(fault) => fails(session, fault),
                Ok(()) => match command(rt.alloc(), "PROT P", Status::CommandOk) {
                    Ok(next) => {
                        self.go_to(Step::Protects(next));
                        Turn::Goes
                    }
                    Err(fault) => fails(session, fault),
                },
            },
        }
    }

    /// `PROT P` is polled: where it is accepted the change is done.
    fn protect<R: AllocGlobal, Tr, E: Encoding, B>(
        &mut self,
        rt: &R,
        session: &mut Session<Tr, K, E, B>,
        mut call: Box<PolledCall>,
    ) -> Turn
    where
        Tr: PollTransport<R, ()> + TaskTransport,
        Tr::Conn: PollConn<()> + TaskConn,
        B: PassiveStreamBuilder<Tr::Conn>,
    {
        match session.poll_call(rt.alloc(), rt, &mut call, &mut ()) {
            Poll::Pending => {
                self.go_to(Step::Protects(call));
                Turn::Waits
            }
            Poll::Ready(answer) => match accepted(answer) {
                Err(fault) => fails(session, fault),
                Ok(()) => Turn::Ends(Ok(())),
            },
        }
    }

    /// The change is dropped. Before its first line was begun nothing changes; later the session has failed, and its
    /// connection is closed.
    pub(crate) fn give_up<Tr: TaskTransport + SecureNetwork<K>, E: Encoding, B: Drop>(
        &self,
        session: &mut Session<Tr, K, E, B>,
    )
    where
        Tr::Conn: TaskConn,
    {
        let was_begun = match &self.step {
            Step::Begins | Step::Over => false,
            Step::Asks(call) => {
                let due = session.state().unanswered;
                session.drop_call(call);
                session.state().unanswered != due
            }
            Step::Shakes | Step::Sizes(_) | Step::Protects(_) => true,
        };
        if was_begun {
            give_up_change(session);
        }
        session.forget_request(&mut AsksItself);
    }
}

/// A command after the change failed, and with it the session.
fn fails<Tr: TaskTransport, K: Drop, E: Encoding, B: Drop>(
    session: &mut Session<Tr, K, E, B>,
    fault: FtpError,
) -> Turn
where
    Tr::Conn: TaskConn,
{
    session.fail();
    Turn::Ends(Err(fault))
}
