//! A play of a row: a client over slow connections, and what the row holds of it.

use crate::advance::{How, go_on};
use crate::begin::{Client, State, begin, transfer};
use crate::gains::{Control, Gains, Outcome};
use crate::script::{Asked, Script};
use crate::slow::{SlowConn, SlowTransport};
use crate::transcript::{Part, Transcript};
use ftp_session::session::{Call, Session};
use rows_plays::{boxed, had};
use rows_text::RowError;
use std::alloc::{AllocError, Global};
use std::collections::VecDeque;
use std::mem;
use std::random::RandomSource;
use std::sync::Wait;

/// A client over slow connections, what a row keeps of its answers, and the transcript so far.
#[derive(Drop)]
pub struct Scene {
    /// What the calls returned.
    pub gains: Gains,
    client: Box<Client>,
    transcript: Transcript,
}

/// A client whose server and data connections send what a row says.
fn client_of(alloc: Global, script: &Script) -> Result<Box<Client>, RowError> {
    let mut ready = VecDeque::new(alloc);
    for input in &script.data_conns {
        ready.push_back(SlowConn::with(alloc, input)?)?;
    }
    let transport = SlowTransport::with(alloc, ready);
    client_on(alloc, transport, script)
}

/// A client over this transport whose server sends what a row says. Nothing of that was read.
fn client_on(
    alloc: Global,
    transport: SlowTransport,
    script: &Script,
) -> Result<Box<Client>, RowError> {
    let control = match SlowConn::of_pieces(alloc, &script.server, script.at_once) {
        Ok(control) => control,
        Err(AllocError) => {
            drop(transport);
            return Err(RowError::OutOfMemory);
        }
    };
    let session = had(Session::new(alloc, transport, control))?;
    Ok(boxed(alloc, had(Client::new(alloc, session))?)?)
}

/// The control connection, where nobody holds the client's lock.
fn look<'r, R: Wait + RandomSource + AllocGlobal>(
    rt: &'r R,
    client: &Client,
) -> Result<Option<Control>, RowError> {
    let mut state: State<'r, R> = State::Lend(client.get_ref());
    let outcome = go_on(rt, &mut state, How::Polls(1));
    drop(state);
    match outcome? {
        Some(Outcome::Lent(control)) => Ok(Some(had(control)?)),
        Some(other) => {
            drop(other);
            Err(RowError::NotUnderstood)
        }
        None => Ok(None),
    }
}

impl Scene {
    /// A play of a row before its first step.
    ///
    /// # Errors
    /// `OutOfMemory`.
    pub fn new(alloc: Global, script: &Script) -> Result<Box<Scene>, RowError> {
        let client = client_of(alloc, script)?;
        let scene = Scene {
            gains: Gains::new(alloc),
            client,
            transcript: Transcript::new(alloc),
        };
        Ok(boxed(alloc, scene)?)
    }

    /// Takes the transcript so far.
    pub fn take_transcript(&mut self, alloc: Global) -> String {
        mem::replace(&mut self.transcript.text, String::new(alloc))
    }

    /// A call goes on so far, and is dropped. Its answer, where it has one.
    ///
    /// # Errors
    /// `NotUnderstood` where the rows have no such call, or it lacks its transfer; `OutOfMemory`.
    pub fn make<'r, R: Wait + RandomSource + AllocGlobal>(
        &mut self,
        rt: &'r R,
        asked: &'r Asked,
        how: How,
    ) -> Result<Option<String>, RowError> {
        match asked {
            Asked::Call(Call::Leave) => self.leave(rt.alloc()),
            Asked::Call(Call::Drain) => self.drain(rt, how),
            _ => {
                let mut state = self.begin(rt, asked)?;
                let answer = self.go_on(rt, &mut state, how);
                drop(state);
                answer
            }
        }
    }

    /// The state of a call.
    ///
    /// # Errors
    /// `NotUnderstood` where the rows have no such call, or it lacks its transfer; `OutOfMemory`.
    pub fn begin<'r, R: Wait + RandomSource + AllocGlobal>(
        &mut self,
        rt: &'r R,
        asked: &'r Asked,
    ) -> Result<Box<State<'r, R>>, RowError> {
        let state = begin(rt, &self.client, &mut self.gains, asked)?;
        Ok(boxed(rt.alloc(), state)?)
    }

    /// A call goes on so far. Its answer, where it has one.
    ///
    /// # Errors
    /// `OutOfMemory`.
    pub fn go_on<R: Wait + RandomSource + AllocGlobal>(
        &mut self,
        rt: &R,
        state: &mut State<'_, R>,
        how: How,
    ) -> Result<Option<String>, RowError> {
        let outcome = go_on(rt, state, how)?;
        self.shown(rt.alloc(), outcome)
    }

    /// The transfer is left, and its receipt is kept.
    fn leave(&mut self, alloc: Global) -> Result<Option<String>, RowError> {
        let receipt = transfer(&mut self.gains)?.leave();
        drop(self.gains.receipt.replace(receipt));
        Ok(Some(String::from_str(alloc, "ok")?))
    }

    /// The last reply of the transfer that was left is read so far, by its receipt, which is kept.
    fn drain<R: Wait + RandomSource + AllocGlobal>(
        &mut self,
        rt: &R,
        how: How,
    ) -> Result<Option<String>, RowError> {
        let Some(mut receipt) = self.gains.receipt.take() else {
            return Err(RowError::NotUnderstood);
        };
        let mut state = self.client.settle(rt, &mut receipt);
        let outcome = go_on(rt, &mut state, how);
        drop(state);
        drop(self.gains.receipt.replace(receipt));
        self.shown(rt.alloc(), outcome?.map(Outcome::Unit))
    }

    /// What a call returned, as text; what the row keeps is put by.
    fn shown(
        &mut self,
        alloc: Global,
        outcome: Option<Outcome>,
    ) -> Result<Option<String>, RowError> {
        match outcome {
            Some(outcome) => Ok(Some(outcome.shown(alloc, &mut self.gains)?)),
            None => Ok(None),
        }
    }

    /// Adds an answer to the transcript, and before it the lines that were sent; or that there is none.
    ///
    /// # Errors
    /// `OutOfMemory`.
    pub fn show_answer<R: Wait + RandomSource + AllocGlobal>(
        &mut self,
        rt: &R,
        answer: Option<&str>,
    ) -> Result<(), RowError> {
        self.show(rt, Part::Lines)?;
        Ok(self.transcript.add_answer(answer)?)
    }

    /// Adds what is new of this part of the control connection to the transcript. Where a call holds the lock nothing is
    /// seen of it.
    ///
    /// # Errors
    /// `OutOfMemory`.
    pub fn show<R: Wait + RandomSource + AllocGlobal>(
        &mut self,
        rt: &R,
        part: Part,
    ) -> Result<(), RowError> {
        if let Some(control) = &self.gains.lent {
            return Ok(self.transcript.add(rt.alloc(), control, part)?);
        }
        let Some(control) = look(rt, &self.client)? else {
            return Ok(());
        };
        let added = self.transcript.add(rt.alloc(), &control, part);
        drop(control);
        Ok(added?)
    }
}
