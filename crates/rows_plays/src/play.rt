//! A row as bytes, calls and events.

use crate::builder::RowBuilder;
use crate::calls::call;
use crate::dial::Dial;
use crate::encodings::Named;
use crate::memory::boxed;
use crate::setup::Setup;
use crate::step::{Kind, Step};
use ftp_base::types::Bytes;
use ftp_runs::Event;
use ftp_session::session::Call;
use rows_text::{RowError, bytes_of, value};
use std::alloc::{AllocError, Global};

/// What is played of a row.
pub struct Play {
    /// All bytes of the server.
    pub input: Vec<u8>,
    /// The calls.
    pub calls: Vec<Call>,
    /// What happens, event by event: of a row without events all bytes come, they end, and each call begins and is
    /// polled.
    pub events: Vec<Event>,
    /// Before which events a run of its own begins.
    pub runs: Vec<usize>,
    /// Whether each byte of the server comes alone, and the call under way is polled then.
    pub stepped: bool,
    /// The encoding of the session.
    pub encoding: Option<Named>,
    /// How the session comes to its connection, where the row says so.
    pub dial: Option<Box<Dial>>,
    /// How it comes to its data connections.
    pub setup: Box<Setup>,
}

impl Drop for Play {
    fn drop(self) {
        let Self {
            input,
            calls,
            events,
            runs,
            stepped: _,
            encoding,
            dial,
            setup,
        } = self;
        drop(input);
        drop(calls);
        drop(events);
        drop(runs);
        drop(encoding);
        drop(dial);
        drop(setup);
    }
}

impl Play {
    /// What is played of these lines.
    ///
    /// # Errors
    /// `NotUnderstood`, `OutOfMemory`.
    pub fn of(
        alloc: Global,
        lines: &[&str],
        has_events: bool,
        stepped: bool,
    ) -> Result<Box<Play>, RowError> {
        let mut play = Play::begun(alloc, stepped)?;
        for line in lines {
            play.add_input(alloc, Step::of(line)?)?;
        }
        play.connect(alloc)?;
        if !has_events {
            play.add_all(alloc)?;
        }
        for line in lines {
            play.add(alloc, Step::of(line)?, has_events)?;
        }
        Ok(play)
    }

    /// Nothing is played.
    fn begun(alloc: Global, stepped: bool) -> Result<Box<Play>, AllocError> {
        let setup = boxed(alloc, Setup::new(alloc))?;
        boxed(
            alloc,
            Play {
                input: Vec::new(alloc),
                calls: Vec::new(alloc),
                events: Vec::new(alloc),
                runs: Vec::new(alloc),
                stepped,
                encoding: None,
                dial: None,
                setup,
            },
        )
    }

    /// Adds what the server sends.
    fn add_input(&mut self, alloc: Global, step: Step<'_>) -> Result<(), RowError> {
        let words = step.argument;
        match step.kind {
            Kind::Server => self.send(alloc, words),
            Kind::Host => self.dialled(alloc)?.add_host(alloc, words),
            Kind::Refuses => self.dialled(alloc)?.add_refusal(),
            Kind::Connect => self.dialled(alloc)?.connect(alloc, words),
            Kind::Within => self.dialled(alloc)?.connect_within(words),
            Kind::Set => self.setup.take(alloc, step.word, words),
            Kind::Connects => self.setup.connects(alloc, words),
            Kind::Builds => self.build(alloc, RowBuilder::of_bytes(alloc, words)?),
            Kind::BuildsNot => self.build(alloc, RowBuilder::of_fault(alloc, words)?),
            _ => Ok(()),
        }
    }

    /// The server sends these bytes.
    fn send(&mut self, alloc: Global, bytes: &str) -> Result<(), RowError> {
        let bytes = bytes_of(alloc, bytes)?;
        Ok(self.input.extend_from_slice(&bytes)?)
    }

    /// The session has this builder of data connections.
    fn build(&mut self, alloc: Global, builder: RowBuilder) -> Result<(), RowError> {
        let builder = boxed(alloc, builder)?;
        self.setup.has_builder(builder);
        Ok(())
    }

    /// How the session comes to its connection.
    fn dialled(&mut self, alloc: Global) -> Result<&mut Dial, AllocError> {
        let first = boxed(alloc, Dial::new(alloc))?;
        Ok(self.dial.get_or_insert(first))
    }

    /// The bytes of a session that connects are those of the server that it comes to.
    fn connect(&mut self, alloc: Global) -> Result<(), AllocError> {
        if let Some(dial) = &self.dial {
            self.input = dial.input(alloc)?;
        }
        Ok(())
    }

    /// Adds the calls and events of a step.
    fn add(&mut self, alloc: Global, step: Step<'_>, has_events: bool) -> Result<(), RowError> {
        let words = step.argument;
        match step.kind {
            Kind::Server if has_events => self.feed(alloc, words),
            Kind::Call => self.make(alloc, words),
            Kind::Feed => self.feed(alloc, words),
            Kind::End => self.push(Event::End),
            Kind::Room => self.push(Event::Room(value(words)?)),
            Kind::Start => self.push(Event::Start(call(alloc, words)?)),
            Kind::Poll => self.push(Event::Poll),
            Kind::Cancel => self.push(Event::Cancel),
            Kind::Leave => self.push(Event::Leave),
            Kind::Later => self.begin_run(),
            Kind::Encoding => {
                self.encoding = Some(Named::of(words)?);
                Ok(())
            }
            Kind::Connect | Kind::Within => self.add_call(Call::Greet),
            _ => Ok(()),
        }
    }

    /// All bytes come, and they end.
    fn add_all(&mut self, alloc: Global) -> Result<(), RowError> {
        feed(alloc, &mut self.events, &self.input)?;
        self.push(Event::End)
    }

    /// These bytes come.
    fn feed(&mut self, alloc: Global, bytes: &str) -> Result<(), RowError> {
        let bytes = bytes_of(alloc, bytes)?;
        if !self.stepped {
            return feed(alloc, &mut self.events, &bytes);
        }
        for byte in bytes.chunks(1) {
            feed(alloc, &mut self.events, byte)?;
            self.push(Event::Poll)?;
        }
        Ok(())
    }

    /// A call is made whole; among events it begins and is polled.
    fn make(&mut self, alloc: Global, words: &str) -> Result<(), RowError> {
        self.add_call(call(alloc, words)?)?;
        self.push(Event::Start(call(alloc, words)?))?;
        self.push(Event::Poll)
    }

    /// A run of its own begins. The end of the run before drops its call, as a cancel does.
    fn begin_run(&mut self) -> Result<(), RowError> {
        self.push(Event::Cancel)?;
        Ok(self.runs.push(self.events.len())?)
    }

    fn add_call(&mut self, call: Call) -> Result<(), RowError> {
        Ok(self.calls.push(call)?)
    }

    fn push(&mut self, event: Event) -> Result<(), RowError> {
        Ok(self.events.push(event)?)
    }
}

/// Adds the event in which these bytes come.
fn feed(alloc: Global, events: &mut Vec<Event>, bytes: &[u8]) -> Result<(), RowError> {
    let bytes = Bytes::from_slice(alloc, bytes)?;
    Ok(events.push(Event::Feed(bytes))?)
}
