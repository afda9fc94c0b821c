//! The ways in which a row is played.

use crate::whole::whole;
use crate::{client, states};
use ftp_runs::Event;
use ftp_session::session::Call;
use rows_plays::{Ending, Mark, Play, RowState};
use rows_text::RowError;
use std::alloc::{AllocError, Global};
use std::random::RandomSource;
use std::sync::Wait;

/// A way in which a row is played.
#[derive(Clone, Copy)]
pub enum Face {
    /// A run of all calls.
    Run,
    /// A run over connections that take one byte a write and give one a read.
    Bytewise,
    /// One call of the session after another.
    Methods,
    /// One call of the blocking client after another.
    Client,
    /// One call of the polled client after another.
    States,
    /// A polled run.
    Polled,
}

/// How many bytes of a server are read a byte at a time at most, where each row is played once.
const MOST_BYTEWISE: usize = 1 << 16;

/// How often a row is played on a face.
#[derive(Clone, Copy)]
pub enum Cuts {
    /// To the end of each call or poll, too, so that it is seen what was sent in each.
    EachCall,
    /// Once, to its end; a byte at a time only where the server sends few.
    None,
}

impl Cuts {
    /// Whether a face is passed over, which would play the row for seconds.
    pub fn passes_over(self, face: Face, play: &Play) -> bool {
        matches!((self, face), (Cuts::None, Face::Bytewise)) && play.input.len() > MOST_BYTEWISE
    }
}

/// What a row resulted in on a face.
#[derive(Drop)]
pub struct Came {
    /// Its transcript.
    pub transcript: String,
    /// Whether the session has failed.
    pub failed: bool,
}

/// What the faces of a row have shown beside their transcripts.
#[derive(Clone, Copy)]
pub struct Agreement {
    failed: Option<bool>,
}

impl Agreement {
    /// No face was played.
    pub fn new() -> Agreement {
        Agreement { failed: None }
    }

    /// Whether a face shows what those before it showed.
    pub fn agrees(&mut self, came: &Came) -> bool {
        let failed = self.failed.unwrap_or(came.failed);
        self.failed = Some(failed);
        failed == came.failed
    }
}

impl Face {
    /// The faces of a row without events.
    pub const OF_CALLS: [Face; 6] = [
        Face::Run,
        Face::Bytewise,
        Face::Methods,
        Face::Client,
        Face::States,
        Face::Polled,
    ];

    /// The face of a row with events.
    pub const OF_EVENTS: [Face; 1] = [Face::Polled];

    /// Its name.
    pub fn name(self) -> &'static str {
        match self {
            Face::Run => "a run",
            Face::Bytewise => "a run, a byte a read and a write",
            Face::Methods => "one call after another",
            Face::Client => "the blocking client",
            Face::States => "the polled client",
            Face::Polled => "a polled run",
        }
    }

    /// Whether a row can be played on it: the blocking client is made once the greeting was read, and a run is made on a
    /// connection; a write of the data connection that is one call says how many bytes it took.
    pub fn plays(self, play: &Play) -> bool {
        match self {
            Face::Methods | Face::States => true,
            Face::Client => client::has_methods(&play.calls),
            Face::Run | Face::Polled => play.dial.is_none(),
            Face::Bytewise => play.dial.is_none() && !play.calls.iter().any(writes_more),
        }
    }

    /// What a row results in.
    pub fn play<R: Wait + RandomSource + AllocGlobal>(
        self,
        rt: &R,
        play: &Play,
        ending: Ending,
    ) -> Result<Came, RowError> {
        let alloc = rt.alloc();
        let places = self.places(alloc, play)?;
        let mut marks = self.marks(rt, play, &places)?;
        let end = self.play_state(rt, play, usize::MAX)?;
        if marks.len() < places.len() {
            marks.push(end.mark())?;
        }
        let mut transcript = end.transcript(alloc, &marks)?;
        end.add_end(alloc, &mut transcript, ending)?;
        Ok(Came {
            transcript,
            failed: end.failed,
        })
    }

    /// The same, played once, without the places at which its calls end.
    pub fn play_once<R: Wait + RandomSource + AllocGlobal>(
        self,
        rt: &R,
        play: &Play,
        ending: Ending,
    ) -> Result<Came, RowError> {
        let alloc = rt.alloc();
        let end = self.play_state(rt, play, usize::MAX)?;
        let mut transcript = end.transcript(alloc, &[end.mark()])?;
        end.add_end(alloc, &mut transcript, ending)?;
        Ok(Came {
            transcript: whole(alloc, transcript.as_str())?,
            failed: end.failed,
        })
    }

    /// What the row's answers are, in place of its transcript.
    pub fn answer<R: Wait + RandomSource + AllocGlobal>(
        self,
        rt: &R,
        play: &Play,
    ) -> Result<Came, RowError> {
        let end = self.play_state(rt, play, usize::MAX)?;
        Ok(Came {
            transcript: end.answers(rt.alloc())?,
            failed: end.failed,
        })
    }

    /// How far the row has come at those of these places that are before its end.
    fn marks<R: Wait + RandomSource + AllocGlobal>(
        self,
        rt: &R,
        play: &Play,
        places: &[usize],
    ) -> Result<Vec<Mark>, RowError> {
        let length = match self {
            Face::Polled => play.events.len(),
            _ => play.calls.len(),
        };
        let mut marks = Vec::new(rt.alloc());
        for count in places {
            if *count < length {
                marks.push(self.play_state(rt, play, *count)?.mark())?;
            }
        }
        Ok(marks)
    }

    /// After how many calls or events the transcript has its lines: after each call, or each poll.
    fn places(self, alloc: Global, play: &Play) -> Result<Vec<usize>, AllocError> {
        match self {
            Face::Polled => polls(alloc, &play.events),
            _ => (1..=play.calls.len()).collect(alloc),
        }
    }

    /// Where the row stands after so many calls or events.
    fn play_state<R: Wait + RandomSource + AllocGlobal>(
        self,
        rt: &R,
        play: &Play,
        count: usize,
    ) -> Result<RowState, RowError> {
        let alloc = rt.alloc();
        let calls = front(&play.calls, count);
        let events = front(&play.events, count);
        match self {
            Face::Run => rows_plays::ran(alloc, calls, play),
            Face::Bytewise => rows_plays::ran_bytewise(alloc, calls, play),
            Face::Methods => rows_plays::called(rt, calls, play),
            Face::Client => client::called(rt, calls, play),
            Face::States => states::called(rt, calls, play),
            Face::Polled => rows_plays::polled(alloc, events, play),
        }
    }
}

/// After how many events each poll is done.
fn polls(alloc: Global, events: &[Event]) -> Result<Vec<usize>, AllocError> {
    let mut places = Vec::new(alloc);
    for (place, event) in events.iter().enumerate() {
        if matches!(event, Event::Poll) {
            places.push(place.saturating_add(1))?;
        }
    }
    Ok(places)
}

/// The first of a list, at most so many.
fn front<T>(all: &[T], count: usize) -> &[T] {
    all.get(..count).unwrap_or(all)
}

/// Whether a call is one write of more than a byte, of which a connection that takes one byte a write leaves some.
fn writes_more(call: &Call) -> bool {
    match call {
        Call::Write(bytes) => bytes.as_slice().len() > 1,
        _ => false,
    }
}

/// The answers of a transcript, line by line, but for those that say that there is none.
///
/// # Errors
/// `OutOfMemory`.
pub fn answers_of(alloc: Global, transcript: &str) -> Result<String, AllocError> {
    let mut answers = String::new(alloc);
    for line in transcript.split_inclusive('\n') {
        if line.starts_with("A: ") && line != "A: none\n" {
            answers.push_str(line)?;
        }
    }
    Ok(answers)
}
