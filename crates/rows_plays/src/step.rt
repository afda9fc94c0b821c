//! What happens in a row, a step a line.

use rows_text::RowError;

/// What a step says.
#[derive(Clone, Copy)]
pub enum Kind {
    /// `server BYTES`: the server sends these. Without events they are all there from the start.
    Server,
    /// `host BYTES`: the next address that is connected to is a server's that sends these.
    Host,
    /// `refuses`: the next address that is connected to refuses.
    Refuses,
    /// `connect ADDRESSES`: these are connected to in turn, and the greeting is read.
    Connect,
    /// `within SECONDS ADDRESS`: the same of one address, within a time.
    Within,
    /// `mode KIND`, `nat on`, `peers any`, `deadline SECONDS`, `local ADDRESS`, `peer ADDRESS`, `listens PORT`,
    /// `comes ADDRESS`, `comes ADDRESS BYTES`, `refuses KIND`: a setting of the session, an end of its connection, or
    /// what a request of its transport results in.
    Set,
    /// `connects`, `connects BYTES`: the next data connection that is asked for connects, and these bytes come on it.
    Connects,
    /// `builds`, `builds BYTES`: the session has a builder of data connections, on which these bytes come.
    Builds,
    /// `builds-not FAULT`: its builder returns this error.
    BuildsNot,
    /// `encoding NAME`: the encoding of the session's texts.
    Encoding,
    /// `call WORDS`: a call, made whole; among events it begins and is polled.
    Call,
    /// `feed BYTES`: the server's bytes come.
    Feed,
    /// `end`: the server's bytes end.
    End,
    /// `room N`: so many more bytes may be written.
    Room,
    /// `start WORDS`: a call begins.
    Start,
    /// `poll`: the call under way is polled.
    Poll,
    /// `cancel`: the call under way is dropped.
    Cancel,
    /// `leave`: the transfer is left.
    Leave,
    /// `later`: what follows is a run of its own, so that a call under way is dropped.
    Later,
    /// `welcome`: the transcript ends with the text that the server greeted with.
    Welcome,
    /// `counts`: the transcript ends with how many transfers were opened, and what became of them.
    Counts,
}

/// Words that something follows.
const WITH_ARGUMENT: [(&str, Kind); 21] = [
    ("server", Kind::Server),
    ("host", Kind::Host),
    ("connects", Kind::Connects),
    ("builds", Kind::Builds),
    ("builds-not", Kind::BuildsNot),
    ("connect", Kind::Connect),
    ("within", Kind::Within),
    ("encoding", Kind::Encoding),
    ("call", Kind::Call),
    ("feed", Kind::Feed),
    ("room", Kind::Room),
    ("start", Kind::Start),
    ("mode", Kind::Set),
    ("nat", Kind::Set),
    ("peers", Kind::Set),
    ("deadline", Kind::Set),
    ("local", Kind::Set),
    ("peer", Kind::Set),
    ("listens", Kind::Set),
    ("comes", Kind::Set),
    ("refuses", Kind::Set),
];

/// Words that stand alone.
const BARE: [(&str, Kind); 12] = [
    ("lenient", Kind::Set),
    ("strict", Kind::Set),
    ("refuses", Kind::Refuses),
    ("connects", Kind::Connects),
    ("builds", Kind::Builds),
    ("end", Kind::End),
    ("poll", Kind::Poll),
    ("cancel", Kind::Cancel),
    ("leave", Kind::Leave),
    ("later", Kind::Later),
    ("welcome", Kind::Welcome),
    ("counts", Kind::Counts),
];

/// A step of a row.
#[derive(Clone, Copy)]
pub struct Step<'a> {
    /// What it says.
    pub kind: Kind,
    /// Its first word.
    pub word: &'a str,
    /// What stands after that.
    pub argument: &'a str,
}

impl<'a> Step<'a> {
    /// The step that a line writes.
    ///
    /// # Errors
    /// `NotUnderstood`.
    pub fn of(line: &'a str) -> Result<Step<'a>, RowError> {
        let (word, argument, kind) = match line.split_once(' ') {
            Some((word, argument)) => (word, argument, kind_of(&WITH_ARGUMENT, word)?),
            None => (line, "", kind_of(&BARE, line)?),
        };
        Ok(Step {
            kind,
            word,
            argument,
        })
    }

    /// Whether a row with this step is one of events.
    pub fn is_event(self) -> bool {
        matches!(
            self.kind,
            Kind::Feed
                | Kind::End
                | Kind::Room
                | Kind::Start
                | Kind::Poll
                | Kind::Cancel
                | Kind::Leave
                | Kind::Later
        )
    }
}

/// What a word says that is one of these.
fn kind_of(words: &[(&str, Kind)], word: &str) -> Result<Kind, RowError> {
    for (name, kind) in words {
        if *name == word {
            return Ok(*kind);
        }
    }
    Err(RowError::NotUnderstood)
}
