//! The connector of TLS over memory.

ghost use Rattle.std.specs.Prelude.{IfOk};
ghost use Rattle.ftp_secure.specs.Connectors.{IsUnused, secured_as};
ghost use Rattle.rows_tls.specs.Sealed.{MakesOf};

use crate::covers::Covers;
use crate::sealed::Sealed;
use crate::sealed_poll::Sealing;
use ftp_secure::{Secures, TlsConnector};
use std::alloc::{AllocError, Global};
use std::sync::atomic::AtomicU32;
use std::sync::atomic::Ordering::SeqCst;

/// A connector that is handed what comes in clear on its streams, in order; nothing comes on those after the last. It fails
/// for a server without a dot in its name, and a stream to one that ends in a dot can't give its connection back.
pub struct Seal {
    alloc: Global,
    texts: Vec<String>,
    // The text with which each handshake is refused, in order; an empty one where it isn't.
    refusals: Vec<String>,
    // How many handshakes were begun, and how many streams were made.
    handshakes: AtomicU32,
    streams: AtomicU32,
}

impl Drop for Seal {
    fn drop(self) {
        let Self {
            alloc: _,
            texts,
            refusals,
            handshakes,
            streams,
        } = self;
        drop(texts);
        drop(refusals);
        drop(handshakes);
        drop(streams);
    }
}

impl Seal {
    /// A connector on whose first stream these bytes come in clear.
    pub fn new(alloc: Global, clear: &str) -> Result<Box<Seal>, AllocError> {
        let mut texts = Vec::new(alloc);
        texts.push(String::from_str(alloc, clear)?)?;
        let seal = Seal {
            alloc,
            texts,
            refusals: Vec::new(alloc),
            handshakes: AtomicU32::new(0),
            streams: AtomicU32::new(0),
        };
        Ok(Box::new(alloc, seal)?)
    }

    /// On the stream after those that have bytes these come in clear.
    ///
    /// # Errors
    /// Where an allocation fails.
    pub fn then(&mut self, clear: &str) -> Result<(), AllocError> {
        Ok(self.texts.push(String::from_str(self.alloc, clear)?)?)
    }

    /// The handshake of this number, from 1 on, is refused with this text. Refusals are named in their order.
    ///
    /// # Errors
    /// Where an allocation fails.
    pub fn refuse(&mut self, number: usize, text: &str) -> Result<(), AllocError> {
        for _ in self.refusals.len()..number.saturating_sub(1) {
            self.refusals.push(String::new(self.alloc))?;
        }
        Ok(self.refusals.push(String::from_str(self.alloc, text)?)?)
    }

    /// What is read in clear from a server of this name; or the text of an error, empty where memory ran out.
    pub(crate) fn answer<C: Covers>(&self, domain: &str, conn: &C) -> Result<C, String>
        ensures made { MakesOf C.tells (secured_as C.told result) }
        ensures unused { C.tells → IfOk result (λ clear. IsUnused (C.told clear)) }
    {
        conn.begin_handshake(domain);
        let refusal = text_at(self.refusals.as_slice(), next(&self.handshakes));
        if !refusal.is_empty() {
            return Err(copy(self.alloc, refusal));
        }
        if !domain.contains('.') {
            return Err(copy(self.alloc, domain));
        }
        let clear = text_at(self.texts.as_slice(), next(&self.streams));
        match conn.cover(self.alloc, clear) {
            Ok(clear) => Ok(clear),
            Err(AllocError) => Err(String::new(self.alloc)),
        }
    }
}

impl<C: Covers> Secures<C> for Seal {
    type Stream = Sealed<C>;

    type Connecting = Sealing<C>;

    ghost answers = { λ _ _ _ outcome. MakesOf C.tells outcome };
}

impl<C: Covers> TlsConnector<C> for Seal {
    fn connect(&self, domain: &str, conn: C) -> Result<Sealed<C>, String> {
        let stuck = domain.ends_with('.');
        match self.answer(domain, &conn) {
            Ok(clear) => Ok(Sealed { conn, clear, stuck }),
            Err(text) => {
                drop(conn);
                Err(text)
            }
        }
    }
}

/// The number of the next event, from 0 on.
fn next(count: &AtomicU32) -> usize {
    count.fetch_add(1, SeqCst) as usize
}

/// The text at a place; an empty one after the last.
fn text_at(texts: &[String], place: usize) -> &str {
    match texts.get(place) {
        Some(text) => text.as_str(),
        None => "",
    }
}

/// A text, or an empty one where memory ran out.
fn copy(alloc: Global, text: &str) -> String {
    match String::from_str(alloc, text) {
        Ok(copy) => copy,
        Err(AllocError) => String::new(alloc),
    }
}
