//! What goes over the connections of a row and is asked of its transport, in the order in which it happens.
//!
//! The connections, the transport and the connector share it, so that it outlives them all: a client that is dropped takes
//! them with it.

use rows_text::shown;
use std::alloc::{AllocError, Global};
use std::mem;
use std::sync::{Arc, Mutex};

/// Bytes that were written one after another to one kind of connection, or a text.
#[derive(Drop)]
struct Entry {
    letter: char,
    bytes: Vec<u8>,
}

/// A share of the log of a row. What there is no memory for is left out of it.
pub struct Log {
    alloc: Global,
    entries: Arc<Mutex<Vec<Entry>>, Global>,
}

impl Drop for Log {
    fn drop(self) {
        let Self { alloc: _, entries } = self;
        drop(entries);
    }
}

/// Adds bytes to these entries: to the last, where that has this letter and goes on.
fn add(
    alloc: Global,
    entries: &mut Vec<Entry>,
    letter: char,
    bytes: &[u8],
    goes_on: bool,
) -> Result<(), AllocError> {
    if let Some(last) = entries.last_mut() {
        if goes_on && last.letter == letter {
            return last.bytes.extend_from_slice(bytes);
        }
    }
    let bytes = Vec::from_slice(alloc, bytes)?;
    Ok(entries.push(Entry { letter, bytes })?)
}

/// Adds the lines of an entry: one for each line that was sent to the server whole, or one for all of it.
fn show(alloc: Global, text: &mut String, entry: &Entry) -> Result<(), AllocError> {
    let letter = entry.letter;
    if matches!(letter, 'C' | 'S') {
        for line in entry.bytes.split_inclusive(|byte| *byte == b'\n') {
            if line.ends_with(b"\n") {
                let line = shown(alloc, line)?;
                write!(text, "{letter}: {line}\n")?;
            }
        }
        return Ok(());
    }
    if entry.bytes.is_empty() {
        return write!(text, "{letter}:\n");
    }
    let whole = shown(alloc, entry.bytes.as_slice())?;
    write!(text, "{letter}: {whole}\n")
}

impl Log {
    /// An empty log.
    ///
    /// # Errors
    /// Where an allocation fails.
    pub fn new(alloc: Global) -> Result<Log, AllocError> {
        match Arc::new(alloc, Mutex::new(Vec::new(alloc))) {
            Ok(entries) => Ok(Log { alloc, entries }),
            Err(_) => Err(AllocError),
        }
    }

    /// Another share of the same log.
    ///
    /// # Errors
    /// Where an allocation fails.
    pub fn share(&self) -> Result<Log, AllocError> {
        match self.entries.clone() {
            Ok(entries) => Ok(Log {
                alloc: self.alloc,
                entries,
            }),
            Err(_) => Err(AllocError),
        }
    }

    /// Bytes were written to a connection of this letter.
    pub fn write(&self, letter: char, bytes: &[u8]) {
        if let Some(mut entries) = self.entries.try_lock() {
            let _ = add(self.alloc, &mut entries, letter, bytes, true);
        }
    }

    /// Something else happened.
    pub fn note(&self, letter: char, text: &str) {
        if let Some(mut entries) = self.entries.try_lock() {
            let _ = add(self.alloc, &mut entries, letter, text.as_bytes(), false);
        }
    }

    /// Takes what has happened so far.
    fn take(&self) -> Vec<Entry> {
        match self.entries.try_lock() {
            Some(mut entries) => mem::replace(&mut *entries, Vec::new(self.alloc)),
            None => Vec::new(self.alloc),
        }
    }

    /// Adds to a transcript what has happened since this was last called.
    ///
    /// # Errors
    /// Where an allocation fails.
    pub fn show(&self, text: &mut String) -> Result<(), AllocError> {
        for entry in &self.take() {
            show(self.alloc, text, entry)?;
        }
        Ok(())
    }
}
