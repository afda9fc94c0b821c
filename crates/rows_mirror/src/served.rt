//! What the server of a row has and does.

use rows_text::{RowError, bytes_of, pair, text_of, value};
use std::alloc::Global;

/// A folder: its path, and its listing.
#[derive(Drop)]
pub struct Folder {
    pub path: String,
    pub listing: Vec<u8>,
}

/// Where the next download of a file is cut, and whether with the control connection.
#[derive(Clone, Copy)]
pub struct Cut {
    pub after: usize,
    pub loses_control: bool,
}

/// A file: its path, what is in it, and where it is cut.
#[derive(Drop)]
pub struct File {
    pub path: String,
    pub bytes: Vec<u8>,
    pub cut: Option<Cut>,
}

/// What a server has, what it refuses, and what it was sent.
#[derive(Drop)]
pub struct Served {
    pub folders: Vec<Folder>,
    pub files: Vec<File>,
    /// Commands, or how they begin, and the codes by which they are refused.
    pub refused: Vec<(String, String)>,
    /// The reply to FEAT, but for its end.
    pub features: String,
    /// The commands, but for those that each session has.
    pub log: String,
}

impl Served {
    /// A server that has an empty folder and MLSD.
    ///
    /// # Errors
    /// `OutOfMemory`.
    pub fn new(alloc: Global) -> Result<Served, RowError> {
        let mut served = Served {
            folders: Vec::new(alloc),
            files: Vec::new(alloc),
            refused: Vec::new(alloc),
            features: String::from_str(alloc, "211-offers\r\n MLST size*;modify*;type*;\r\n")?,
            log: String::new(alloc),
        };
        served.begin_folder(alloc, "")?;
        Ok(served)
    }

    fn begin_folder(&mut self, alloc: Global, path: &str) -> Result<(), RowError> {
        self.folders.push(Folder {
            path: text_of(alloc, path)?,
            listing: Vec::new(alloc),
        })?;
        Ok(())
    }

    /// Reads a line of a row that says what the server has or does.
    ///
    /// # Errors
    /// `NotUnderstood`, `OutOfMemory`.
    pub fn read(&mut self, alloc: Global, verb: &str, words: &str) -> Result<(), RowError> {
        match verb {
            "in" => self.begin_folder(alloc, words),
            "lists" => self.add_line(alloc, words),
            "file" => {
                let (path, text) = words.split_once(' ').unwrap_or((words, ""));
                self.files.push(File {
                    path: text_of(alloc, path)?,
                    bytes: bytes_of(alloc, text)?,
                    cut: None,
                })?;
                Ok(())
            }
            "cut" => self.cut(words, false),
            "lost" => self.cut(words, true),
            "refuses" => {
                let (code, command) = pair(words, " ")?;
                let code = String::from_str(alloc, code)?;
                self.refused.push((text_of(alloc, command)?, code))?;
                Ok(())
            }
            "offers" => Ok(write!(self.features, " {words}\r\n")?),
            _ => Err(RowError::NotUnderstood),
        }
    }

    /// Adds a line to the listing of the folder that was named last.
    fn add_line(&mut self, alloc: Global, line: &str) -> Result<(), RowError> {
        let bytes = bytes_of(alloc, line)?;
        if let Some(folder) = self.folders.last_mut() {
            folder.listing.extend_from_slice(&bytes)?;
            folder.listing.extend_from_slice(b"\r\n")?;
        }
        Ok(())
    }

    /// Has the first download of a file cut.
    fn cut(&mut self, words: &str, loses_control: bool) -> Result<(), RowError> {
        let (path, after) = pair(words, " ")?;
        let after = value(after)?;
        let file = self.file(path).ok_or(RowError::NotUnderstood)?;
        file.cut = Some(Cut {
            after,
            loses_control,
        });
        Ok(())
    }

    /// A file, by its path.
    pub fn file(&mut self, path: &str) -> Option<&mut File> {
        self.files
            .iter_mut()
            .find(|file| file.path.as_str() == path)
    }

    /// The listing of a folder, by its path.
    pub fn listing(&self, path: &str) -> Option<&[u8]> {
        let found = self
            .folders
            .iter()
            .find(|folder| folder.path.as_str() == path);
        match found {
            Some(folder) => Some(folder.listing.as_slice()),
            None => None,
        }
    }

    /// The code by which a command is refused, if it is.
    pub fn refusal(&self, line: &str) -> Option<&str> {
        let found = self
            .refused
            .iter()
            .find(|one| line.starts_with(one.0.as_str()));
        match found {
            Some(one) => Some(one.1.as_str()),
            None => None,
        }
    }
}
