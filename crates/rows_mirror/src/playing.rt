//! A row is played: its folder is mirrored from its server, or to it. The runs themselves are `main`'s, since a runtime that is
//! only known by what it can do can't be shared by threads.

use crate::folder;
use crate::outside::{Outside, Serving};
use crate::served::Served;
use anyhow::Result;
use mirror_plan::Policy;
use mirror_run::{Report, Shows, Site, Task};
use rows_text::RowError;
use std::alloc::Global;
use std::mem;
use std::time::Duration;

/// How long the client waits for the server, in seconds.
const LIMIT: u64 = 20;

/// A row that is played.
#[derive(Drop)]
pub struct Playing<'a> {
    // The lines that are still to be played.
    left: &'a str,
    served: Served,
    transcript: String,
}

/// A run of the mirror, which is to be made.
#[derive(Drop)]
pub struct Run {
    pub task: Task,
    pub report: Report,
    serving: Serving,
}

impl<'a> Playing<'a> {
    /// These lines, before the first.
    ///
    /// # Errors
    /// The folder can't be made.
    pub fn begin<O: Outside>(rt: &O, lines: &'a str) -> Result<Playing<'a>> {
        folder::begin(rt)?;
        Ok(Playing {
            left: lines,
            served: Served::new(rt.alloc())?,
            transcript: String::new(rt.alloc()),
        })
    }

    /// Plays lines up to the next run; none where no other follows.
    ///
    /// # Errors
    /// A line isn't understood; a file, a socket or memory fails.
    pub fn next_run<O: Outside>(&mut self, rt: &O) -> Result<Option<Run>> {
        for _ in 0..self.left.len() {
            let (line, left) = self.left.split_once('\n').unwrap_or((self.left, ""));
            self.left = left;
            let (verb, words) = line.split_once(' ').unwrap_or((line, ""));
            match verb {
                "" => {}
                "here" => folder::put(rt, words)?,
                "run" => return Ok(Some(self.run(rt, words)?)),
                _ => self.served.read(rt.alloc(), verb, words)?,
            }
        }
        Ok(None)
    }

    /// A run with these options, whose server is there.
    fn run<O: Outside>(&mut self, rt: &O, words: &str) -> Result<Run> {
        let mut task = task_of(rt.alloc(), words)?;
        let served = mem::replace(&mut self.served, Served::new(rt.alloc())?);
        let serving = rt.serve(served)?;
        write!(task.site.address, "{}", serving.address)?;
        Ok(Run {
            task,
            report: Report::new(rt.alloc(), Shows::Kept),
            serving,
        })
    }

    /// A run was made. The transcript has what the server was sent, what was told, and the status.
    ///
    /// # Errors
    /// The server can't be stopped, or out of memory.
    pub fn ran<O: Outside>(&mut self, rt: &O, run: Run, is_alike: bool) -> Result<()> {
        let Run {
            task,
            report,
            serving,
        } = run;
        drop(task);
        let told = report.into_kept();
        drop(mem::replace(&mut self.served, rt.stop(serving)?));
        self.transcript.push_str(self.served.log.as_str())?;
        self.served.log.clear();
        for line in told.lines() {
            write!(self.transcript, "told {line}\n")?;
        }
        let status = if is_alike { 0 } else { 1 };
        write!(self.transcript, "status {status}\n")?;
        Ok(())
    }

    /// The transcript, with what stands in the folder, which is removed.
    ///
    /// # Errors
    /// A file or memory fails.
    pub fn end<O: Outside>(self, rt: &O) -> Result<String> {
        let Self {
            left: _,
            served,
            mut transcript,
        } = self;
        drop(served);
        transcript.push_str(folder::all(rt)?.as_str())?;
        folder::end(rt)?;
        Ok(transcript)
    }
}

/// The task of these options, with one connection and no pauses.
fn task_of(alloc: Global, words: &str) -> Result<Task, RowError> {
    let mut task = Task {
        site: site(alloc)?,
        local: String::from_str(alloc, folder::LOCAL)?,
        uploads: false,
        jobs: 1,
        retries: 3,
        first_pause: Duration::from_secs(0),
        policy: Policy {
            delete: false,
            newer: false,
        },
        follows_links: false,
        dry_run: false,
        include: Vec::new(alloc),
        exclude: Vec::new(alloc),
    };
    for word in words.split(' ') {
        match word {
            "" => {}
            "--upload" => task.uploads = true,
            "--delete" => task.policy.delete = true,
            "--newer" => task.policy.newer = true,
            "--links" => task.follows_links = true,
            "--dry-run" => task.dry_run = true,
            "--retries=0" => task.retries = 0,
            _ => return Err(RowError::NotUnderstood),
        }
    }
    Ok(task)
}

/// A site whose address isn't known yet, and the folder that a login leads to.
fn site(alloc: Global) -> Result<Site, RowError> {
    Ok(Site {
        address: String::new(alloc),
        user: String::from_str(alloc, "ada")?,
        password: String::from_str(alloc, "secret")?,
        folder: String::new(alloc),
        limit: Duration::from_secs(LIMIT),
        is_active: false,
        is_lenient: false,
        is_latin1: false,
    })
}
