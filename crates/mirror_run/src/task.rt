//! What a mirror is asked to do.

use mirror_plan::Policy;
use std::time::Duration;

/// A server, a folder of it, and how it is called.
#[derive(Drop)]
pub struct Site {
    /// Where it listens, as `ftp.example.org:21`.
    pub address: String,
    /// Whom the server is told.
    pub user: String,
    pub password: String,
    /// The folder, as paths of the server begin; empty for the one that a login leads to.
    pub folder: String,
    /// How long a wait may last.
    pub limit: Duration,
    /// Whether the server connects for data, replies are read leniently, and names are ISO 8859-1.
    pub is_active: bool,
    pub is_lenient: bool,
    pub is_latin1: bool,
}

impl Site {
    /// How paths below the folder begin.
    pub fn root(&self) -> &str {
        if self.folder.is_empty() {
            "."
        } else {
            self.folder.as_str()
        }
    }
}

/// What a mirror is asked to do.
#[derive(Drop)]
pub struct Task {
    /// The server, and the folder there.
    pub site: Site,
    /// The folder here.
    pub local: String,
    /// Whether the server's folder is to become like the one here.
    pub uploads: bool,
    /// How many connections there are at once.
    pub jobs: usize,
    /// How often a connection that is lost is made anew, for each file, and how long the first pause before that is.
    pub retries: u32,
    pub first_pause: Duration,
    /// What the plan may do.
    pub policy: Policy,
    /// Whether what a link of the server leads to is copied.
    pub follows_links: bool,
    /// Whether the plan is only printed.
    pub dry_run: bool,
    /// The patterns of names that are mirrored, all where there is none, and of those that aren't.
    pub include: Vec<String>,
    pub exclude: Vec<String>,
}
