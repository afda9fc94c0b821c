//! The words that the program is called with.

use crate::address::site_of;
use anyhow::{Context, Result, bail};
use clap::{Arg, ArgAction, ArgMatches, Command};
use mirror_plan::Policy;
use mirror_run::Task;
use std::alloc::Global;
use std::io::Input;
use std::rt::Env;
use std::time::Duration;

/// What the words come to: a task, or an end with this status.
#[derive(Drop)]
pub enum Asked {
    /// A task, and whether only what is left undone is printed.
    Task(Box<Task>, bool),
    Ends(u8),
}

/// Reads the words. Help, and why they aren't understood, is printed.
///
/// # Errors
/// Out of memory, or standard input can't be read for the password.
pub fn read_words<'w, R>(rt: &R, words: &'w [String]) -> Result<Asked>
where
    R: AllocGlobal + Env + Input + Print + Eprint,
{
    let command: Command<'w> = all_words(rt.alloc())?;
    let matches = match command.try_get_matches_from(words) {
        Ok(matches) => matches,
        Err(error) => {
            error.print(rt)?;
            return Ok(Asked::Ends(if error.use_stderr() { 2 } else { 0 }));
        }
    };
    match task_of(rt, &matches) {
        Ok(task) => Ok(Asked::Task(Box::new(rt.alloc(), task)?, matches.get_flag("quiet"))),
        Err(error) => {
            let _ = eprintln!(rt; "ftpmirror: {error:#}");
            Ok(Asked::Ends(2))
        }
    }
}

/// The words that there are.
fn all_words<'w>(alloc: Global) -> Result<Command<'w>> {
    let command = Command::new(alloc, "ftpmirror")
        .about("Makes LOCAL like a folder of an FTP server, or with --upload the other way.")
        .after_help(
            "A password may stand in the address, in FTP_PASSWORD, or come on standard input (--password-stdin).",
        )
        .arg(
            Arg::new(alloc, "from")
                .value_name("FROM")
                .required(true)
                .help("ftp://[user@]host[:port]/folder, or LOCAL with --upload"),
        )?
        .arg(
            Arg::new(alloc, "to")
                .value_name("TO")
                .required(true)
                .help("LOCAL, or ftp://.. with --upload"),
        )?;
    with_flags(alloc, with_values(alloc, command)?)
}

/// The same with the words that have a value.
fn with_values<'w>(alloc: Global, command: Command<'w>) -> Result<Command<'w>> {
    let command = command
        .arg(number(alloc, "jobs", "3", "connections at once"))?
        .arg(number(
            alloc,
            "retries",
            "5",
            "how often a lost connection is made anew for a file",
        ))?
        .arg(number(
            alloc,
            "limit",
            "30",
            "seconds that a server may let a wait last",
        ))?
        .arg(pattern(
            alloc,
            "include",
            "mirror only names like this (* and ?); may be repeated",
        ))?
        .arg(pattern(
            alloc,
            "exclude",
            "leave names like this alone; may be repeated",
        ))?;
    Ok(command)
}

/// The same with the words that have none.
fn with_flags<'w>(alloc: Global, command: Command<'w>) -> Result<Command<'w>> {
    let command = command
        .arg(flag(alloc, "upload", "make the server's folder like LOCAL"))?
        .arg(flag(alloc, "delete", "delete what was listed as gone"))?
        .arg(flag(
            alloc,
            "newer",
            "copy files of the same size, too, that are newer",
        ))?
        .arg(flag(alloc, "links", "copy what the server's links lead to"))?
        .arg(flag(alloc, "dry-run", "only print the plan"))?
        .arg(flag(alloc, "latin1", "names are ISO 8859-1, a byte a character"))?
        .arg(flag(alloc, "active", "have the server connect (PORT, EPRT)"))?
        .arg(flag(alloc, "lenient", "read replies leniently"))?
        .arg(flag(
            alloc,
            "password-stdin",
            "read the password from standard input",
        ))?
        .arg(flag(alloc, "quiet", "print only what is left undone"))?;
    Ok(command)
}

/// A word without a value.
fn flag<'w>(alloc: Global, name: &'w str, help: &'w str) -> Arg<'w> {
    Arg::new(alloc, name)
        .long(name)
        .action(ArgAction::SetTrue)
        .help(help)
}

/// A word whose value is a number.
fn number<'w>(alloc: Global, name: &'w str, default: &'w str, help: &'w str) -> Arg<'w> {
    Arg::new(alloc, name)
        .long(name)
        .value_name("N")
        .value_parser(clap::value_parser!(u32))
        .default_value(default)
        .help(help)
}

/// A word whose value is a pattern, which may be repeated.
fn pattern<'w>(alloc: Global, name: &'w str, help: &'w str) -> Arg<'w> {
    Arg::new(alloc, name)
        .long(name)
        .value_name("PATTERN")
        .action(ArgAction::Append)
        .help(help)
}

/// What the words ask for.
fn task_of<R>(rt: &R, matches: &ArgMatches<'_>) -> Result<Task>
where
    R: AllocGlobal + Env + Input,
{
    let alloc = rt.alloc();
    let from = matches.get_str("from").context("FROM is missing")?;
    let to = matches.get_str("to").context("TO is missing")?;
    let uploads = matches.get_flag("upload");
    if uploads && matches.get_flag("links") {
        bail!("--links is of downloads");
    }
    let (address, local) = if uploads { (to, from) } else { (from, to) };
    let mut site = site_of(rt, address, matches.get_flag("password-stdin"))?;
    site.limit = Duration::from_secs(u64::from(number_of(matches, "limit")?));
    site.is_active = matches.get_flag("active");
    site.is_lenient = matches.get_flag("lenient");
    site.is_latin1 = matches.get_flag("latin1");
    Ok(Task {
        site,
        local: String::from_str(alloc, local)?,
        uploads,
        jobs: number_of(matches, "jobs")? as usize,
        retries: number_of(matches, "retries")?,
        first_pause: Duration::from_secs(1),
        policy: Policy {
            delete: matches.get_flag("delete"),
            newer: matches.get_flag("newer"),
        },
        follows_links: matches.get_flag("links"),
        dry_run: matches.get_flag("dry-run"),
        include: patterns_of(alloc, matches, "include")?,
        exclude: patterns_of(alloc, matches, "exclude")?,
    })
}

/// A number that isn't 0, but for the retries.
fn number_of(matches: &ArgMatches<'_>, name: &str) -> Result<u32> {
    let number = matches.get_one::<u32>(name).context("a number is missing")?;
    if number == 0 && name != "retries" {
        bail!("--{name} 0 makes no sense");
    }
    Ok(number)
}

/// All values of a word that may be repeated.
fn patterns_of(alloc: Global, matches: &ArgMatches<'_>, name: &str) -> Result<Vec<String>> {
    let mut patterns = Vec::new(alloc);
    for text in matches.get_strs(name).unwrap_or(&[]) {
        patterns.push(String::from_str(alloc, text)?)?;
    }
    Ok(patterns)
}
