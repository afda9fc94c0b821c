//! Plays stored scripts.
//!
//! A line `== NAME` begins a script, a line `=> STATUS` what is due of it: its transcript, or what is printed on
//! standard error. A script's last line has its LF, too.

use anyhow::Result;
use ftp_script::play_script;
use std::alloc::Global;

/// Plays scripts, and prints each that differs, and how many there were.
pub fn play<R: Print + AllocGlobal>(rt: &R, stored: &str) -> Result<()> {
    let mut count = 0u64;
    let mut differ = 0u64;
    for section in stored.split("== ").skip(1) {
        count = count.saturating_add(1);
        if !agrees(rt, section)? {
            differ = differ.saturating_add(1);
        }
    }
    println!(rt; "scripts: {count} played, {differ} differ")?;
    Ok(())
}

/// Plays a section: a name, a script, and what is due; whether that came.
fn agrees<R: Print + AllocGlobal>(rt: &R, section: &str) -> Result<bool> {
    let (name, rest) = section.split_once('\n').unwrap_or((section, ""));
    let (script, due) = rest.split_once("=> ").unwrap_or((rest, ""));
    let came = played(rt.alloc(), script)?;
    if came.as_str() == due {
        return Ok(true);
    }
    println!(rt; "scripts: {name}: {came}")?;
    Ok(false)
}

/// The status of a script and what it wrote.
fn played(alloc: Global, script: &str) -> Result<String> {
    let mut reader = script.as_bytes();
    let mut written = Vec::new(alloc);
    let mut errors = Vec::new(alloc);
    let status = play_script(alloc, &mut reader, &mut written, &mut errors);
    let mut text = format!(in alloc; "{status}\n")?;
    text.push_str(String::from_utf8(written)?.as_str())?;
    text.push_str(String::from_utf8(errors)?.as_str())?;
    Ok(text)
}
