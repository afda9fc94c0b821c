//! A folder and what is below it are downloaded.

use crate::login::logged_in;
use anyhow::Result;
use std::fs;
use std::rt::Files;
use std::sync::Wait;
use suppaftp::{
    File, FileType, FtpResult, FtpStream, Host, NoProgress, Place, Visitor, WalkLimits,
};

/// Downloads each file to the same path here.
#[derive(Drop)]
struct Copies<'r, R> {
    rt: &'r R,
    client: &'r FtpStream,
    folder: &'r str,
}

impl<R: Host + Wait + Files> Visitor for Copies<'_, R> {
    fn entry(&mut self, place: &Place, entry: &File) -> FtpResult<bool> {
        let path = place.below(self.rt.alloc(), self.folder)?;
        if entry.is_directory() {
            fs::create_dir_all(self.rt, &path)?;
        } else if entry.is_file() {
            let mut file = fs::create(self.rt, &path)?;
            self.client
                .write_to(self.rt, &path, &mut file, &mut NoProgress)?;
        }
        Ok(true)
    }
}

/// Downloads a folder and what is below it to folders here of the same names.
pub fn download<R>(rt: &R, client: &FtpStream, folder: &str) -> FtpResult<()>
where
    R: Host + Wait + Files,
{
    client.transfer_type(rt, FileType::Binary)?;
    fs::create_dir_all(rt, folder)?;
    let mut copies = Copies { rt, client, folder };
    client.walk(rt, folder, WalkLimits::default(), &mut copies)
}

/// Downloads a folder, prints what lies at two places here, and removes it.
pub fn run<R: Host + Wait + Files + Print>(rt: &R, address: &str) -> Result<()> {
    let client = logged_in(rt, address)?;
    download(rt, &client, "pub")?;
    client.quit(rt)?;
    for path in ["pub/one.txt", "pub/two.txt", "pub/sub/three.txt", "one.txt"] {
        println!(rt; "{path} is here: {}", fs::exists(rt, path)?)?;
    }
    fs::remove_dir_all(rt, "pub")?;
    Ok(())
}
