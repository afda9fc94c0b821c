//! Directories that a client lists as files, over tokio's sockets.

use crate::clients::write_passive;
use crate::scene::{Scene, came, done, greeted, next, send, waits};
use ftp_list::Listing;
use std::alloc::AllocGlobal;
use std::io::Write;
use std::net::{Net, TcpListener, TcpStream};
use std::random::RandomSource;
use std::sync::Wait;
use std::test::Fail;
use std::thread::{JoinHandle, Threads};
use std::time::Clock;
use std::{io, thread};
use test_loopback::listening;

/// The lines of a listing, two of which can't be read.
const LINES: &[u8] =
    b"total 8\r\n-rw-r--r-- 1 user group 1234 Nov 5 2018 a.txt\r\nhello\r\n04-08-14  03:09PM  8192 b.txt\r\ntotal of 8\r\n";

/// The facts of two files: two lines of the listing in RFC 3659, section 7.7.
const FACTS: &[u8] =
    b"Type=pdir;Modify=19990112030508;Perm=el; ..\r\nType=file;Size=25730;Modify=19940728095854;Perm=; capmux.tar.z\r\n";

/// The facts of a file, and a mode that is none: its digits aren't octal.
const MIXED: &[u8] =
    b"unix.mode=888; x\r\nType=file;Size=25730;Modify=19940728095854;Perm=; capmux.tar.z\r\n";

/// The reply to FEAT that names them: RFC 3659, section 7.8.
const FEATURES: &[u8] = b"211-Extensions:\r\n MLST size*;type*;\r\n211 END\r\n";

/// Sends a listing on the next data connection.
fn feed(listener: &TcpListener, listing: &[u8]) -> io::Result<()> {
    let (mut peer, _address) = listener.accept()?;
    peer.write_all(listing)
}

/// A thread that sends a listing, which the client is told of after this reply to FEAT.
fn feeding<R>(
    rt: &R,
    scene: &mut Scene,
    features: &[u8],
    listing: &'static [u8],
) -> Result<JoinHandle<io::Result<()>>, Fail>
where
    R: Net<Listener = TcpListener, Stream = TcpStream> + Threads,
{
    let (listener, address) = listening(rt)?;
    scene.server.write_all(features)?;
    write_passive(&mut scene.server, address.port())?;
    scene.server.write_all(b"226 done\r\n")?;
    Ok(thread::spawn(rt, move || feed(&listener, listing))?)
}

/// What is in a listing: each file with its size, and each line that can't be read.
fn text_of<R: AllocGlobal>(rt: &R, listing: &Listing) -> Result<String, Fail> {
    let mut text = String::new(rt.alloc());
    for file in &listing.files {
        write!(text, "{} {}|", file.name(), file.size())?;
    }
    for line in &listing.unread {
        write!(text, "?{line}|")?;
    }
    Ok(text)
}

/// What a client lists.
fn listed<R>(rt: &R, scene: &mut Scene) -> Result<String, Fail>
where
    R: Net + Wait + Clock + RandomSource + AllocGlobal,
{
    let entries = scene.client.list_entries(rt, Some("pub"));
    let listing = Box::new(rt.alloc(), scene.runtime.local().block_on(rt, entries)??)?;
    text_of(rt, &listing)
}

#[test]
fn lines_that_cannot_be_read_leave_the_files(rt: HostRuntime) -> Result<(), Fail> {
    let mut scene = greeted(&rt)?;
    let feeding = feeding(&rt, &mut scene, b"502 no\r\n", LINES)?;
    let text = listed(&rt, &mut scene)?;
    let fed = feeding.join(&rt).is_ok();
    let sent = came(&mut scene.server, b"FEAT\r\nPASV\r\nLIST pub\r\n");
    drop(scene);
    let due = "a.txt 1234|b.txt 8192|?hello|?total of 8|";
    assert_eq!(rt; (text.as_str(), fed, sent), (due, true, true));
    Ok(())
}

/// What a client lists as files alone, each with its size.
fn listed_files<R>(rt: &R, scene: &mut Scene) -> Result<String, Fail>
where
    R: Net + Wait + Clock + RandomSource + AllocGlobal,
{
    let files = scene.client.list_files(rt, Some("pub"));
    let files = Box::new(rt.alloc(), scene.runtime.local().block_on(rt, files)??)?;
    let mut text = String::new(rt.alloc());
    for file in files.as_slice() {
        write!(text, "{} {}|", file.name(), file.size())?;
    }
    Ok(text)
}

#[test]
fn files_are_listed_by_their_facts_where_the_server_has_them(rt: HostRuntime) -> Result<(), Fail> {
    let mut scene = greeted(&rt)?;
    let feeding = feeding(&rt, &mut scene, FEATURES, FACTS)?;
    let text = listed_files(&rt, &mut scene)?;
    let fed = feeding.join(&rt).is_ok();
    let sent = came(&mut scene.server, b"FEAT\r\nPASV\r\nMLSD pub\r\n");
    drop(scene);
    assert_eq!(rt;
        (text.as_str(), fed, sent),
        ("capmux.tar.z 25730|", true, true)
    );
    Ok(())
}

#[test]
fn facts_that_cannot_be_read_leave_the_files(rt: HostRuntime) -> Result<(), Fail> {
    let mut scene = greeted(&rt)?;
    let feeding = feeding(&rt, &mut scene, FEATURES, MIXED)?;
    let text = listed(&rt, &mut scene)?;
    let fed = feeding.join(&rt).is_ok();
    let sent = came(&mut scene.server, b"FEAT\r\nPASV\r\nMLSD pub\r\n");
    drop(scene);
    assert_eq!(rt;
        (text.as_str(), fed, sent),
        ("capmux.tar.z 25730|?unix.mode=888; x|", true, true)
    );
    Ok(())
}

#[test]
fn files_are_all_or_an_error(rt: HostRuntime) -> Result<(), Fail> {
    let mut scene = greeted(&rt)?;
    let feeding = feeding(&rt, &mut scene, b"502 no\r\n", LINES)?;
    let files = scene.client.list_files(&rt, None);
    let fault = done(&rt, &mut scene.runtime, files);
    let fed = feeding.join(&rt).is_ok();
    drop(scene);
    // BadResponse
    assert_eq!(rt; (fault, fed), (11, true));
    Ok(())
}

/// A list of files that waits for the reply to FEAT, then for that to PASV, and is dropped; whether it waited.
fn dropped_list<R>(rt: &R, scene: &mut Scene) -> bool
where
    R: Net + Wait + Clock + RandomSource + AllocGlobal,
{
    let mut files = scene.client.list_files(rt, None);
    let asks = waits(rt, &mut scene.runtime, &mut files);
    let replied = send(&mut scene.server, b"211-F\r\n MLST type*;\r\n211 end\r\n");
    let lists = waits(rt, &mut scene.runtime, &mut files);
    asks && replied && lists
}

#[test]
fn a_list_of_files_is_dropped_between_its_calls(rt: HostRuntime) -> Result<(), Fail> {
    let mut scene = greeted(&rt)?;
    let waited = dropped_list(&rt, &mut scene);
    let replied = send(&mut scene.server, b"425 no\r\n200 ok\r\n");
    let answered = next(&rt, &mut scene);
    let sent = came(&mut scene.server, b"FEAT\r\nPASV\r\nNOOP\r\n");
    drop(scene);
    assert_eq!(rt; (waited, replied, sent, answered), (true, true, true, 0));
    Ok(())
}
