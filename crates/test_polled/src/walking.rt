//! Walks of the polled client over tokio's sockets.

use crate::scene::{Scene, came, done, greeted, next, send, waits};
use ftp_base::types::FtpResult;
use ftp_list::File;
use ftp_shared::{PassedOver, Place, Visitor, WalkLimits};
use std::alloc::{AllocGlobal, Global};
use std::io::Write;
use std::net::{Net, TcpListener};
use std::random::RandomSource;
use std::sync::Wait;
use std::test::Fail;
use std::time::Clock;
use std::{io, thread};
use test_loopback::listening;

/// Writes down what it is shown; enters each folder.
#[derive(Drop)]
struct Notes {
    alloc: Global,
    text: String,
}

impl Visitor for Notes {
    fn entry(&mut self, place: &Place, _entry: &File) -> FtpResult<bool> {
        let path = place.below(self.alloc, "r")?;
        let _ = write!(self.text, "{path}|");
        Ok(true)
    }

    fn passed_over(&mut self, folder: &Place, what: PassedOver<'_>) -> FtpResult<()> {
        let path = folder.below(self.alloc, "r")?;
        let _ = match what {
            PassedOver::Refused(reply) => write!(self.text, "{path}: {reply}|"),
            PassedOver::NotPlain(entry) => write!(self.text, "{path} has {}|", entry.name()),
            _ => write!(self.text, "{path}: other|"),
        };
        Ok(())
    }
}

/// Sends these listings on the next connections.
fn feed(listener: &TcpListener, listings: [&[u8]; 2]) -> io::Result<()> {
    for listing in listings {
        let (mut peer, _address) = listener.accept()?;
        peer.write_all(listing)?;
    }
    Ok(())
}

/// What a visitor is shown of the folder `r`, and the number of the walk's error.
fn walked<R>(rt: &R, scene: &mut Scene) -> Result<String, Fail>
where
    R: Net + Wait + Clock + RandomSource + AllocGlobal,
{
    let mut notes = Notes {
        alloc: rt.alloc(),
        text: String::new(rt.alloc()),
    };
    let walk = scene
        .client
        .walk(rt, "r", WalkLimits::default(), &mut notes);
    let ended = done(rt, &mut scene.runtime, walk);
    let Notes { alloc: _, mut text } = notes;
    write!(text, "{ended}")?;
    Ok(text)
}

#[test]
fn a_walk_asks_for_features_once_and_tells_what_is_passed_over(
    rt: HostRuntime,
) -> Result<(), Fail> {
    let (listener, address) = listening(&rt)?;
    let listings: [&[u8]; 2] = [
        b"type=dir; a\r\ntype=file; f\r\ntype=dir; b\r\n",
        b"type=dir; ../up\r\ntype=file; g\r\n",
    ];
    let feeding = thread::spawn(&rt, move || feed(&listener, listings))?;
    let mut scene = greeted(&rt)?;
    let (high, low) = (address.port() / 256, address.port() % 256);
    let listed = format!(in rt.alloc(); "227 on (127,0,0,1,{high},{low})\r\n150 b\r\n226 d\r\n")?;
    write!(
        scene.server,
        "211-F\r\n MLST type*;\r\n211 end\r\n{listed}{listed}425 no\r\n"
    )?;
    let text = walked(&rt, &mut scene)?;
    let fed = feeding.join(&rt).is_ok();
    let sent = came(
        &mut scene.server,
        b"FEAT\r\nPASV\r\nMLSD r\r\nPASV\r\nMLSD r/a\r\nPASV\r\n",
    );
    drop(scene);
    assert_eq!(rt;
        (text.as_str(), fed, sent),
        (
            "r/a|r/f|r/b|r/a has ../up|r/a/g|r/b: [425] 425 no|0",
            true,
            true
        )
    );
    Ok(())
}

/// A walk that waits for the reply to FEAT, then for that to PASV, and is dropped; whether it waited.
fn dropped_walk<R>(rt: &R, scene: &mut Scene) -> bool
where
    R: Net + Wait + Clock + RandomSource + AllocGlobal,
{
    let notes = Notes {
        alloc: rt.alloc(),
        text: String::new(rt.alloc()),
    };
    let mut walk = scene.client.walk(rt, "r", WalkLimits::default(), notes);
    let asks = waits(rt, &mut scene.runtime, &mut walk);
    let replied = send(&mut scene.server, b"502 no\r\n");
    let lists = waits(rt, &mut scene.runtime, &mut walk);
    asks && replied && lists
}

#[test]
fn a_walk_is_dropped_between_its_calls(rt: HostRuntime) -> Result<(), Fail> {
    let mut scene = greeted(&rt)?;
    let waited = dropped_walk(&rt, &mut scene);
    let replied = send(&mut scene.server, b"425 no\r\n200 ok\r\n");
    let answered = next(&rt, &mut scene);
    let sent = came(&mut scene.server, b"FEAT\r\nPASV\r\nNOOP\r\n");
    drop(scene);
    assert_eq!(rt; (waited, replied, sent, answered), (true, true, true, 0));
    Ok(())
}
