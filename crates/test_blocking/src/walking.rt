//! Walks of a blocking client over memory.

use crate::scene::{MemoryClient, add_sent, boxed, conn_with, greeted, number};
use ftp_base::types::FtpResult;
use ftp_blocking::ImplFtpStream;
use ftp_list::File;
use ftp_shared::{PassedOver, Place, Visitor, WalkLimits};
use ftp_transport::{MemoryTransport, Supply};
use std::alloc::Global;
use std::sync::Wait;
use std::test::Fail;
use std::time::Clock;

/// A client whose server sent these replies after its greeting, with a data connection for each of these listings.
fn client_with(alloc: Global, replies: &str, listings: &[&str]) -> FtpResult<Box<MemoryClient>> {
    let mut transport = MemoryTransport::new(alloc);
    for data in listings {
        transport.supply(Supply::Connects(conn_with(alloc, data.as_bytes())?))?;
    }
    let mut conn = conn_with(alloc, b"220 r\r\n")?;
    conn.feed(replies.as_bytes())?;
    let session = greeted(alloc, transport, conn)?;
    boxed(alloc, ImplFtpStream::new(alloc, Box::into_inner(session))?)
}

/// Writes down what it is shown, and the size that its client asks for of each file; enters each folder.
#[derive(Drop)]
struct Notes<'c, R> {
    rt: &'c R,
    client: &'c MemoryClient,
    text: String,
}

impl<R: Wait + AllocGlobal> Visitor for Notes<'_, R> {
    fn entry(&mut self, place: &Place, entry: &File) -> FtpResult<bool> {
        let path = place.below(self.rt.alloc(), "r")?;
        let _ = write!(self.text, "{path}|");
        if entry.is_file() {
            let size = self.client.size(self.rt, path.as_str())?;
            let _ = write!(self.text, "{size}|");
        }
        Ok(true)
    }

    fn passed_over(&mut self, folder: &Place, what: PassedOver<'_>) -> FtpResult<()> {
        let path = folder.below(self.rt.alloc(), "r")?;
        let _ = match what {
            PassedOver::Refused(reply) => write!(self.text, "{path}: {reply}|"),
            PassedOver::NotPlain(entry) => write!(self.text, "{path} has {}|", entry.name()),
            _ => write!(self.text, "{path}: other|"),
        };
        Ok(())
    }
}

/// What a visitor is shown of the folder `r`, which calls the client beside it; the number of the walk's error; and what
/// was sent.
fn walked<R>(rt: &R, replies: &str, listings: &[&str]) -> Result<String, Fail>
where
    R: Clock + Wait + AllocGlobal,
{
    let client = client_with(rt.alloc(), replies, listings)?;
    let mut notes = Notes {
        rt,
        client: &client,
        text: String::new(rt.alloc()),
    };
    let ended = number(client.walk(rt, "r", WalkLimits::default(), &mut notes));
    let Notes {
        rt: _,
        client: _,
        mut text,
    } = notes;
    write!(text, "{ended}|")?;
    add_sent(rt, &client, &mut text)?;
    Ok(text)
}

/// A listing by facts: the reply to PASV, and those to MLSD.
const LISTED: &str = "227 ok (10,0,0,1,4,0)\r\n150 b\r\n226 d\r\n";

#[test]
fn a_walk_asks_for_features_once_and_lets_its_visitor_call(rt: HostRuntime) -> Result<(), Fail> {
    let replies = format!(in rt.alloc();
        "211-F\r\n MLST type*;\r\n211 end\r\n{LISTED}213 5\r\n{LISTED}213 6\r\n"
    )?;
    let listings = [
        "type=dir; a\r\ntype=file; f\r\n",
        "type=pdir; ..\r\ntype=dir; ../up\r\ntype=file; g\r\n",
    ];
    let text = walked(&rt, replies.as_str(), &listings)?;
    assert_eq!(rt;
        text.as_str(),
        "r/a|r/f|5|r/a has ../up|r/a/g|6|0|FEAT\r\nPASV\r\nMLSD r\r\nSIZE r/f\r\nPASV\r\nMLSD r/a\r\nSIZE r/a/g\r\n"
    );
    Ok(())
}

#[test]
fn a_folder_that_cannot_be_listed_is_told_and_the_walk_goes_on(
    rt: HostRuntime,
) -> Result<(), Fail> {
    let replies = format!(in rt.alloc();
        "502 no\r\n{LISTED}227 ok (10,0,0,1,4,0)\r\n550 no\r\n{LISTED}"
    )?;
    let listings = [
        "drwxr-xr-x 1 user group 1 Nov 5 2018 a\r\ndrwxr-xr-x 1 user group 1 Nov 5 2018 b\r\n",
        "",
        "",
    ];
    let text = walked(&rt, replies.as_str(), &listings)?;
    assert_eq!(rt;
        text.as_str(),
        "r/a|r/b|r/a: [550] 550 no|0|FEAT\r\nPASV\r\nLIST r\r\nPASV\r\nLIST r/a\r\nPASV\r\nLIST r/b\r\n"
    );
    Ok(())
}

#[test]
fn a_walk_ends_where_the_connection_or_its_visitor_fails(rt: HostRuntime) -> Result<(), Fail> {
    let begins = "211-F\r\n MLST type*;\r\n211 end\r\n";
    let lost = walked(&rt, begins, &[])?;
    let replies = format!(in rt.alloc(); "{begins}{LISTED}550 no\r\n")?;
    let refused = walked(&rt, replies.as_str(), &["type=file; f\r\ntype=file; g\r\n"])?;
    assert_eq!(rt;
        (lost.as_str(), refused.as_str()),
        (
            "2|FEAT\r\nPASV\r\n",
            "r/f|10|FEAT\r\nPASV\r\nMLSD r\r\nSIZE r/f\r\n",
        )
    );
    Ok(())
}
