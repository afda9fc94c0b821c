//! Downloads of what follows an offset, by a blocking client over memory.

use crate::scene::{MemoryClient, add_sent, client_of, number};
use ftp_transfer::Progress;
use std::sync::Wait;
use std::test::Fail;

/// What was reported last.
#[derive(Drop)]
struct Told(u64);

impl Progress for Told {
    fn went(&mut self, so_far: u64) {
        self.0 = so_far;
    }
}

/// A download from an offset, after another offset was set: the number of its error, how many bytes came, the place that
/// was reported, the number of the error of an upload after it, and what was sent.
fn downloaded<R>(rt: &R, replies: &str, offset: u64) -> Result<String, Fail>
where
    R: Wait + AllocGlobal,
{
    let client: Box<MemoryClient> = client_of(rt.alloc(), replies, "lo")?;
    client.resume_transfer(rt, 7)?;
    let mut bytes = Vec::new(rt.alloc());
    let mut told = Told(0);
    let refused = number(client.download_to(rt, "f", &mut bytes, offset, &mut told));
    let after = number(client.put_file(rt, "g", &mut &b"x"[..]));
    let mut text = format!(in rt.alloc(); "{refused} {} {} {after}|", bytes.len(), told.0)?;
    add_sent(rt, &client, &mut text)?;
    Ok(text)
}

#[test]
fn a_download_begins_at_its_offset_and_tells_the_place_in_the_file(
    rt: HostRuntime,
) -> Result<(), Fail> {
    let replies =
        "227 ok (10,0,0,1,4,0)\r\n350 from 3\r\n150 b\r\n226 d\r\n227 ok (10,0,0,1,4,0)\r\n550 no\r\n";
    let text = downloaded(&rt, replies, 3)?;
    // the offset of before isn't sent, and none is left for the upload
    assert_eq!(rt;
        text.as_str(),
        "0 2 5 1|PASV\r\nREST 3\r\nRETR f\r\nPASV\r\n"
    );
    Ok(())
}

#[test]
fn a_download_of_all_sends_no_offset(rt: HostRuntime) -> Result<(), Fail> {
    let replies = "227 ok (10,0,0,1,4,0)\r\n150 b\r\n226 d\r\n425 no\r\n";
    let text = downloaded(&rt, replies, 0)?;
    assert_eq!(rt; text.as_str(), "0 2 2 10|PASV\r\nRETR f\r\nPASV\r\n");
    Ok(())
}

#[test]
fn an_offset_that_is_refused_is_not_left(rt: HostRuntime) -> Result<(), Fail> {
    let replies = "227 ok (10,0,0,1,4,0)\r\n502 no\r\n425 no\r\n";
    let text = downloaded(&rt, replies, 3)?;
    assert_eq!(rt; text.as_str(), "10 0 0 10|PASV\r\nREST 3\r\nPASV\r\n");
    Ok(())
}

#[test]
fn a_download_whose_connection_is_lost_fails(rt: HostRuntime) -> Result<(), Fail> {
    let replies = "227 ok (10,0,0,1,4,0)\r\n350 from 3\r\n";
    let text = downloaded(&rt, replies, 3)?;
    // UnexpectedEof, and then SessionFailed
    assert_eq!(rt; text.as_str(), "2 0 0 14|PASV\r\nREST 3\r\nRETR f\r\n");
    Ok(())
}

#[test]
fn a_name_with_a_line_break_downloads_nothing(rt: HostRuntime) -> Result<(), Fail> {
    let client: Box<MemoryClient> = client_of(rt.alloc(), "227 ok (10,0,0,1,4,0)\r\n", "lo")?;
    let mut bytes = Vec::new(rt.alloc());
    let refused = number(client.download_to(&rt, "f\r\nDELE g", &mut bytes, 0, &mut Told(0)));
    let mut text = format!(in rt.alloc(); "{refused} {}|", bytes.len())?;
    add_sent(&rt, &client, &mut text)?;
    drop(client);
    assert_eq!(rt; text.as_str(), "4 0|PASV\r\n");
    Ok(())
}
