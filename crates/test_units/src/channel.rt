//! The control channel by itself: a line that is sent, and reads of replies and of single lines, blocking and polled.

use crate::scene::{boxed, number};
use ftp_base::command::Command;
use ftp_base::encoding::Utf8Encoding;
use ftp_base::status::Status;
use ftp_base::types::FtpResult;
use ftp_control::control::{ControlChannel, ReplyRule, WireLine};
use ftp_transport::MemoryConn;
use futures::task::Poll;
use std::alloc::Global;
use std::net::SocketAddr;
use std::test::Fail;

/// The length of a reply of status 200; 1000 where the read waits, 2000 and the number of an error.
fn reply(alloc: Global, channel: &mut ControlChannel<MemoryConn>, polled: bool) -> usize {
    let answer = if polled {
        channel.poll_read_response(alloc, Status::CommandOk, &mut ())
    } else {
        Poll::Ready(channel.read_response(alloc, Status::CommandOk))
    };
    match answer {
        Poll::Ready(Ok(reply)) => reply.body.as_slice().len(),
        Poll::Ready(refusal) => 2000 + usize::from(number(refusal)),
        Poll::Pending => 1000,
    }
}

/// The same of a line.
fn line(alloc: Global, channel: &mut ControlChannel<MemoryConn>, polled: bool) -> usize {
    let answer = if polled {
        channel.poll_read_line(alloc, &mut ())
    } else {
        Poll::Ready(channel.read_line(alloc))
    };
    match answer {
        Poll::Ready(Ok(line)) => line.as_slice().len(),
        Poll::Ready(refusal) => 2000 + usize::from(number(refusal)),
        Poll::Pending => 1000,
    }
}

/// Reads of two replies, the first of which comes in two pieces, and of the end of the input.
fn replies(alloc: Global, channel: &mut ControlChannel<MemoryConn>) -> FtpResult<[usize; 5]> {
    channel.feed(b"20")?;
    let waits = reply(alloc, channel, true);
    channel.feed(b"0 ok\r\n200 a\r\n")?;
    let (first, ahead) = (reply(alloc, channel, true), channel.untaken());
    let (second, end) = (reply(alloc, channel, false), reply(alloc, channel, false));
    Ok([waits, first, ahead, second, end])
}

/// Reads of three lines, the second of which comes in two pieces, and of the end of the input, twice.
fn lines(alloc: Global, channel: &mut ControlChannel<MemoryConn>) -> FtpResult<[usize; 6]> {
    channel.feed(b"one\r\ntw")?;
    let (first, waits) = (line(alloc, channel, true), line(alloc, channel, true));
    channel.feed(b"o\nthree")?;
    let (second, third) = (line(alloc, channel, true), line(alloc, channel, false));
    let (end, failed) = (line(alloc, channel, false), line(alloc, channel, true));
    Ok([first, waits, second, third, end, failed])
}

/// A channel over memory.
fn channel_on(alloc: Global, conn: MemoryConn) -> FtpResult<Box<ControlChannel<MemoryConn>>> {
    boxed(alloc, ControlChannel::new(alloc, conn, ReplyRule::Strict)?)
}

#[test]
fn replies_and_lines_come_in_pieces(rt: HostRuntime) -> Result<(), Fail> {
    let alloc = rt.alloc();
    let mut channel = channel_on(alloc, MemoryConn::new(alloc))?;
    let replies = replies(alloc, &mut channel);
    drop(channel);
    let mut channel = channel_on(alloc, MemoryConn::new(alloc))?;
    let lines = lines(alloc, &mut channel);
    drop(channel);
    // `UnexpectedEof` is 2, `SessionFailed` 14
    let due = ([1000, 8, 7, 7, 2002], [5, 1000, 4, 5, 2002, 2014]);
    assert_eq!(rt; (replies?, lines?), due);
    Ok(())
}

/// Sends NOOP blocking and QUIT polled, with room for two bytes of that; whether each went out.
fn sends(alloc: Global, channel: &mut ControlChannel<MemoryConn>) -> FtpResult<(bool, bool)> {
    channel.perform(alloc, &Command::Noop, &Utf8Encoding)?;
    channel.allow(2);
    let mut line = Some(WireLine::of(alloc, &Command::Quit, &Utf8Encoding)?);
    let polled = channel.poll_perform(&mut line, &mut ());
    let waits = polled.is_pending();
    drop(polled);
    Ok((waits, line.is_some()))
}

#[test]
fn a_line_waits_for_room_between_the_ends_of_its_connection(rt: HostRuntime) -> Result<(), Fail> {
    let local = SocketAddr::from(([192, 0, 2, 1], 50_000));
    let peer = SocketAddr::from(([192, 0, 2, 7], 21));
    let conn = MemoryConn::between(rt.alloc(), local, peer);
    let mut channel = channel_on(rt.alloc(), conn)?;
    let line = sends(rt.alloc(), &mut channel)?;
    let sent = channel.get_ref().sent() == b"NOOP\r\nQU".as_slice();
    let ends = (channel.local_addr(), channel.peer_addr());
    drop(channel);
    assert_eq!(rt;
        (line, sent, ends),
        ((true, false), true, (Ok(local), Ok(peer)))
    );
    Ok(())
}
