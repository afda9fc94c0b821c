//! Replies and greetings.

use crate::seen::assert_same;
use ftp_base::encoding::{Utf8Encoding, WelcomeMessage};
use ftp_base::status::Status;
use ftp_base::types::{Bytes, Response};
use std::test::Fail;

#[test]
fn the_text_of_a_reply_is_cut_at_its_end(rt: HostRuntime) -> Result<(), Fail> {
    let body = Vec::from_slice(rt.alloc(), b"200 ok \r\n")?;
    let reply = Response::new(Status::CommandOk, body);
    assert_same(&rt, reply.as_string(rt.alloc())?.as_str(), "200 ok");
    Ok(())
}

#[test]
fn the_body_of_a_reply_is_read_as_a_slice(rt: HostRuntime) -> Result<(), Fail> {
    let reply = Response::new(
        Status::CommandOk,
        Vec::from_slice(rt.alloc(), b"200 ok\r\n")?,
    );
    let copy = reply.clone()?;
    let read = (copy.body.len(), copy.body.get(3).copied());
    let same = copy.body == reply.body && copy.status() == Status::CommandOk;
    assert_same(&rt, (read, same), ((8, Some(b' ')), true));
    Ok(())
}

#[test]
fn a_welcome_is_copied_with_its_text(rt: HostRuntime) -> Result<(), Fail> {
    let greeting = Bytes::from_slice(rt.alloc(), b"220 ready\r\n")?;
    let welcome = WelcomeMessage::new(rt.alloc(), greeting, &Utf8Encoding)?;
    let mut copy = welcome.clone()?;
    let before = copy.text() == "220 ready";
    copy.decode_again(rt.alloc(), &Utf8Encoding)?;
    assert_same(&rt, (before, copy.text()), (true, "220 ready"));
    Ok(())
}
