//! Clients that connect to an address that is a text.

use crate::scene::number;
use crate::server::serving;
use ftp_base::types::{ConnectionError, FtpError};
use ftp_blocking::FtpStream;
use std::io::ErrorKind;
use std::test::Fail;
use std::time::Duration;

#[test]
fn a_client_connects_to_an_address_that_is_a_text(rt: HostRuntime) -> Result<(), Fail> {
    let (serving, address) = serving(rt, "send 220 ready")?;
    let address = format!(in rt.alloc(); "{address}")?;
    let connected = number(FtpStream::connect_to(&rt, address.as_str()));
    let served = serving.join(&rt).is_ok();
    assert_eq!(rt; (connected, served), (0, true));
    Ok(())
}

#[test]
fn a_client_connects_to_such_an_address_within_a_time(rt: HostRuntime) -> Result<(), Fail> {
    let (serving, address) = serving(rt, "send 220 ready")?;
    let address = format!(in rt.alloc(); "{address}")?;
    let limit = Duration::from_secs(5);
    let connected = number(FtpStream::connect_to_within(&rt, address.as_str(), limit));
    let served = serving.join(&rt).is_ok();
    assert_eq!(rt; (connected, served), (0, true));
    Ok(())
}

#[test]
fn a_text_without_a_port_is_no_address(rt: HostRuntime) {
    let answer = FtpStream::connect_to(&rt, "127.0.0.1");
    let kind = match &answer {
        Err(FtpError::ConnectionError(ConnectionError::Io(kind))) => Some(*kind),
        _ => None,
    };
    drop(answer);
    assert_eq!(rt; kind, Some(ErrorKind::InvalidInput));
}
