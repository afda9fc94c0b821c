//! Futures of the polled client that are polled again after they have returned their results.

use crate::secure::scene::{net, number, server, session};
use ftp_base::encoding::Utf8Encoding;
use ftp_base::types::{FtpError, FtpResult};
use ftp_polled::{Connect, ImplAsyncFtpStream, Secure};
use ftp_session::session::NoStreamBuilder;
use futures::Future;
use futures::executor::block_on;
use rows_tls::{Net, Seal};
use std::alloc::Global;
use std::random::RandomSource;
use std::sync::Wait;
use std::test::Fail;

/// A polled client that may be put under the TLS of the tests.
type Client = ImplAsyncFtpStream<Net, Seal>;

/// The number of the error with which a future ends.
fn ends<R, F, T>(rt: &R, state: &mut F) -> u8
where
    R: Wait + RandomSource + AllocGlobal,
    F: Future<Output = FtpResult<T>>,
    T: Drop,
    requires { (state : F) → F.can_poll state }
{
    match block_on(rt, state) {
        Ok(outcome) => number(outcome),
        Err(_) => 0,
    }
}

/// A client that connects.
type Connecting<'r, R> = Connect<'r, R, Net, Seal, Utf8Encoding, NoStreamBuilder>;

/// The numbers of the errors with which a connect ends that is polled to its end twice.
fn twice<R>(rt: &R, mut connect: Box<Connecting<'_, R>>) -> (u8, u8)
where
    R: Wait + RandomSource + AllocGlobal,
{
    let first = ends(rt, &mut *connect);
    (first, ends(rt, &mut *connect))
}

/// A client that connects under TLS to a server of which the connector refuses the connection, and could connect again.
fn connecting<'r, R: AllocGlobal>(rt: &'r R) -> FtpResult<Box<Connecting<'r, R>>> {
    let alloc = rt.alloc();
    let seal = Seal::new(alloc, "220 hi\r\n")?;
    let net = Box::into_inner(net(alloc, 2, "plain")?);
    let seal = Box::into_inner(seal);
    let connect = Client::connect_secure_implicit(rt, net, &[server()], seal, "localhost");
    Ok(Box::new(alloc, connect)?)
}

#[test]
fn a_connect_that_was_refused_is_over(rt: HostRuntime) -> Result<(), Fail> {
    let came = twice(&rt, connecting(&rt)?);
    assert_eq!(rt; came, (9, 19));
    Ok(())
}

/// A client that connects in clear, and has no address.
fn nowhere<'r, R: AllocGlobal>(rt: &'r R) -> FtpResult<Box<Connecting<'r, R>>> {
    let net = Box::into_inner(net(rt.alloc(), 0, "")?);
    Ok(Box::new(rt.alloc(), Client::connect(rt, net, &[]))?)
}

#[test]
fn a_connect_without_an_address_is_over(rt: HostRuntime) -> Result<(), Fail> {
    let came = twice(&rt, nowhere(&rt)?);
    assert_eq!(rt; came, (16, 19));
    Ok(())
}

/// A client that is put under TLS, of which the connector refuses the connection.
fn securing<'r, R: AllocGlobal>(
    rt: &'r R,
) -> FtpResult<Box<Secure<'r, R, Net, Seal, Utf8Encoding, NoStreamBuilder>>> {
    let alloc = rt.alloc();
    let seal = Seal::new(alloc, "")?;
    let client = Client::new(alloc, Box::into_inner(session(alloc, 0)?))?;
    let change = client.into_secure(rt, Box::into_inner(seal), "localhost");
    Ok(Box::new(alloc, change)?)
}

#[test]
fn a_change_that_was_refused_is_over(rt: HostRuntime) -> Result<(), Fail> {
    let mut change = securing(&rt)?;
    let first = ends(&rt, &mut *change);
    let second = ends(&rt, &mut *change);
    drop(change);
    assert_eq!(rt; (first, second), (9, 19));
    Ok(())
}
