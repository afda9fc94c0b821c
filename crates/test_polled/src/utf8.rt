//! Names in UTF-8, which a client over tokio's sockets asks for.

use crate::scene::{Scene, greeted};
use ftp_base::types::FtpResult;
use std::alloc::AllocGlobal;
use std::io::Write;
use std::net::{Net, TcpListener, TcpStream};
use std::random::RandomSource;
use std::sync::Wait;
use std::test::Fail;
use std::time::Clock;

/// Whether a server that replies so accepts names in UTF-8; none where the call fails.
fn settled<R>(rt: &R, replies: &[u8]) -> Result<Option<bool>, Fail>
where
    R: Net<Listener = TcpListener, Stream = TcpStream> + Wait + Clock + RandomSource + AllocGlobal,
{
    let mut scene: Box<Scene> = greeted(rt)?;
    scene.server.write_all(replies)?;
    let utf8 = scene.client.use_utf8(rt);
    let accepted: FtpResult<bool> = scene.runtime.local().block_on(rt, utf8)?;
    Ok(accepted.ok())
}

#[test]
fn utf8_is_asked_for_where_the_server_names_it(rt: HostRuntime) -> Result<(), Fail> {
    let named = settled(&rt, b"211-F\r\n UTF8\r\n211 end\r\n200 on\r\n")?;
    let refused = settled(&rt, b"211-F\r\n UTF8\r\n211 end\r\n501 no\r\n")?;
    let other = settled(&rt, b"211-F\r\n SIZE\r\n211 end\r\n")?;
    let none = settled(&rt, b"502 no\r\n")?;
    assert_eq!(rt;
        [named, refused, other, none],
        [Some(true), Some(false), Some(false), Some(false)]
    );
    Ok(())
}
