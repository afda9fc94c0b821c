//! Clients that are made by their options.

use crate::scene::{boxed, number};
use crate::server::serving;
use ftp_base::types::{FileType, FormatControl, FtpResult, Mode};
use ftp_blocking::FtpStream;
use ftp_shared::ConnectOptions;
use std::net::{Net, SocketAddr, TcpListener, TcpStream};
use std::sync::Wait;
use std::test::Fail;
use std::time::{Clock, Duration};

/// The client of these options, in a box.
fn made<R>(rt: &R, options: &ConnectOptions) -> FtpResult<Box<FtpStream>>
where
    R: Net<Listener = TcpListener, Stream = TcpStream> + Clock + Wait + AllocGlobal,
{
    boxed(rt.alloc(), FtpStream::connect_with(rt, options)?)
}

/// Options of a client at this address.
fn options_at<R: AllocGlobal>(rt: &R, address: SocketAddr) -> Result<Box<ConnectOptions>, Fail> {
    let address = format!(in rt.alloc(); "{address}")?;
    let options = ConnectOptions::new(rt.alloc(), address.as_str(), "ada", "secret")?;
    Ok(Box::new(rt.alloc(), options)?)
}

#[test]
fn a_client_is_made_by_its_options_and_works(rt: HostRuntime) -> Result<(), Fail> {
    let steps =
        "send 220 r;line;send 331 p;line;send 230 in;line;send 200 t;line;begin 211-F\r\n UTF8\r\n211 end\r\n;line;send 200 on;line;send 229-m\r\n229 ok (|||1|);line";
    let (serving, address) = serving(rt, steps)?;
    let mut options = options_at(&rt, address)?;
    options.set_limit(Duration::from_secs(5));
    options.set_mode(Mode::ExtendedPassive);
    options.set_file_type(FileType::Ascii(FormatControl::Default));
    options.set_lenient_replies(true);
    options.set_utf8(true);
    let client = made(&rt, &options)?;
    let refused = number(client.retr_as_buffer(&rt, "f"));
    drop(client);
    let noted = serving.join(&rt)?;
    // nobody listens at port 1
    assert_eq!(rt;
        (noted.as_str(), refused),
        ("USER ada|PASS secret|TYPE A N|FEAT|OPTS UTF8 ON|EPSV||", 1)
    );
    Ok(())
}

#[test]
fn a_client_is_made_anew_until_it_is_logged_in(rt: HostRuntime) -> Result<(), Fail> {
    let (serving, address) = serving(rt, "send 220 r;line;send 331 p;line;send 530 no")?;
    let options = options_at(&rt, address)?;
    let refused = number(made(&rt, &options));
    let noted = serving.join(&rt)?;
    let lost = number(made(&rt, &options));
    assert_eq!(rt;
        (noted.as_str(), refused, lost),
        ("USER ada|PASS secret|", 10, 1)
    );
    Ok(())
}
