//! Whole files of a blocking client over memory: what is reported and arrives, and which address was asked for.

use crate::scene::{MemoryClient, add_sent, client_of};
use ftp_base::types::FtpResult;
use ftp_transfer::Progress;
use std::sync::Wait;
use std::test::Fail;

/// A server that accepts a data command.
const AGREED: &str = "227 x (10,0,0,1,4,0).\r\n150 b\r\n226 d\r\n";

/// What was reported last.
#[derive(Drop)]
struct Told(u64);

impl Progress for Told {
    fn went(&mut self, so_far: u64) {
        self.0 = so_far;
    }
}

/// The call that moves a file.
#[derive(Clone, Copy)]
enum Way {
    Put,
    PutWith,
    Append,
    AppendWith,
    Fetch,
}

/// Moves a file by this call: how many bytes it returns.
fn moved<R>(
    rt: &R,
    client: &MemoryClient,
    way: Way,
    fetched: &mut Vec<u8>,
    told: &mut Told,
) -> FtpResult<u64>
where
    R: Wait + AllocGlobal,
{
    let mut source = &b"a\nb"[..];
    match way {
        Way::Put => client.put_file(rt, "f", &mut source),
        Way::PutWith => client.put_file_with(rt, "f", &mut source, told),
        Way::Append => client.append_file(rt, "f", &mut source),
        Way::AppendWith => client.append_file_with(rt, "f", &mut source, told),
        Way::Fetch => client.write_to(rt, "f", fetched, told),
    }
}

/// Adds the addresses to which a client's transport was asked for a connection, and what went out on those connections.
fn add_data<R: Wait>(rt: &R, client: &MemoryClient, text: &mut String) -> Result<(), Fail> {
    let control = client.get_ref(rt);
    for address in control.transport().asked() {
        write!(text, "{address} ")?;
    }
    for conn in control.transport().uploaded() {
        write!(text, "{:?} ", str::from_utf8(conn.sent()).unwrap_or("?"))?;
    }
    Ok(())
}

/// What comes of a file that is moved by this call: how many bytes are returned, and were reported last; which bytes a
/// download wrote; the address of the data connection and what went out on it; and what was sent.
fn came<R: Wait + AllocGlobal>(rt: &R, way: Way) -> Result<String, Fail> {
    let client = client_of(rt.alloc(), AGREED, "hello")?;
    let mut fetched = Vec::new(rt.alloc());
    let mut told = Told(0);
    let count = moved(rt, &client, way, &mut fetched, &mut told)?;
    let mut text = String::new(rt.alloc());
    let written = str::from_utf8(&fetched).unwrap_or("?");
    write!(text, "{count} {} {written:?} ", told.0)?;
    add_data(rt, &client, &mut text)?;
    add_sent(rt, &client, &mut text)?;
    Ok(text)
}

#[test]
fn a_file_is_uploaded_to_the_address_of_the_reply(rt: HostRuntime) -> Result<(), Fail> {
    let (silent, told) = (came(&rt, Way::Put)?, came(&rt, Way::PutWith)?);
    // CR is put before the LF: RFC 959, section 3.1.1.1
    let due = [
        "4 0 \"\" 10.0.0.1:1024 \"a\\r\\nb\" PASV\r\nSTOR f\r\n",
        "4 4 \"\" 10.0.0.1:1024 \"a\\r\\nb\" PASV\r\nSTOR f\r\n",
    ];
    assert_eq!(rt; [silent.as_str(), told.as_str()], due);
    Ok(())
}

#[test]
fn a_file_is_appended_at_the_address_of_the_reply(rt: HostRuntime) -> Result<(), Fail> {
    let (silent, told) = (came(&rt, Way::Append)?, came(&rt, Way::AppendWith)?);
    let due = [
        "4 0 \"\" 10.0.0.1:1024 \"a\\r\\nb\" PASV\r\nAPPE f\r\n",
        "4 4 \"\" 10.0.0.1:1024 \"a\\r\\nb\" PASV\r\nAPPE f\r\n",
    ];
    assert_eq!(rt; [silent.as_str(), told.as_str()], due);
    Ok(())
}

#[test]
fn a_file_is_written_to_a_writer_from_the_address_of_the_reply(
    rt: HostRuntime,
) -> Result<(), Fail> {
    let fetched = came(&rt, Way::Fetch)?;
    let due = "5 5 \"hello\" 10.0.0.1:1024 \"\" PASV\r\nRETR f\r\n";
    assert_eq!(rt; fetched.as_str(), due);
    Ok(())
}
