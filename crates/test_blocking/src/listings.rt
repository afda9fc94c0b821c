//! Listings of a blocking client over memory: as files, and as the lines of a stream.

use crate::scene::{MemoryClient, add_sent, boxed, client_of, number};
use ftp_base::status::Status;
use ftp_base::types::{FtpResult, Response};
use ftp_blocking::TransferStream;
use ftp_list::Listing;
use ftp_transport::MemoryTransport;
use std::sync::Wait;
use std::test::Fail;
use std::time::Clock;

/// The files that a client lists, each with its size, or the number of an error; the number of what NOOP fails with
/// afterwards; and what was sent.
fn listed<R>(rt: &R, replies: &str, data: &str, path: Option<&str>) -> Result<String, Fail>
where
    R: Clock + Wait + AllocGlobal,
{
    let client = client_of(rt.alloc(), replies, data)?;
    let mut text = String::new(rt.alloc());
    match client.list_files(rt, path) {
        Ok(files) => {
            for file in &files {
                write!(text, "{} {}|", file.name(), file.size())?;
            }
        }
        refusal => write!(text, "E{}|", number(refusal))?,
    }
    write!(text, "{}|", number(client.noop(rt)))?;
    add_sent(rt, &client, &mut text)?;
    Ok(text)
}

#[test]
fn files_are_listed_by_their_facts_where_the_server_has_them(rt: HostRuntime) -> Result<(), Fail> {
    // two lines of the listing in RFC 3659, section 7.7
    let replies =
        "211-Extensions:\r\n mlst size*;type*;\r\n211 END\r\n227 ok (10,0,0,1,4,0)\r\n150 b\r\n226 d\r\n200 ok\r\n";
    let data =
        "Type=pdir;Modify=19990112030508;Perm=el; ..\r\nType=file;Size=25730;Modify=19940728095854;Perm=; capmux.tar.z\r\n";
    let files = listed(&rt, replies, data, Some("pub"))?;
    assert_eq!(rt;
        files.as_str(),
        "capmux.tar.z 25730|0|FEAT\r\nPASV\r\nMLSD pub\r\nNOOP\r\n"
    );
    Ok(())
}

#[test]
fn files_are_listed_in_either_form_where_there_are_no_facts(rt: HostRuntime) -> Result<(), Fail> {
    let replies = "502 no\r\n227 ok (10,0,0,1,4,0)\r\n150 b\r\n226 d\r\n200 ok\r\n";
    let data =
        "total 8\r\n-rw-r--r-- 1 user group 1234 Nov 5 2018 example.txt\r\n \r\n04-08-14  03:09PM  8192 omar.txt\r\n";
    let files = listed(&rt, replies, data, Some("pub"))?;
    assert_eq!(rt;
        files.as_str(),
        "example.txt 1234|omar.txt 8192|0|FEAT\r\nPASV\r\nLIST pub\r\nNOOP\r\n"
    );
    Ok(())
}

#[test]
fn a_line_that_cannot_be_read_is_an_error_and_the_session_goes_on(
    rt: HostRuntime,
) -> Result<(), Fail> {
    let replies =
        "211-F\r\n SIZE\r\n211 END\r\n227 ok (10,0,0,1,4,0)\r\n150 b\r\n226 d\r\n200 ok\r\n";
    // no year has that day
    let data = "-rw-r--r-- 1 user group 1 Feb 30 2018 x\r\n";
    let dated = listed(&rt, replies, data, None)?;
    let other = listed(&rt, replies, "total of 8\r\n", None)?;
    // BadResponse
    let due = "E11|0|FEAT\r\nPASV\r\nLIST\r\nNOOP\r\n";
    assert_eq!(rt; (dated.as_str(), other.as_str()), (due, due));
    Ok(())
}

/// What is in the listing of a directory: each file with its size, the names of what lies around and of what only the
/// server's system has, and each line that can't be read; and what was sent.
fn entries<R>(rt: &R, replies: &str, data: &str) -> Result<String, Fail>
where
    R: Clock + Wait + AllocGlobal,
{
    let client = client_of(rt.alloc(), replies, data)?;
    let listing: Box<Listing> = Box::new(rt.alloc(), client.list_entries(rt, Some("pub"))?)?;
    let mut text = String::new(rt.alloc());
    for file in &listing.files {
        write!(text, "{} {}|", file.name(), file.size())?;
    }
    for file in &listing.around {
        write!(text, "@{}|", file.name())?;
    }
    for file in &listing.others {
        write!(text, "{} is {}|", file.name(), file.kind())?;
    }
    for line in &listing.unread {
        write!(text, "?{line}|")?;
    }
    add_sent(rt, &client, &mut text)?;
    Ok(text)
}

#[test]
fn lines_that_cannot_be_read_leave_the_files(rt: HostRuntime) -> Result<(), Fail> {
    let replies = "502 no\r\n227 ok (10,0,0,1,4,0)\r\n150 b\r\n226 d\r\n";
    let data =
        "total 8\r\n-rw-r--r-- 1 user group 1234 Nov 5 2018 a.txt\r\nhello\r\n04-08-14  03:09PM  8192 b.txt\r\ntotal of 8\r\n";
    let text = entries(&rt, replies, data)?;
    assert_eq!(rt;
        text.as_str(),
        "a.txt 1234|b.txt 8192|?hello|?total of 8|FEAT\r\nPASV\r\nLIST pub\r\n"
    );
    Ok(())
}

#[test]
fn a_device_and_the_directory_itself_are_no_files(rt: HostRuntime) -> Result<(), Fail> {
    let replies =
        "211-F\r\n MLST type*;\r\n211 end\r\n227 ok (10,0,0,1,4,0)\r\n150 b\r\n226 d\r\n200 ok\r\n";
    let data =
        "type=cdir; .\r\ntype=OS.unix=slink:/a;size=6; l\r\ntype=OS.unix=blkdev-8/1; sda1\r\n";
    let text = entries(&rt, replies, data)?;
    let files = listed(&rt, replies, data, Some("pub"))?;
    assert_eq!(rt;
        (text.as_str(), files.as_str()),
        (
            "l 6|@.|sda1 is OS.unix=blkdev-8/1|FEAT\r\nPASV\r\nMLSD pub\r\n",
            "l 6|0|FEAT\r\nPASV\r\nMLSD pub\r\nNOOP\r\n",
        )
    );
    Ok(())
}

/// A transfer over memory, in a box, which is dropped by one call.
type Live = Box<TransferStream<MemoryTransport>>;

/// Opens a data connection by a line of one's own.
fn opened<R: Wait + AllocGlobal>(rt: &R, client: &MemoryClient) -> FtpResult<Live> {
    let (_reply, transfer) = client.custom_data_command(rt, "LIST -a", &[Status::AboutToSend])?;
    boxed(rt.alloc(), transfer)
}

/// The lines of a transfer, with a bar after each.
fn lines_of<R: AllocGlobal>(rt: &R, transfer: &mut Live) -> Result<String, Fail> {
    let mut text = String::new(rt.alloc());
    for line in &MemoryClient::get_lines_from_stream(rt, &mut **transfer)? {
        write!(text, "{line}|")?;
    }
    Ok(text)
}

#[test]
fn lines_are_read_from_a_transfer_which_its_client_finishes(rt: HostRuntime) -> Result<(), Fail> {
    let replies = "227 ok (10,0,0,1,4,0)\r\n150 b\r\n226 d\r\n";
    let client = client_of(rt.alloc(), replies, "a\r\n\r\nb\nc")?;
    let mut transfer = opened(&rt, &client)?;
    let mut text = lines_of(&rt, &mut transfer)?;
    let finished = number(client.finish(&rt, Box::into_inner(transfer)));
    add_sent(&rt, &client, &mut text)?;
    drop(client);
    assert_eq!(rt; (finished, text.as_str()), (0, "a|b|c|PASV\r\nLIST -a\r\n"));
    Ok(())
}

/// Adds the text of a reply, or the number of an error.
fn add_reply(text: &mut String, reply: FtpResult<Response>) -> Result<(), Fail> {
    match reply {
        Ok(reply) => write!(text, "{reply}|")?,
        refusal => write!(text, "E{}|", number(refusal))?,
    }
    Ok(())
}

/// What the replies are that a client reads without a command, and what it has sent.
fn replies_of<R: Wait + AllocGlobal>(rt: &R, client: &MemoryClient) -> Result<String, Fail> {
    let mut text = String::new(rt.alloc());
    let expected = [Status::ClosingDataConnection, Status::RequestedFileActionOk];
    add_reply(&mut text, client.read_response(rt, expected[0]))?;
    add_reply(&mut text, client.read_response_in(rt, &expected))?;
    add_reply(&mut text, client.read_response(rt, expected[0]))?;
    add_sent(rt, client, &mut text)?;
    Ok(text)
}

#[test]
fn replies_are_read_that_no_command_of_the_client_asked_for(rt: HostRuntime) -> Result<(), Fail> {
    let client = client_of(rt.alloc(), "226 a\r\n250 b\r\n250 c\r\n", "")?;
    let replies = replies_of(&rt, &client)?;
    drop(client);
    // UnexpectedResponse
    assert_eq!(rt; replies.as_str(), "[226] 226 a|[250] 250 b|E10|");
    Ok(())
}
