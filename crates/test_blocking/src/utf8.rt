//! Names in UTF-8, which a blocking client over memory asks for.

use crate::scene::{MemoryClient, add_sent, client_of, number};
use std::sync::Wait;
use std::test::Fail;

/// Whether a server that replies so accepts names in UTF-8, or the number of an error; and what was sent.
fn settled<R: Wait + AllocGlobal>(rt: &R, replies: &str) -> Result<String, Fail> {
    let client: Box<MemoryClient> = client_of(rt.alloc(), replies, "")?;
    let mut text = String::new(rt.alloc());
    match client.use_utf8(rt) {
        Ok(accepted) => write!(text, "{accepted}|")?,
        refusal => write!(text, "E{}|", number(refusal))?,
    }
    add_sent(rt, &client, &mut text)?;
    Ok(text)
}

#[test]
fn utf8_is_asked_for_where_the_server_names_it(rt: HostRuntime) -> Result<(), Fail> {
    let named = settled(&rt, "211-F\r\n SIZE\r\n UTF8\r\n211 end\r\n200 on\r\n")?;
    // FileZilla Server, in which it is on always
    let always = settled(&rt, "211-F\r\n utf8\r\n211 end\r\n202 always enabled\r\n")?;
    let refused = settled(&rt, "211-F\r\n UTF8\r\n211 end\r\n501 no\r\n")?;
    let due = "FEAT\r\nOPTS UTF8 ON\r\n";
    assert_eq!(rt;
        (
            named.strip_suffix(due),
            always.strip_suffix(due),
            refused.strip_suffix(due)
        ),
        (Some("true|"), Some("true|"), Some("false|"))
    );
    Ok(())
}

#[test]
fn utf8_is_not_asked_for_where_the_server_does_not_name_it(rt: HostRuntime) -> Result<(), Fail> {
    let other = settled(&rt, "211-F\r\n SIZE\r\n211 end\r\n")?;
    let none = settled(&rt, "502 no\r\n")?;
    let lost = settled(&rt, "211-F\r\n UTF8\r\n211 end\r\n")?;
    // UnexpectedEof
    assert_eq!(rt;
        (other.as_str(), none.as_str(), lost.as_str()),
        (
            "false|FEAT\r\n",
            "false|FEAT\r\n",
            "E2|FEAT\r\nOPTS UTF8 ON\r\n"
        )
    );
    Ok(())
}
