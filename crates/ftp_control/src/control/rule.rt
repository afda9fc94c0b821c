//! Which lines open and end a reply.
//!
//! RFC 959, section 4.2, asks that the last line of a reply has the code of its first. There are servers that send
//! another code, and servers that begin a reply with `+` and two digits. The rule is a value of the channel, so that
//! how strict a client is can be a choice.

/// The rule that distinguishes a reply's first and last line from others.
#[derive(Clone, Copy, Debug, PartialEq, Eq)]
pub enum ReplyRule {
    /// The RFC's: three digits and a space or `-` open a reply, and the first line's three digits and a space end it,
    /// whatever is asked of it.
    Strict,
    /// Any three digits and a space end a reply, whatever code it opened with; `+` and two digits open one,
    /// too. Where a status of 211 is expected, or the answer to FEAT, its first line ends a reply.
    Lenient,
}
