//! The text that a server greets with.
//!
//! The greeting comes before a caller can know which encoding the server uses. So its bytes are kept, and when another
//! encoding is set its text is made anew. Where an allocation fails then, the text that there was stays.

ghost use Rattle.std.specs.Prelude.{◌≡◌, IfOk, IfErr, OnOk, OnErr};
ghost use Rattle.ftp_base.specs.Welcome.{welcome_text};

use super::Encoding;
use crate::command::unescape_telnet_iac;
use crate::types::{Bytes, FtpError, FtpResult, Text};
use std::alloc::Global;
use std::marker::Model;

/// The greeting of a server and its text, which follows the session's encoding.
#[derive(Clone, Debug)]
pub struct WelcomeMessage {
    greeting: Bytes,
    text: Text,
}

impl Drop for WelcomeMessage {
    fn drop(self) {
        let Self { greeting, text } = self;
        drop(greeting);
        drop(text);
    }
}

impl Model for WelcomeMessage {
    ghost use Rattle.ftp_base.specs.Welcome.{Welcome};

    ghost Value = { Welcome };

    ghost view = { λ message. record { greeting = message.greeting; text = message.text } };
}

impl WelcomeMessage {
    /// The message of a greeting: its bytes with pairs of byte 255 made one, decoded, white space cut at the
    /// end.
    ///
    /// # Errors
    /// `OutOfMemory` where an allocation fails.
    pub fn new<E: Encoding>(
        alloc: Global,
        greeting: Bytes,
        encoding: &E,
    ) -> FtpResult<WelcomeMessage>
        ensures greeting { IfOk result (λ message. message.greeting ≡ greeting) }
        ensures text { IfOk result (λ message. message.text ≡
            welcome_text (E.decoded encoding.now) greeting) }
        ensures memory { IfErr result (λ fault. fault ≡ FtpError.OutOfMemory) }
    {
        let text = read_welcome(alloc, greeting.as_slice(), encoding)?;
        Ok(WelcomeMessage { greeting, text })
    }

    /// Reads the greeting again, under another encoding.
    ///
    /// # Errors
    /// `OutOfMemory` where an allocation fails; then nothing has changed.
    pub fn decode_again<E: Encoding>(&mut self, alloc: Global, encoding: &E) -> FtpResult<()>
        ensures greeting { self.new.greeting ≡ self.old.greeting }
        ensures text { OnOk result (self.new.text ≡
            welcome_text (E.decoded encoding.now) self.old.greeting) }
        ensures err { OnErr result (self.new.text ≡ self.old.text) }
        ensures memory { IfErr result (λ fault. fault ≡ FtpError.OutOfMemory) }
    {
        let text = read_welcome(alloc, self.greeting.as_slice(), encoding)?;
        self.text = text;
        Ok(())
    }

    /// The text of the greeting.
    pub fn text(&self) -> &str
        ensures { result.now ≡ self.now.text }
    {
        self.text.as_str()
    }
}

/// The text of a greeting's bytes.
fn read_welcome<E: Encoding>(alloc: Global, greeting: &[u8], encoding: &E) -> FtpResult<Text>
    ensures text { IfOk result (λ text. text ≡ welcome_text (E.decoded encoding.now) greeting.now) }
    ensures memory { IfErr result (λ fault. fault ≡ FtpError.OutOfMemory) }
{
    let plain = unescape_telnet_iac(alloc, greeting)?;
    let decoded = encoding.decode(alloc, plain.as_slice())?;
    Ok(Text::from_str(alloc, decoded.as_str().trim_end())?)
}
