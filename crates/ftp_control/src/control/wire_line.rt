//! The one form in which anything reaches the wire: a line that is one command.
//!
//! A file name may hold a line break, or become one under an encoding. The text is tested before it is encoded and the
//! bytes are tested afterwards, so neither can begin a second command; a line that fails either test can't be made. The
//! bytes are private, and nothing else can be sent.

ghost use Rattle.std.specs.Prelude.{◌≡◌, Ok, IfOk, IfErr, true};
ghost use Rattle.ftp_base.specs.Command.{text_of};
ghost use Rattle.ftp_base.specs.Wire.{wire};
ghost use Rattle.ftp_control.specs.Refusal.{IsRefusalOf};
ghost use Rattle.ftp_control.specs.Sending.{is_wire_line};

use ftp_base::command::{
    Command, escape_telnet_iac, validate_command_line, validate_encoded_command_line,
};
use ftp_base::encoding::{EncodeError, Encoding};
use ftp_base::types::{Bytes, ConnectionError, FtpError, FtpResult};
use std::alloc::Global;
use std::marker::Model;

/// The bytes of one command as they go out: CR and LF stand only at their end, each byte 255 is doubled.
///
/// No other bytes can be sent on a control channel, so no text becomes a second command.
pub struct WireLine {
    bytes: Bytes,
}

impl Drop for WireLine {
    fn drop(self) {
        let Self { bytes } = self;
        drop(bytes);
    }
}

impl Model for WireLine {
    ghost use Rattle.std.specs.Prelude.{◌≡◌, ℕ, List, true};
    ghost use Rattle.ftp_control.specs.Sending.{is_wire_line};

    ghost Value = { List ℕ };

    ghost view = { λ line. line.bytes };

    ghost invariant = { λ line. is_wire_line line.bytes ≡ true };
}

impl WireLine {
    /// The line of a command under an encoding (RFC 959, section 4.1.3; RFC 854 for byte 255).
    ///
    /// # Errors
    /// `LineBreak` where CR or LF stands in the command's text before its end, else the encoding's own error,
    /// else `EncodedWithoutCrlf` or `EncodedLineBreak` where the encoded bytes are no line; `OutOfMemory` where
    /// an allocation fails.
    pub fn of<E: Encoding>(alloc: Global, command: &Command, encoding: &E) -> FtpResult<WireLine>
        ensures line { IfOk result (λ line. wire (E.encoded encoding.now) (text_of command.now) ≡
            Ok line) }
        ensures refused { IfErr result (IsRefusalOf
            (wire (E.encoded encoding.now) (text_of command.now))) }
    {
        let text = format!(in alloc; "{command}")?;
        validate_command_line(text.as_str())?;
        let encoded = match encoding.encode(alloc, text.as_str()) {
            Ok(encoded) => encoded,
            Err(EncodeError::Refused(kind)) => return Err(ConnectionError::Encoding(kind).into()),
            Err(EncodeError::OutOfMemory) => return Err(FtpError::OutOfMemory),
        };
        validate_encoded_command_line(encoded.as_slice())?;
        let line = escape_telnet_iac(alloc, encoded.as_slice())?;
        Ok(WireLine {
            bytes: Bytes::from_vec(line),
        })
    }

    /// The bytes of the line.
    pub fn as_slice(&self) -> &[u8]
        ensures bytes { result.now ≡ self.now }
        ensures one_line { is_wire_line self.now ≡ true }
    {
        self.bytes.as_slice()
    }

    /// The line as a vector, in its memory.
    pub(crate) fn into_vec(self) -> Vec<u8>
        ensures bytes { result.items ≡ self }
        ensures one_line { is_wire_line self ≡ true }
    {
        let WireLine { bytes } = self;
        bytes.into_vec()
    }
}
