//! How a client is made, as often as one is needed.

ghost use Rattle.std.specs.Prelude.{◌≡◌, IfOk, Some, string_bytes};
ghost use Rattle.ftp_shared.specs.Options.{AreNew};

use ftp_base::types::{FileType, Mode};
use std::alloc::{AllocError, Global};
use std::time::Duration;

/// Where a client connects, as whom it logs in, and what is set on it then. A program whose client has failed gets the same
/// one anew by it.
///
/// It keeps the password as it is.
#[derive(Drop)]
pub struct ConnectOptions {
    address: String,
    user: String,
    password: String,
    limit: Option<Duration>,
    mode: Mode,
    file_type: FileType,
    lenient: bool,
    utf8: bool,
}

impl ConnectOptions {
    /// A client at this address, as `ftp.example.org:21`, which logs in as this user, in `Mode::Automatic`. It moves files
    /// as they are (`FileType::Binary`) and reads replies as RFC 959 has them; its waits have no limit; nothing is said of
    /// names.
    ///
    /// # Errors
    /// `AllocError`.
    pub fn new(
        alloc: Global,
        address: &str,
        user: &str,
        password: &str,
    ) -> Result<ConnectOptions, AllocError>
        ensures { IfOk result (λ options. AreNew options address.now user.now password.now) }
    {
        Ok(ConnectOptions {
            address: String::from_str(alloc, address)?,
            user: String::from_str(alloc, user)?,
            password: String::from_str(alloc, password)?,
            limit: None,
            mode: Mode::Automatic,
            file_type: FileType::Binary,
            lenient: false,
            utf8: false,
        })
    }

    /// None of the client's waits for the server is longer than this, as of `connect_to_within`.
    pub fn set_limit(&mut self, limit: Duration)
        ensures { self.new ≡ record self.old { limit = Some limit } }
    {
        self.limit = Some(limit);
    }

    /// Who opens data connections, and how they are asked for (RFC 959, section 3.2; RFC 2428).
    pub fn set_mode(&mut self, mode: Mode)
        ensures { self.new ≡ record self.old { mode = mode } }
    {
        self.mode = mode;
    }

    /// The type of data: `TYPE` (RFC 959, section 4.1.2).
    pub fn set_file_type(&mut self, file_type: FileType)
        ensures { self.new ≡ record self.old { file_type = file_type } }
    {
        self.file_type = file_type;
    }

    /// Whether replies are read leniently, from the greeting on (`ReplyRule::Lenient`).
    pub fn set_lenient_replies(&mut self, lenient: bool)
        ensures { self.new ≡ record self.old { lenient = lenient } }
    {
        self.lenient = lenient;
    }

    /// Whether the server is asked to send names in UTF-8, as by `use_utf8`.
    pub fn set_utf8(&mut self, utf8: bool)
        ensures { self.new ≡ record self.old { utf8 = utf8 } }
    {
        self.utf8 = utf8;
    }

    /// Where the client connects.
    pub fn address(&self) -> &str
        ensures { result.now ≡ string_bytes self.now.address }
    {
        self.address.as_str()
    }

    /// As whom it logs in.
    pub fn user(&self) -> &str
        ensures { result.now ≡ string_bytes self.now.user }
    {
        self.user.as_str()
    }

    /// The password, which is sent where the server asks for one.
    pub fn password(&self) -> &str
        ensures { result.now ≡ string_bytes self.now.password }
    {
        self.password.as_str()
    }

    /// The limit of a wait, if there is one.
    pub fn limit(&self) -> Option<Duration>
        ensures { result ≡ self.now.limit }
    {
        self.limit
    }

    /// Who opens data connections.
    pub fn mode(&self) -> Mode
        ensures { result ≡ self.now.mode }
    {
        self.mode
    }

    /// The type of data.
    pub fn file_type(&self) -> &FileType
        ensures { result.now ≡ self.now.file_type }
    {
        &self.file_type
    }

    /// Whether replies are read leniently.
    pub fn is_lenient(&self) -> bool
        ensures { result ≡ self.now.lenient }
    {
        self.lenient
    }

    /// Whether the server is asked to send names in UTF-8.
    pub fn uses_utf8(&self) -> bool
        ensures { result ≡ self.now.utf8 }
    {
        self.utf8
    }
}
