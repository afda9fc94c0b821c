//! The status codes of replies (RFC 959, section 4.2; RFC 2228, RFC 2428, RFC 3659).
//!
//! A client asks of a reply whether its code is one that it expected, so codes are variants with names. A server may
//! send any three digits: a code that is none of these is [`Status::Unknown`], and no error. The number of a variant is
//! its code, so that statuses are ordered by their codes however they are listed here. The texts are those of the Rust
//! crate suppaftp, in its spelling.

ghost use Rattle.std.specs.Prelude.{◌≡◌, Some};
ghost use Rattle.ftp_base.specs.Status.{code_of, description_of, status_of};

use std::error::Error;
use std::fmt;

/// The status of a reply: the meaning of its three-digit code, ordered by code.
///
/// A code that isn't listed here is [`Status::Unknown`], whose code is 0.
#[derive(Clone, Copy, Debug, PartialEq, Eq, PartialOrd, Ord, Hash)]
pub enum Status {
    /// Any code that no other variant has; its own code is 0.
    Unknown = 0,
    /// 110: restart marker reply.
    RestartMarker = 110,
    /// 120: service ready in (n) minutes.
    ReadyMinute = 120,
    /// 125: data connection already open, transfer starting.
    AlreadyOpen = 125,
    /// 150: file status okay, about to open data connection.
    AboutToSend = 150,
    /// 200: command okay.
    CommandOk = 200,
    /// 202: command not implemented.
    CommandNotImplemented = 202,
    /// 211: system status, or system help reply.
    System = 211,
    /// 212: directory status.
    Directory = 212,
    /// 213: file status.
    File = 213,
    /// 214: help message.
    Help = 214,
    /// 215: NAME system type.
    Name = 215,
    /// 220: service ready for new user.
    Ready = 220,
    /// 221: service closing control connection.
    Closing = 221,
    /// 225: data connection open; no transfer in progress.
    DataConnectionOpen = 225,
    /// 226: closing data connection.
    ClosingDataConnection = 226,
    /// 227: entering passive mode.
    PassiveMode = 227,
    /// 228: entering long passive mode.
    LongPassiveMode = 228,
    /// 229: entering extended passive mode.
    ExtendedPassiveMode = 229,
    /// 230: user logged in, proceed. Logged out if appropriate.
    LoggedIn = 230,
    /// 231: user logged out; service terminated.
    LoggedOut = 231,
    /// 232: logout command noted, will complete when transfer done.
    LogoutAck = 232,
    /// 234: specifies that the server accepts the authentication mechanism specified by the client.
    AuthOk = 234,
    /// 250: requested file action okay.
    RequestedFileActionOk = 250,
    /// 257: pathname created.
    PathCreated = 257,
    /// 331: user name okay, need password.
    NeedPassword = 331,
    /// 332: need account for login.
    LoginNeedAccount = 332,
    /// 350: requested file action pending further information.
    RequestFilePending = 350,
    /// 421: service not available, closing control connection.
    NotAvailable = 421,
    /// 425: can't open data connection.
    CannotOpenDataConnection = 425,
    /// 426: connection closed; transfer aborted.
    TransferAborted = 426,
    /// 430: invalid username or password.
    InvalidCredentials = 430,
    /// 434: requested host unavailable.
    HostUnavailable = 434,
    /// 450: requested file action not taken.
    RequestFileActionIgnored = 450,
    /// 451: requested action aborted.
    ActionAborted = 451,
    /// 452: requested action not taken.
    RequestedActionNotTaken = 452,
    /// 500: syntax error, command unrecognized.
    BadCommand = 500,
    /// 501: syntax error in parameters or arguments.
    BadArguments = 501,
    /// 502: comamnd not implemented.
    NotImplemented = 502,
    /// 503: bad sequence of commands.
    BadSequence = 503,
    /// 504: command not implemented for that parameter.
    NotImplementedParameter = 504,
    /// 530: user not logged in.
    NotLoggedIn = 530,
    /// 532: need account for storing files.
    StoringNeedAccount = 532,
    /// 550: requested action not taken; file unavailable.
    FileUnavailable = 550,
    /// 551: requested action aborted; page type unknown.
    PageTypeUnknown = 551,
    /// 552: requested file action aborted; execeeded storage allocation.
    ExceededStorage = 552,
    /// 553: requested action not taken; file name not allowed.
    BadFilename = 553,
}

impl Status {
    /// The three-digit code, or 0 for [`Status::Unknown`].
    pub fn code(&self) -> u32
        ensures value { result ≡ code_of self.now }
        ensures back { status_of result ≡ self.now }
    {
        *self as u32
    }

    /// What the code means, in a few English words.
    pub fn desc(&self) -> &'static str
        ensures { result.now ≡ description_of self.now }
    {
        match self {
            Status::Unknown => "unknown error code",
            Status::RestartMarker => "restart marker reply",
            Status::ReadyMinute => "service ready in (n) minutes",
            Status::AlreadyOpen => "data connection already open, transfer starting",
            Status::AboutToSend => "file status okay, about to open data connection",
            Status::CommandOk => "command okay",
            Status::CommandNotImplemented => "command not implemented",
            Status::System => "system status, or system help reply",
            Status::Directory => "directory status",
            Status::File => "file status",
            Status::Help => "help message",
            Status::Name => "NAME system type",
            Status::Ready => "service ready for new user",
            Status::Closing => "service closing control connection",
            Status::DataConnectionOpen => "data connection open; no transfer in progress",
            Status::ClosingDataConnection => "closing data connection",
            Status::PassiveMode => "entering passive mode",
            Status::LongPassiveMode => "entering long passive mode",
            Status::ExtendedPassiveMode => "entering extended passive mode",
            Status::LoggedIn => "user logged in, proceed. Logged out if appropriate.",
            Status::LoggedOut => "user logged out; service terminated",
            Status::LogoutAck => "logout command noted, will complete when transfer done",
            Status::AuthOk => {
                "specifies that the server accepts the authentication mechanism specified by the client"
            }
            Status::RequestedFileActionOk => "requested file action okay",
            Status::PathCreated => "pathname created",
            Status::NeedPassword => "user name okay, need password",
            Status::LoginNeedAccount => "need account for login",
            Status::RequestFilePending => "requested file action pending further information",
            Status::NotAvailable => "service not available, closing control connection",
            Status::CannotOpenDataConnection => "can't open data connection",
            Status::TransferAborted => "connection closed; transfer aborted",
            Status::InvalidCredentials => "invalid username or password",
            Status::HostUnavailable => "requested host unavailable",
            Status::RequestFileActionIgnored => "requested file action not taken",
            Status::ActionAborted => "requested action aborted",
            Status::RequestedActionNotTaken => "requested action not taken",
            Status::BadCommand => "syntax error, command unrecognized",
            Status::BadArguments => "syntax error in parameters or arguments",
            Status::NotImplemented => "comamnd not implemented",
            Status::BadSequence => "bad sequence of commands",
            Status::NotImplementedParameter => "command not implemented for that parameter",
            Status::NotLoggedIn => "user not logged in",
            Status::StoringNeedAccount => "need account for storing files",
            Status::FileUnavailable => "requested action not taken; file unavailable",
            Status::PageTypeUnknown => "requested action aborted; page type unknown",
            Status::ExceededStorage =>
                "requested file action aborted; execeeded storage allocation",
            Status::BadFilename => "requested action not taken; file name not allowed",
        }
    }
}

impl From<u32> for Status {
    ghost from_gives = { λ code status. status ≡ status_of code };

    /// The status with this code, or [`Status::Unknown`] where no status has it.
    fn from(code: u32) -> Status
        ensures { result ≡ status_of code }
    {
        match code {
            110 => Status::RestartMarker,
            120 => Status::ReadyMinute,
            125 => Status::AlreadyOpen,
            150 => Status::AboutToSend,
            200 => Status::CommandOk,
            202 => Status::CommandNotImplemented,
            211 => Status::System,
            212 => Status::Directory,
            213 => Status::File,
            214 => Status::Help,
            215 => Status::Name,
            220 => Status::Ready,
            221 => Status::Closing,
            225 => Status::DataConnectionOpen,
            226 => Status::ClosingDataConnection,
            227 => Status::PassiveMode,
            228 => Status::LongPassiveMode,
            229 => Status::ExtendedPassiveMode,
            230 => Status::LoggedIn,
            231 => Status::LoggedOut,
            232 => Status::LogoutAck,
            234 => Status::AuthOk,
            250 => Status::RequestedFileActionOk,
            257 => Status::PathCreated,
            331 => Status::NeedPassword,
            332 => Status::LoginNeedAccount,
            350 => Status::RequestFilePending,
            421 => Status::NotAvailable,
            425 => Status::CannotOpenDataConnection,
            426 => Status::TransferAborted,
            430 => Status::InvalidCredentials,
            434 => Status::HostUnavailable,
            450 => Status::RequestFileActionIgnored,
            451 => Status::ActionAborted,
            452 => Status::RequestedActionNotTaken,
            500 => Status::BadCommand,
            501 => Status::BadArguments,
            502 => Status::NotImplemented,
            503 => Status::BadSequence,
            504 => Status::NotImplementedParameter,
            530 => Status::NotLoggedIn,
            532 => Status::StoringNeedAccount,
            550 => Status::FileUnavailable,
            551 => Status::PageTypeUnknown,
            552 => Status::ExceededStorage,
            553 => Status::BadFilename,
            _ => Status::Unknown,
        }
    }
}

impl fmt::Display for Status {
    ghost output = { λ status. Some (description_of status) };

    fn fmt<W: fmt::Write>(&self, f: &mut fmt::Formatter<W>) -> fmt::Result {
        f.write_str(self.desc())
    }
}

impl Error for Status {}
