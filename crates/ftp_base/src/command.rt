//! The commands that a client sends (RFC 959, section 4.1), and the rules for the line of one.
//!
//! A command is a value, and displayed it is its line. A text that a caller hands in may hold anything, a line break
//! too, which a server would take for the end of the command and what follows for another. So the line is tested before
//! it is encoded and again afterwards, and byte 255, with which a Telnet command begins, is doubled. What is read in
//! the replies to commands stands here as well: numbers in [`scan`], features in [`feat`].

ghost use Rattle.std.specs.Prelude.{Some};
ghost use Rattle.ftp_base.specs.Command.{address_text, after_space, level_text, text_of};

mod digits;
pub mod feat;
mod line;
pub mod scan;
mod telnet;

use crate::types::{FileType, Text};
pub use digits::number;
pub use line::{validate_command_line, validate_encoded_command_line};
use std::fmt;
use std::net::SocketAddr;
pub use telnet::{escape_telnet_iac, unescape_telnet_iac};

/// A command. Displayed, it is the line that is sent, with CR LF at its end.
#[derive(Clone, Debug, PartialEq, Eq, Drop)]
pub enum Command {
    /// `ABOR`: stops the transfer.
    Abor,
    /// `APPE`: stores at the end of this file.
    Appe(Text),
    /// `AUTH TLS`: asks for a secure control connection.
    Auth,
    /// `CDUP`: changes to the directory above.
    Cdup,
    /// `CCC`: asks for a plain control connection again.
    ClearCommandChannel,
    /// `CWD`: changes to this directory.
    Cwd(Text),
    /// `DELE`: deletes this file.
    Dele(Text),
    /// `EPRT`: the address that the server is to open the data connection to.
    Eprt(SocketAddr),
    /// `EPSV`: asks for the port to open the data connection to.
    Epsv,
    /// `FEAT`: asks for the server's features.
    Feat,
    /// `LIST`: lists this file or directory, or the present directory.
    List(Option<Text>),
    /// `MDTM`: asks when this file was changed.
    Mdtm(Text),
    /// `MFMT`: when a file was changed, as fourteen digits of UTC, is set; the time, and then the file.
    Mfmt(Text, Text),
    /// `MKD`: makes this directory.
    Mkd(Text),
    /// `MLSD`: lists this directory, or the present one, for machines.
    Mlsd(Option<Text>),
    /// `MLST`: facts of this file, or of the present directory, for machines.
    Mlst(Option<Text>),
    /// `NLST`: lists the names in this directory, or in the present one.
    Nlst(Option<Text>),
    /// `NOOP`: does nothing.
    Noop,
    /// `OPTS`: sets an option of this name, to this value if there is one.
    Opts(Text, Option<Text>),
    /// `PASS`: the user's password.
    Pass(Text),
    /// `PASV`: asks for the address to open the data connection to.
    Pasv,
    /// `PBSZ`: the greatest size of a protected buffer, in bytes.
    Pbsz(usize),
    /// `PORT`: the address that the server is to open the data connection to, as six numbers.
    Port(Text),
    /// `PROT`: the protection of data connections.
    Prot(ProtectionLevel),
    /// `PWD`: asks for the present directory.
    Pwd,
    /// `QUIT`: ends the session.
    Quit,
    /// `RNFR`: the file or directory to be renamed.
    RenameFrom(Text),
    /// `RNTO`: its new name.
    RenameTo(Text),
    /// `REST`: where the next transfer begins, in bytes.
    Rest(usize),
    /// `RETR`: fetches this file.
    Retr(Text),
    /// `RMD`: removes this directory.
    Rmd(Text),
    /// `SITE`: a command of the server's own.
    Site(Text),
    /// `SIZE`: asks for the size of this file.
    Size(Text),
    /// `STOR`: stores as this file.
    Store(Text),
    /// `TYPE`: the type of data.
    TransferType(FileType),
    /// `USER`: the user's name.
    User(Text),
    /// A line of the caller's, without its CR LF.
    Custom(Text),
}

/// How data connections are protected (RFC 2228, section 3).
#[derive(Clone, Debug, PartialEq, Eq, Drop)]
pub enum ProtectionLevel {
    /// Not at all.
    Clear,
    /// Kept secret and whole.
    Private,
}

impl fmt::Display for Command {
    ghost output = { λ command. Some (text_of command) };

    #[tactic(auto, unfolding(crate::specs::Command::text_of, crate::specs::Command::words_of))]
    fn fmt<W: fmt::Write>(&self, f: &mut fmt::Formatter<W>) -> fmt::Result {
        match self {
            Command::Abor => f.write_str("ABOR\r\n"),
            Command::Appe(file) => write!(f, "APPE {file}\r\n"),
            Command::Auth => f.write_str("AUTH TLS\r\n"),
            Command::Cdup => f.write_str("CDUP\r\n"),
            Command::ClearCommandChannel => f.write_str("CCC\r\n"),
            Command::Cwd(directory) => write!(f, "CWD {directory}\r\n"),
            Command::Dele(file) => write!(f, "DELE {file}\r\n"),
            Command::Eprt(address) => write!(f, "EPRT {}\r\n", BetweenBars(*address)),
            Command::Epsv => f.write_str("EPSV\r\n"),
            Command::Feat => f.write_str("FEAT\r\n"),
            Command::List(path) => write!(f, "LIST{}\r\n", AfterSpace(path)),
            Command::Mdtm(path) => write!(f, "MDTM {path}\r\n"),
            Command::Mfmt(time, path) => write!(f, "MFMT {time} {path}\r\n"),
            Command::Mkd(path) => write!(f, "MKD {path}\r\n"),
            Command::Mlsd(path) => write!(f, "MLSD{}\r\n", AfterSpace(path)),
            Command::Mlst(path) => write!(f, "MLST{}\r\n", AfterSpace(path)),
            Command::Nlst(path) => write!(f, "NLST{}\r\n", AfterSpace(path)),
            Command::Noop => f.write_str("NOOP\r\n"),
            Command::Opts(name, value) => write!(f, "OPTS {name}{}\r\n", AfterSpace(value)),
            Command::Pass(password) => write!(f, "PASS {password}\r\n"),
            Command::Pasv => f.write_str("PASV\r\n"),
            Command::Pbsz(size) => write!(f, "PBSZ {size}\r\n"),
            Command::Port(host) => write!(f, "PORT {host}\r\n"),
            Command::Prot(level) => write!(f, "PROT {level}\r\n"),
            Command::Pwd => f.write_str("PWD\r\n"),
            Command::Quit => f.write_str("QUIT\r\n"),
            Command::RenameFrom(path) => write!(f, "RNFR {path}\r\n"),
            Command::RenameTo(path) => write!(f, "RNTO {path}\r\n"),
            Command::Rest(offset) => write!(f, "REST {offset}\r\n"),
            Command::Retr(path) => write!(f, "RETR {path}\r\n"),
            Command::Rmd(path) => write!(f, "RMD {path}\r\n"),
            Command::Site(words) => write!(f, "SITE {words}\r\n"),
            Command::Size(path) => write!(f, "SIZE {path}\r\n"),
            Command::Store(path) => write!(f, "STOR {path}\r\n"),
            Command::TransferType(file_type) => write!(f, "TYPE {file_type}\r\n"),
            Command::User(name) => write!(f, "USER {name}\r\n"),
            Command::Custom(line) => write!(f, "{line}\r\n"),
        }
    }
}

impl fmt::Display for ProtectionLevel {
    ghost output = { λ level. Some (level_text level) };

    fn fmt<W: fmt::Write>(&self, f: &mut fmt::Formatter<W>) -> fmt::Result {
        f.write_str(match self {
            ProtectionLevel::Clear => "C",
            ProtectionLevel::Private => "P",
        })
    }
}

/// An argument that may be left out, with the space before it.
#[derive(Clone, Copy)]
struct AfterSpace<'a>(&'a Option<Text>);

impl fmt::Display for AfterSpace<'_> {
    ghost output = { λ argument. Some (after_space argument.0.now) };

    fn fmt<W: fmt::Write>(&self, f: &mut fmt::Formatter<W>) -> fmt::Result {
        match self.0 {
            Some(text) => write!(f, " {text}"),
            None => Ok(()),
        }
    }
}

/// The address of EPRT (RFC 2428, section 2).
#[derive(Clone, Copy)]
struct BetweenBars(SocketAddr);

impl fmt::Display for BetweenBars {
    ghost output = { λ between. Some (address_text between.0) };

    fn fmt<W: fmt::Write>(&self, f: &mut fmt::Formatter<W>) -> fmt::Result {
        let ip = self.0.ip();
        let port = self.0.port();
        let family = if ip.is_ipv4() { "1" } else { "2" };
        write!(f, "|{family}|{ip}|{port}|")
    }
}
