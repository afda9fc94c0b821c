//! The types of a file's data (RFC 959, section 3.1.1).
//!
//! `TYPE` names one, and the server reads and writes files by it. A client depends on it for one thing: whether an upload
//! is ASCII text, whose lines end in CR LF on the wire. `Image` and `Binary` are sent alike, and both names are in use.

ghost use Rattle.std.specs.Prelude.{Some};
ghost use Rattle.ftp_base.specs.FileType.{format_text, type_text};

use std::fmt;

/// How a file of text is laid out for a printer (RFC 959, section 3.1.1.5).
#[derive(Clone, Debug, PartialEq, Eq, PartialOrd, Ord, Drop)]
pub enum FormatControl {
    /// As the server takes it to be: not for printing.
    Default,
    /// Not for printing.
    NonPrint,
    /// With Telnet's controls of format.
    Telnet,
    /// With the ASA's controls of format.
    Asa,
}

/// The type of a file's data.
#[derive(Clone, Debug, PartialEq, Eq, PartialOrd, Ord, Drop)]
pub enum FileType {
    /// Text in ASCII.
    Ascii(FormatControl),
    /// Text in EBCDIC.
    Ebcdic(FormatControl),
    /// Bytes as they are.
    Image,
    /// Bytes as they are, by another name.
    Binary,
    /// Bytes of this many bits.
    Local(u8),
}

impl fmt::Display for FormatControl {
    ghost output = { λ format. Some (format_text format) };

    fn fmt<W: fmt::Write>(&self, f: &mut fmt::Formatter<W>) -> fmt::Result {
        f.write_str(match self {
            FormatControl::Default | FormatControl::NonPrint => "N",
            FormatControl::Telnet => "T",
            FormatControl::Asa => "C",
        })
    }
}

impl fmt::Display for FileType {
    ghost output = { λ file_type. Some (type_text file_type) };

    fn fmt<W: fmt::Write>(&self, f: &mut fmt::Formatter<W>) -> fmt::Result {
        match self {
            FileType::Ascii(format) => write!(f, "A {format}"),
            FileType::Ebcdic(format) => write!(f, "E {format}"),
            FileType::Image | FileType::Binary => f.write_str("I"),
            FileType::Local(bits) => write!(f, "L {bits}"),
        }
    }
}
