//! Names of files, as a program that writes them to its own disk has to look at them.
ghost use Rattle.std.specs.Prelude.{◌≡◌};
ghost use Rattle.std.specs.List.{list_all};
ghost use Rattle.ftp_list.specs.Names.{is_dots, is_plain_byte, is_plain_name};

/// Whether a name can be that of a file in a local directory: it isn't empty, `.` or `..`, and has no `/`, `\`, NUL, CR or
/// LF. A server may send any name, so a program that mirrors a directory asks this before it joins one to a path.
pub fn is_plain_name(name: &str) -> bool
    ensures { result ≡ is_plain_name name.now }
{
    !name.is_empty() && !is_dots(name) && has_plain_bytes(name.as_bytes())
}

/// Whether the name is `.` or `..`.
pub(crate) fn is_dots(name: &str) -> bool
    ensures { result ≡ is_dots name.now }
{
    name == "." || name == ".."
}

fn has_plain_bytes(name: &[u8]) -> bool
    ensures { result ≡ list_all is_plain_byte name.now }
{
    name.iter().all(|byte| is_plain_byte(*byte))
}

fn is_plain_byte(byte: u8) -> bool
    ensures { result ≡ is_plain_byte byte }
{
    !matches!(byte, 0 | b'\n' | b'\r' | b'/' | b'\\')
}
