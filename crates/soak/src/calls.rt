//! The calls that are made, and the lines that each sends.

use crate::chance::{below, chance};

/// A line that a call sends in its turn, without its end, and the codes that its reply may have. No line stands where a
/// reply is read alone.
pub type Turn = (&'static str, &'static [u32]);

/// A call as rows write it (docs/ROWS.md), and its turns.
pub type Call = (&'static str, &'static [Turn]);

/// Calls, with the codes of RFC 959, section 5.4, RFC 3659 (MDTM, SIZE, MLST) and RFC 2389 (FEAT, OPTS). A few open data
/// connections: then PASV comes first, and a reply follows the data.
const CALLS: [Call; 32] = [
    NOOP,
    NOOP,
    NOOP,
    NOOP,
    PWD,
    PWD,
    ("cwd pub", &[("CWD pub", &[200, 250])]),
    ("cwd a b", &[("CWD a b", &[200, 250])]),
    ("cdup", &[("CDUP", &[200, 250])]),
    ("size notes.txt", &[("SIZE notes.txt", &[213])]),
    ("size x", &[("SIZE x", &[213])]),
    ("mdtm notes.txt", &[("MDTM notes.txt", &[213])]),
    ("mdtm x", &[("MDTM x", &[213])]),
    ("mkdir new", &[("MKD new", &[200, 257])]),
    ("rmdir old", &[("RMD old", &[200, 250])]),
    ("rm x", &[("DELE x", &[200, 250])]),
    ("rename a b", &[("RNFR a", &[350]), ("RNTO b", &[200, 250])]),
    (
        "rename a b\\n",
        &[("RNFR a", &[350]), ("RNTO b\n", &[200, 250])],
    ),
    (
        "login user secret",
        &[("USER user", &[230, 331]), ("PASS secret", &[230])],
    ),
    (
        "login user \\xc3\\xbf\\n",
        &[("USER user", &[230, 331]), ("PASS \u{ff}\n", &[230])],
    ),
    ("site HELP", &[("SITE HELP", &[200])]),
    FEAT,
    FEAT,
    ("mlst", &[("MLST", &[250])]),
    ("mlst a", &[("MLST a", &[250])]),
    ("opts UTF8 ON", &[("OPTS UTF8 ON", &[200])]),
    ("type image", &[("TYPE I", &[200])]),
    ("type ascii default", &[("TYPE A N", &[200])]),
    ("custom 200,550 STAT", &[("STAT", &[200, 550])]),
    (
        "retr_as_buffer 300",
        &[PASV, ("RETR 300", &[125, 150]), LAST],
    ),
    ("list", &[PASV, ("LIST", &[125, 150]), LAST]),
    (
        "put_file a one\\ntwo\\r\\n",
        &[PASV, ("STOR a", &[125, 150]), LAST],
    ),
];

const NOOP: Call = ("noop", &[("NOOP", &[200])]);

const PWD: Call = ("pwd", &[("PWD", &[257])]);

const FEAT: Call = ("feat", &[("FEAT", &[211])]);

const PASV: Turn = ("PASV", &[227]);

const LAST: Turn = ("", &[226, 250]);

/// The call of this number in a session.
pub fn random_call(seed: u64, session: u64, number: u64) -> Call {
    // The server's numbers are those of the sessions themselves.
    let place = below(chance(seed, !session, number), CALLS.len());
    CALLS.get(place).copied().unwrap_or(NOOP)
}
