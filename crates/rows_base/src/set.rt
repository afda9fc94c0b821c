//! The sets of rows, and what a row of each results in.

use crate::{
    addresses, answers, commands, comparisons, copies, faults, features, listings, peers, replies,
    scans, uploads, welcomes,
};
use rows_text::RowError;
use std::alloc::Global;

/// A set of rows.
#[derive(Clone, Copy, Debug, PartialEq, Eq)]
pub enum Set {
    /// A command, and its line.
    Commands,
    /// A code, and its status.
    Statuses,
    /// Two values, and how they compare.
    Comparisons,
    /// The text of a reply to PASV, and the places of its six numbers.
    Passive,
    /// The text of a reply to EPSV, and the place of its port.
    Extended,
    /// The text of a reply to MDTM, and the places of the parts of its time.
    Timestamps,
    /// The text of a reply to SIZE, and the place of its size.
    Sizes,
    /// A text, a place in it and the greatest number that is asked for, and the number there.
    Numbers,
    /// The reply to FEAT, and its features.
    Features,
    /// A line of the reply to FEAT, and whether it is the last.
    LastLines,
    /// The bytes of a reply to PWD, and its path under two encodings.
    Paths,
    /// The bytes of a reply to MLST, and its second line.
    SecondLines,
    /// The bytes of a reply to MDTM, and its time.
    Times,
    /// The bytes of a reply to SIZE, and its size.
    FileSizes,
    /// The bytes of a reply to FEAT, and its features.
    FeatureReplies,
    /// The bytes of a listing in an encoding, and its lines.
    Listings,
    /// A stream, and the lines of its listing.
    Streams,
    /// The bytes of a reply to PASV, and its address.
    PassiveAddresses,
    /// The bytes of a reply to EPSV, and its port.
    ExtendedPorts,
    /// An address, and the command that sends it.
    PortCommands,
    /// A check, a peer and the control connection's peer, and whether the check lets the peer in.
    Peers,
    /// The pieces of a text, and its bytes on the wire.
    Uploads,
    /// How many bytes an upload has written and how many more it writes, and how many these are together.
    UploadSizes,
    /// A source and a writer, and what a copy returns and writes.
    Copies,
    /// Bytes, and what goes out for them on a Telnet connection.
    Escaped,
    /// Bytes of a Telnet connection, and what they stand for.
    Unescaped,
    /// A code and the bytes of a reply, and how it is shown.
    Replies,
    /// A greeting, and its text under two encodings.
    Welcomes,
    /// The name of an error, and its text.
    Faults,
}

/// The names of all sets, as headings write them.
const NAMES: [(&str, Set); 29] = [
    ("commands", Set::Commands),
    ("statuses", Set::Statuses),
    ("comparisons", Set::Comparisons),
    ("passive", Set::Passive),
    ("extended", Set::Extended),
    ("timestamps", Set::Timestamps),
    ("sizes", Set::Sizes),
    ("numbers", Set::Numbers),
    ("features", Set::Features),
    ("last_lines", Set::LastLines),
    ("paths", Set::Paths),
    ("second_lines", Set::SecondLines),
    ("times", Set::Times),
    ("file_sizes", Set::FileSizes),
    ("feature_replies", Set::FeatureReplies),
    ("listings", Set::Listings),
    ("streams", Set::Streams),
    ("passive_addresses", Set::PassiveAddresses),
    ("extended_ports", Set::ExtendedPorts),
    ("port_commands", Set::PortCommands),
    ("peers", Set::Peers),
    ("uploads", Set::Uploads),
    ("upload_sizes", Set::UploadSizes),
    ("copies", Set::Copies),
    ("escaped", Set::Escaped),
    ("unescaped", Set::Unescaped),
    ("replies", Set::Replies),
    ("welcomes", Set::Welcomes),
    ("faults", Set::Faults),
];

impl Set {
    /// The set of this name, and its name.
    pub fn named(name: &str) -> Option<(&'static str, Set)> {
        NAMES.into_iter().find(|(known, _)| *known == name)
    }

    /// What a row with this input results in.
    pub fn came(self, alloc: Global, input: &str) -> Result<Vec<u8>, RowError> {
        match self {
            Set::Commands => commands::line(alloc, input),
            Set::Statuses => replies::status(alloc, input),
            Set::Comparisons => comparisons::comparison(alloc, input),
            Set::Passive => scans::passive(alloc, input),
            Set::Extended => scans::extended(alloc, input),
            Set::Timestamps => scans::timestamp(alloc, input),
            Set::Sizes => scans::size(alloc, input),
            Set::Numbers => scans::number(alloc, input),
            Set::Features => features::features(alloc, input),
            Set::LastLines => features::last_line(alloc, input),
            Set::Paths => answers::path(alloc, input),
            Set::SecondLines => answers::second_line(alloc, input),
            Set::Times => answers::time(alloc, input),
            Set::FileSizes => answers::size(alloc, input),
            Set::FeatureReplies => answers::features(alloc, input),
            Set::Listings => listings::listing(alloc, input),
            Set::Streams => listings::stream(alloc, input),
            Set::PassiveAddresses => addresses::passive(alloc, input),
            Set::ExtendedPorts => addresses::extended(alloc, input),
            Set::PortCommands => addresses::command(alloc, input),
            Set::Peers => peers::admitted(alloc, input),
            Set::Uploads => uploads::uploaded(alloc, input),
            Set::UploadSizes => uploads::size(alloc, input),
            Set::Copies => copies::copied(alloc, input),
            Set::Escaped => replies::escaped(alloc, input),
            Set::Unescaped => replies::unescaped(alloc, input),
            Set::Replies => replies::reply(alloc, input),
            Set::Welcomes => welcomes::welcome(alloc, input),
            Set::Faults => faults::fault(alloc, input),
        }
    }
}
