//! What is to be measured, as the program's words say it.

use anyhow::{Context, Result, bail};
use std::alloc::Global;

/// How many bytes are a MiB.
const MIB: u64 = 1_048_576;

/// A kind of run.
#[derive(Clone, Copy)]
pub enum Kind {
    /// A file, read from a stream.
    Download,
    /// A file, fetched whole.
    Buffer,
    /// A file, sent as it is.
    Upload,
    /// A text, sent with CR LF at the ends of its lines.
    Text,
    /// A text, converted in memory.
    Convert,
    /// A listing.
    List,
    /// Small files, one after another.
    Files,
    /// A file, sent from a reader.
    Put,
    /// A file, saved to a writer by the polled client.
    PolledDownload,
    /// A file, sent from a reader by the polled client.
    PolledPut,
    /// Small files, one after another, each fetched whole.
    BufferFiles,
    /// Small files, one after another, each fetched whole by the polled client.
    PolledFiles,
    /// Small files, one after another, each saved to a writer by the polled client.
    PolledSaved,
}

impl Kind {
    /// The kind that this word names.
    fn named(word: &str) -> Option<Kind> {
        match word {
            "download" => Some(Kind::Download),
            "buffer" => Some(Kind::Buffer),
            "upload" => Some(Kind::Upload),
            "text" => Some(Kind::Text),
            "convert" => Some(Kind::Convert),
            "list" => Some(Kind::List),
            "files" => Some(Kind::Files),
            "put" => Some(Kind::Put),
            "polled-download" => Some(Kind::PolledDownload),
            "polled-put" => Some(Kind::PolledPut),
            "buffer-files" => Some(Kind::BufferFiles),
            "polled-files" => Some(Kind::PolledFiles),
            "polled-saved" => Some(Kind::PolledSaved),
            _ => None,
        }
    }

    /// The word that names it.
    pub fn name(self) -> &'static str {
        match self {
            Kind::Download => "download",
            Kind::Buffer => "buffer",
            Kind::Upload => "upload",
            Kind::Text => "text",
            Kind::Convert => "convert",
            Kind::List => "list",
            Kind::Files => "files",
            Kind::Put => "put",
            Kind::PolledDownload => "polled-download",
            Kind::PolledPut => "polled-put",
            Kind::BufferFiles => "buffer-files",
            Kind::PolledFiles => "polled-files",
            Kind::PolledSaved => "polled-saved",
        }
    }

    /// Whether the polled client makes it.
    pub fn is_polled(self) -> bool {
        matches!(
            self,
            Kind::PolledDownload | Kind::PolledPut | Kind::PolledFiles | Kind::PolledSaved
        )
    }

    /// What it counts.
    pub fn unit(self) -> &'static str {
        match self {
            Kind::Download | Kind::Buffer | Kind::Upload | Kind::Text | Kind::Convert => "bytes",
            Kind::Put | Kind::PolledDownload | Kind::PolledPut => "bytes",
            Kind::List => "lines",
            Kind::Files | Kind::BufferFiles => "files",
            Kind::PolledFiles | Kind::PolledSaved => "files",
        }
    }
}

/// A run: its kind, and its amount in the kind's unit.
#[derive(Clone, Copy)]
pub struct Run {
    pub kind: Kind,
    pub amount: u64,
}

impl Run {
    /// The run that these words ask for: of bytes they give the MiB.
    fn of(kind: &str, amount: &str) -> Result<Run> {
        let kind = Kind::named(kind).context(format_args!("there is no run {kind}"))?;
        let amount: u64 = amount.parse().context("the amount of a run")?;
        let amount = match kind.unit() {
            "bytes" => amount.saturating_mul(MIB),
            _ => amount,
        };
        Ok(Run { kind, amount })
    }
}

/// The runs that the program's words ask for, which are pairs.
///
/// # Errors
/// A kind that there isn't, an amount that is missing or no number, or out of memory.
pub fn read(alloc: Global, words: &[String]) -> Result<Vec<Run>> {
    let mut plan = Vec::new(alloc);
    for pair in words.chunks(2) {
        match pair {
            [kind, amount] => plan.push(Run::of(kind.as_str(), amount.as_str())?)?,
            _ => bail!("a run has no amount"),
        }
    }
    Ok(plan)
}
