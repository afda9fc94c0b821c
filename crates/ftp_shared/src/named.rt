//! Features that both clients look for in the reply to `FEAT`.

use ftp_base::types::Features;
use ftp_list::names_facts;

/// The feature of a server that has names in UTF-8 (RFC 2640, section 3.2).
pub const UTF8: &str = "UTF8";

/// The command that sets that option. No RFC has it.
pub const UTF8_ON: &str = "OPTS UTF8 ON";

/// Whether a feature is among these, in upper or lower case (RFC 2389, section 3.2).
pub fn has_feature(features: &Features, wanted: &str) -> bool {
    features.iter().any(|(name, _value)| name.as_str().eq_ignore_ascii_case(wanted))
}

/// Whether these are features by which a server has `MLSD` (RFC 3659, section 7.8).
pub fn has_facts(features: &Features) -> bool {
    features
        .iter()
        .any(|(name, _value)| names_facts(name.as_str()))
}
