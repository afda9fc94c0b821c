//! Settings in words.

use ftp_base::types::{ActivePeerCheck, Items, Mode};
use ftp_session::session::Setting;
use rows_text::{RowError, value};
use std::alloc::Global;
use std::net::IpAddr;
use std::time::Duration;

/// The setting of this name, with what it is set to: `mode KIND`, `nat on`, `peers PEERS`,
/// `lenient on`, `deadline SECONDS`.
pub fn setting(alloc: Global, name: &str, argument: &str) -> Result<Setting, RowError> {
    match name {
        "mode" => Ok(Setting::Mode(mode(argument)?)),
        "nat" => Ok(Setting::PassiveNatWorkaround(is_on(argument)?)),
        "peers" => Ok(Setting::ActivePeerCheck(peers(alloc, argument)?)),
        "lenient" => Ok(Setting::LenientReplies(is_on(argument)?)),
        "deadline" => Ok(Setting::ActiveDeadline(Duration::from_secs(value(argument)?))),
        _ => Err(RowError::NotUnderstood),
    }
}

/// A mode by its name.
fn mode(word: &str) -> Result<Mode, RowError> {
    match word {
        "active" => Ok(Mode::Active),
        "passive" => Ok(Mode::Passive),
        "epsv" => Ok(Mode::ExtendedPassive),
        "automatic" => Ok(Mode::Automatic),
        _ => Err(RowError::NotUnderstood),
    }
}

/// `on` or `off`.
fn is_on(word: &str) -> Result<bool, RowError> {
    match word {
        "on" => Ok(true),
        "off" => Ok(false),
        _ => Err(RowError::NotUnderstood),
    }
}

/// `control`, `any`, or IP addresses joined by commas.
fn peers(alloc: Global, words: &str) -> Result<ActivePeerCheck, RowError> {
    match words {
        "control" => Ok(ActivePeerCheck::ControlPeer),
        "any" => Ok(ActivePeerCheck::Any),
        _ => {
            let all: Vec<IpAddr> = words.split(',').map(value).try_collect(alloc)?;
            Ok(ActivePeerCheck::Allow(Items::from_vec(all)))
        }
    }
}
