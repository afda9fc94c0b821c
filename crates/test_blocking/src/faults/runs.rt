//! Whole files in which the first call fails, the second, and so on until none does.

use crate::device::{Device, Place};
use crate::faults::scene::{Run, made, number, sent, session_for};
use ftp_base::types::FtpResult;
use ftp_session::session::Owed;
use std::alloc::Global;
use std::io::ErrorKind;
use std::test::Fail;

/// More calls than a run makes.
const MOST: u32 = 500;

/// What the server sends to a client in passive mode, and then to `NOOP`.
const PASSIVE: &[u8] = b"227 x (192,0,2,7,4,0).\r\n150 b\r\n226 d\r\n200 ok\r\n";

/// What it sends to one in active mode.
const ACTIVE: &[u8] = b"200 p\r\n150 b\r\n226 d\r\n200 ok\r\n";

/// The kind by which the call of this number fails.
fn kind_of(nth: u32) -> ErrorKind {
    match nth % 4 {
        0 => ErrorKind::BrokenPipe,
        1 => ErrorKind::ConnectionReset,
        2 => ErrorKind::TimedOut,
        _ => ErrorKind::PermissionDenied,
    }
}

/// What a run results in: the number of its error, whether the session has failed, whether a transfer is live and
/// whether one was left; the number of the error of a `NOOP` after it, and whether that sent anything.
type Came = (u8, bool, bool, bool, u8, bool);

/// Makes a run in which the call of this number fails.
fn came(alloc: Global, device: &Device, run: Run, nth: u32) -> FtpResult<Came> {
    let replies = if run.active { ACTIVE } else { PASSIVE };
    let mut session = session_for(alloc, device, run.active, replies)?;
    let kind = kind_of(nth);
    device.fail_nth(nth, kind);
    let answer = made(alloc, &mut session, run.uploads, kind);
    device.fail_nth(0, kind);
    let failed = session.failed();
    let live = matches!(session.counts().owed(), Owed::Live(_));
    let left = matches!(session.counts().owed(), Owed::Left(_));
    let before = sent(&session);
    let next = number(session.noop(alloc), kind);
    let sends = sent(&session) > before;
    Ok((answer, failed, live, left, next, sends))
}

/// Whether a run resulted in what is due where such a call failed. After a control connection that failed nothing else
/// is due of transfers; after a request, nothing of the `NOOP`, whose reply is another's.
fn is_due(place: Option<Place>, uploads: bool, came: Came) -> bool {
    let (answer, failed, live, left, next, sends) = came;
    let (transfer, after) = ((live, left), (next, sends));
    match place {
        None => (answer, failed, transfer, after) == (0, false, (false, false), (0, true)),
        Some(Place::Control) => (answer, failed, live, after) == (1, true, false, (14, false)),
        Some(Place::Request) => (answer, failed, transfer) == (1, false, (false, false)),
        Some(Place::DataRead) => {
            (answer, failed, transfer, after) == (1, false, (false, false), (0, true))
        }
        Some(Place::DataWrite) => {
            (answer, failed, transfer, after) == (1, false, (false, true), (0, true))
        }
        Some(Place::Close) => {
            let told = if uploads { 1 } else { 0 };
            (answer, failed, transfer, after) == (told, false, (false, false), (0, true))
        }
    }
}

/// Whether a place was met.
#[derive(Clone, Copy, Debug, PartialEq, Eq)]
struct Met {
    control: bool,
    request: bool,
    data: bool,
    close: bool,
}

/// Notes a place.
fn note(met: Met, place: Place) -> Met {
    Met {
        control: met.control || place == Place::Control,
        request: met.request || place == Place::Request,
        data: met.data || place == Place::DataRead || place == Place::DataWrite,
        close: met.close || place == Place::Close,
    }
}

/// How many runs don't result in what is due, whether the last one met no failure, and which places the others met.
fn runs(alloc: Global, run: Run, write_at_most: usize) -> FtpResult<(u32, bool, Met)> {
    let mut differ = 0u32;
    let mut met = Met {
        control: false,
        request: false,
        data: false,
        close: false,
    };
    for nth in 1..MOST {
        let device = Device::new();
        device.write_at_most(write_at_most);
        let came = came(alloc, &device, run, nth)?;
        let place = device.failed_at();
        if !is_due(place, run.uploads, came) {
            differ = differ.saturating_add(1);
        }
        match place {
            Some(place) => met = note(met, place),
            None => return Ok((differ, true, met)),
        }
    }
    Ok((differ, false, met))
}

/// What is due of all runs: none differs, the last meets no failure, and each place was met.
const ALL: (u32, bool, Met) = (
    0,
    true,
    Met {
        control: true,
        request: true,
        data: true,
        close: true,
    },
);

/// What comes of the runs of a download and of an upload, with writes of any length and byte by byte.
fn both(alloc: Global, active: bool) -> FtpResult<bool> {
    for uploads in [false, true] {
        for write_at_most in [usize::MAX, 1] {
            if runs(alloc, Run { uploads, active }, write_at_most)? != ALL {
                return Ok(false);
            }
        }
    }
    Ok(true)
}

#[test]
fn one_call_fails_at_each_place_in_passive_mode(rt: HostRuntime) -> Result<(), Fail> {
    assert!(rt; both(rt.alloc(), false)?);
    Ok(())
}

#[test]
fn one_call_fails_at_each_place_in_active_mode(rt: HostRuntime) -> Result<(), Fail> {
    assert!(rt; both(rt.alloc(), true)?);
    Ok(())
}
