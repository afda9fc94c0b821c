//! Scripts, read whole.

ghost use Rattle.std.specs.Prelude.{◌≡◌, ◌++◌, ◌||◌, OnOk, Ok, Err, MatchResult};
ghost use Rattle.ftp_script.specs.declared.script.ScriptError.TheVariants as wrong;
ghost use Rattle.ftp_script.specs.Script.{called, loosens, script_of, served, supplied, IsWrong};

use crate::cut::cut;
use crate::line::{Line, line_of};
use crate::supplies::DataConn;
use ftp_base::types::{Bytes, Items};
use ftp_calls::call::Call;
use std::alloc::{AllocError, AllocFailed, Global};

/// A script.
#[derive(Drop)]
pub(crate) struct Script {
    /// What the server sends.
    pub server: Bytes,
    /// The data connections, in order.
    pub data_conns: Items<DataConn>,
    /// The calls.
    pub calls: Items<Call>,
    /// Whether replies are read leniently.
    pub lenient: bool,
}

/// Why a text isn't read as a script.
#[derive(Drop)]
pub(crate) enum ScriptError {
    /// The line of this number isn't understood, counted from 1.
    NotUnderstood(usize),
    /// Out of memory.
    OutOfMemory,
}

impl From<AllocError> for ScriptError {
    ghost from_gives = { λ cause error. error ≡ wrong.OutOfMemory };

    fn from(_cause: AllocError) -> ScriptError {
        ScriptError::OutOfMemory
    }
}

/// The script that a text writes.
///
/// # Errors
/// `NotUnderstood` with the number of the first line that isn't, `OutOfMemory`.
pub(crate) fn script_of(alloc: Global, text: &[u8]) -> Result<Script, ScriptError>
    ensures { MatchResult result (λ script. script_of text.now ≡ Ok script)
        (λ error. IsWrong (script_of text.now) error) }
{
    let mut server = Vec::new(alloc);
    let mut data_conns = Vec::new(alloc);
    let mut calls = Vec::new(alloc);
    let mut lenient = false;
    let mut rest = text;
    let mut number = 1;
    while let Some((line, behind)) = cut(b'\n', rest) {
        let Some(line) = line_of(alloc, line)? else {
            return Err(ScriptError::NotUnderstood(number));
        };
        add_line(line, &mut server, &mut data_conns, &mut calls, &mut lenient)?;
        number += 1;
        rest = behind;
    }
    let Some(line) = line_of(alloc, rest)? else {
        return Err(ScriptError::NotUnderstood(number));
    };
    add_line(line, &mut server, &mut data_conns, &mut calls, &mut lenient)?;
    Ok(Script {
        server: Bytes::from_vec(server),
        data_conns: Items::from_vec(data_conns),
        calls: Items::from_vec(calls),
        lenient,
    })
}

/// Adds what a line says.
fn add_line(
    line: Line,
    server: &mut Vec<u8>,
    data_conns: &mut Vec<DataConn>,
    calls: &mut Vec<Call>,
    lenient: &mut bool,
) -> Result<(), AllocError>
    ensures server { OnOk result (server.new.items ≡ server.old.items ++ served line) }
    ensures data_conns { OnOk result (data_conns.new.items ≡ data_conns.old.items ++ supplied line) }
    ensures calls { OnOk result (calls.new.items ≡ calls.old.items ++ called line) }
    ensures lenient { OnOk result (lenient.new ≡ (lenient.old || loosens line)) }
{
    match line {
        Line::Empty => Ok(()),
        Line::Server(bytes) => server.extend_from_slice(bytes.as_slice()),
        Line::Data(data_conn) => {
            data_conns.push(data_conn)?;
            Ok(())
        }
        Line::Makes(call) => {
            calls.push(call)?;
            Ok(())
        }
        Line::Lenient => {
            *lenient = true;
            Ok(())
        }
    }
}
