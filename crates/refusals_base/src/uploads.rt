//! Uploads of text, whose lines end in CR LF on the wire.

ghost use Rattle.std.specs.Prelude.{◌≡◌, ℕ, List, ◌++◌, OnOk, OnErr};
ghost use Rattle.ftp_base.specs.Ascii.{AddsPiece, ends_in_return};

use ftp_base::ascii::CrlfEncoder;
use std::alloc::AllocError;

/// `CrlfEncoder::encode`.
pub fn encode(encoder: &mut CrlfEncoder, input: &[u8], out: &mut Vec<u8>) -> Result<(), AllocError>
    ensures written { OnOk result ((before : List ℕ) → encoder.old ≡ ends_in_return before →
        AddsPiece before input.now out.old.items out.new.items) }
    ensures last { OnOk result ((before : List ℕ) → encoder.old ≡ ends_in_return before →
        encoder.new ≡ ends_in_return (before ++ input.now)) }
    ensures err { OnErr result (encoder.new ≡ encoder.old) }
    ensures err_out { OnErr result (out.new.items ≡ out.old.items) }
{
    encoder.encode(input, out)
}
