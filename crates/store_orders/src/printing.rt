//! How lines are printed.
ghost use Rattle.std.specs.Prelude.{◌≡◌, OnOk, OnErr, IfErr};
ghost use Rattle.std.specs.Io.KnownBytes.{Appends};
ghost use Rattle.byte_streams.specs.Fronts.{AppendsFront};
ghost use Rattle.store_orders.specs.declared.fault.Fault.TheVariants.{Stream};

use crate::fault::Fault;
use byte_streams::put;
use std::io::Write;

/// Prints lines. `Stream` (71) where a write failed: a beginning of them is printed then.
pub fn print<W: Write>(lines: &[u8], output: &mut W) -> Result<(), Fault>
    ensures ok { OnOk result (Appends (W.contents output.old) (W.contents output.new) lines.now) }
    ensures err { OnErr result
        (AppendsFront (W.contents output.old) (W.contents output.new) lines.now) }
    ensures told { IfErr result (λ fault. fault ≡ Stream) }
{
    match put(output, lines) {
        Ok(()) => Ok(()),
        Err(_) => Err(Fault::Stream),
    }
}
