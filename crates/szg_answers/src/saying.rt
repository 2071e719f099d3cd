//! Writing a text whole.

ghost use Rattle.std.specs.Prelude.{◌≡◌, OnOk, OnErr, Err, IsErrOf, IsOkAnd, string_bytes};
ghost use Rattle.szg_io.specs.Device.{HasFailed};
ghost use Rattle.szg_io.specs.Moved.{Gives};
ghost use Rattle.szg_answers.specs.declared.refusal.Refusal.{Refusal};

use crate::refusal::Stop;
use szg_io::{Output, give_whole};

/// Writes a text whole.
pub(crate) fn say<W: Output>(writer: &mut W, text: &[u8]) -> Result<(), Stop>
    ensures given { OnOk result (Gives W.Output writer.old writer.new text.now 0) }
    ensures failed { OnErr result (HasFailed (W.failures writer.old) (W.failures writer.new) (W.interrupted writer.new)) }
    ensures device { OnErr result (result ≡ Err Stop.Device) }
    ensures quiet { OnOk result (W.failures writer.new ≡ W.failures writer.old) }
{
    give_whole(writer, text).map_err(|_| Stop::Device)
}

/// Writes a line whole, where there is one.
pub(crate) fn say_line<W: Output>(writer: &mut W, line: Result<String, Stop>) -> Result<(), Stop>
    requires { IsErrOf line Stop.Device → ⊥ }
    ensures given { OnOk result (IsOkAnd line (λ text. Gives W.Output writer.old writer.new (string_bytes text) 0)) }
    ensures device { IsErrOf result Stop.Device → HasFailed (W.failures writer.old) (W.failures writer.new) (W.interrupted writer.new) }
    ensures refused { (refusal : Refusal) → IsErrOf result (Stop.Refused refusal) → (writer.new ≡ writer.old) × IsErrOf line (Stop.Refused refusal) }
    ensures memory { IsErrOf result Stop.Memory → writer.new ≡ writer.old }
{
    let line = line?;
    say(writer, line.as_bytes())
}
