//! Reads a dump's lines from a device, one at a time.
ghost use Rattle.std.specs.Prelude.{◌≡◌, ◌+◌, ◌<◌, ◌≤◌, List, length, IfOk, IsErrOf, OnOk};
ghost use Rattle.std.specs.Fn.{FnOnceReturnsAt};
ghost use Rattle.szg_build.specs.Fronts.{IsFront, ParsesLine, in_line};
ghost use Rattle.szg_build.specs.Grammar.{Word, number_line, run_line};
ghost use Rattle.szg_build.specs.Held.{held_of};
ghost use Rattle.szg_build.specs.Reading.{ReadsLines};

use crate::dump::{DumpFault, DumpReadFault};
use crate::reading::incoming::Incoming;
use crate::reading::line::next_line;
use crate::reading::line_parsing::{parse_number_line, parse_run};
use szg_io::Input;

/// The least number of bytes of a line with its 0A.
const LEAST_LINE: usize = 1;

/// The least number of bytes of a run's line with its 0A.
const LEAST_RUN: usize = 4;

/// Adds the number of a line to the fault of parsing it.
fn with_line<T: Drop>(stated: Result<T, DumpFault>, line: u64) -> Result<T, DumpReadFault>
    ensures { result ≡ in_line line stated }
{
    match stated {
        Ok(value) => Ok(value),
        Err(fault) => Err(DumpReadFault::Line { line, fault }),
    }
}

/// Reads a line and parses it with `parse`.
pub(crate) fn read_parsed<T: Drop, R: Input, F: FnOnce(&[u8]) -> Result<T, DumpFault> + Drop>(
    parse: F,
    following: u64,
    input: &mut R,
    incoming: &mut Incoming,
) -> Result<T, DumpReadFault>
    requires short { (text : _) → length text.now ≤ 80 → F.pre parse text }
    requires held { length (held_of incoming.old) ≤ following + 1 }
    ensures lines { ParsesLine (FnOnceReturnsAt F.FnOnce parse) incoming.old incoming.new R.Input input.old input.new result }
    ensures following { OnOk result (length (held_of incoming.new) ≤ following) }
    ensures memory { IsErrOf result DumpReadFault.Memory → ⊥ }
{
    let text = next_line(LEAST_LINE, following, input, incoming)?;
    with_line(parse(text.as_slice()), incoming.line)
}

/// Reads the line of a run, which has at most `left` values.
pub(crate) fn read_run<R: Input>(
    left: u64,
    following: u64,
    input: &mut R,
    incoming: &mut Incoming,
) -> Result<(u64, u16), DumpReadFault>
    requires { length (held_of incoming.old) ≤ following + 1 }
    ensures lines { ReadsLines (run_line left) (λ run. run) incoming.old incoming.new R.Input input.old input.new result }
    ensures following { OnOk result (length (held_of incoming.new) ≤ following) }
    ensures memory { IsErrOf result DumpReadFault.Memory → ⊥ }
    ensures some { IfOk result (λ run. 0 < run.0) }
    ensures within { IfOk result (λ run. run.0 ≤ left) }
{
    let text = next_line(LEAST_RUN, following, input, incoming)?;
    with_line(parse_run(left, text.as_slice()), incoming.line)
}

/// Reads a line of one number after the fixed words `front`.
pub(crate) fn read_number<R: Input>(
    front: &[u8],
    limit: u64,
    following: u64,
    input: &mut R,
    incoming: &mut Incoming,
) -> Result<u64, DumpReadFault>
    requires { length (held_of incoming.old) ≤ following + 1 }
    ensures lines { (pattern : List Word) → IsFront pattern front.now → ReadsLines (number_line pattern limit) (λ number. number) incoming.old incoming.new R.Input input.old input.new result }
    ensures following { OnOk result (length (held_of incoming.new) ≤ following) }
    ensures memory { IsErrOf result DumpReadFault.Memory → ⊥ }
    ensures within { IfOk result (λ number. number ≤ limit) }
{
    read_parsed(
        |text| parse_number_line(front, limit, text),
        following,
        input,
        incoming,
    )
}
