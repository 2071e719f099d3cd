//! Where the values of a table go while its file is read.
ghost use Rattle.std.specs.Prelude.{◌≡◌, ℕ, List, Bool, OnOk, replicate};

use szg_io::IoFault;

/// Accepts the values of subtables in order. What it makes of them goes to `out`. After a fault it takes no more values: its
/// output failed, or an allocation was refused. The sink itself knows which.
pub trait ValueSink<W> {
    /// Whether it wants the values of a part and side. No call changes it.
    ghost wanted: { Self → ℕ → ℕ → Bool };

    /// What it does with values: the sink and its output before, the values, and both after.
    ghost accepts: { Self → W → List ℕ → Self → W → Type 0 };

    /// Whether it wants the values of a part and side.
    fn wants(&self, part: u8, side: u8) -> bool
        ensures { result ≡ wanted self.now part side };

    /// Accepts the next values.
    fn put(&mut self, values: &[u16], out: &mut W) -> Result<(), IoFault>
        ensures accepted { OnOk result (accepts self.old out.old values.now self.new out.new) }
        ensures stays { wanted self.new ≡ wanted self.old };

    /// Accepts the same value `count` times.
    fn put_same(&mut self, value: u16, count: u64, out: &mut W) -> Result<(), IoFault>
        ensures accepted { OnOk result (accepts self.old out.old (replicate count value) self.new out.new) }
        ensures stays { wanted self.new ≡ wanted self.old };
}

/// A sink that wants no values.
#[derive(Clone, Copy)]
pub struct NoSink;

impl<W> ValueSink<W> for NoSink {
    ghost use Rattle.std.specs.Prelude.{false};

    ghost wanted = { λ _ _ _. false };

    ghost accepts = { λ _ _ _ _ _. Unit {0} };

    fn wants(&self, _part: u8, _side: u8) -> bool {
        false
    }

    fn put(&mut self, _values: &[u16], _out: &mut W) -> Result<(), IoFault> {
        Ok(())
    }

    fn put_same(&mut self, _value: u16, _count: u64, _out: &mut W) -> Result<(), IoFault> {
        Ok(())
    }
}
