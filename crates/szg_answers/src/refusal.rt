use std::alloc::AllocError;
use std::convert::Infallible;
use szg_build::{BuildFault, DumpFault};
use szg_file::{MapFault, Reason};
use szg_place::PlaceFault;
use szg_values::{NameFault, PlacementFault};

/// Why a command is refused, in the order in which it meets these.
#[derive(Clone, Copy)]
pub enum Refusal {
    /// The name is no material's.
    Name(NameFault),
    /// The words make no placement. Carries why, or None if a word is no man's.
    Men(Option<PlacementFault>),
    /// The bytes are no table's: the offset and the reason.
    At(u64, Reason),
    /// A line, from 1, is none of a dump.
    Line(u64, DumpFault),
    /// The dump is well-formed, and no table can be built of it.
    Build(BuildFault),
    /// The table has no such part or side.
    Part,
    /// The subtable has no such index.
    Index,
    /// The value's block doesn't decode: its number in its part and side, and its offset in the file.
    Block(u32, u64),
    /// The table has no index for the placement, or no placement for the index.
    Place(PlaceFault),
    /// The table has no number for the placement in the class.
    Map(MapFault),
}

/// Why a command wasn't carried out; `F` says which file failed, and why.
#[derive(Clone, Copy)]
pub enum Stop<F = Infallible> {
    /// It is refused.
    Refused(Refusal),
    /// A file failed.
    Failed(F),
    /// The reader or the writer failed.
    Device,
    /// A growth was refused.
    Memory,
}

impl<F> From<Refusal> for Stop<F> {
    ghost use Rattle.std.specs.Prelude.{◌≡◌};
    ghost use Rattle.szg_answers.specs.declared.refusal.Stop.TheVariants.{Refused};

    ghost from_gives = { λ refusal stop. stop ≡ Refused refusal };

    fn from(refusal: Refusal) -> Stop<F> {
        Stop::Refused(refusal)
    }
}

impl<F> From<AllocError> for Stop<F> {
    ghost use Rattle.std.specs.Prelude.{◌≡◌};
    ghost use Rattle.szg_answers.specs.declared.refusal.Stop.TheVariants.{Memory};

    ghost from_gives = { λ _ stop. stop ≡ Memory };

    fn from(_failed: AllocError) -> Stop<F> {
        Stop::Memory
    }
}
