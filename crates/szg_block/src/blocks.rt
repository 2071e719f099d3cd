//! Access to the blocks of a subtable, one at a time.

ghost use Rattle.std.specs.Prelude.{◌≡◌, ◌<◌, ◌/◌, ◌^◌, ℕ, List, IfNone, IfOk, IfSome, length};
ghost use Rattle.std.specs.Io.BufRead.{Rests};
ghost use Rattle.std.specs.Borrow.{sem};
ghost use Rattle.szg_code.specs.Acceptance.{IsCode};
ghost use Rattle.szg_block.specs.Block.{block_at};
ghost use Rattle.szg_block.specs.Subtable.{layout_of, packed_of};
ghost use Rattle.szg_block.specs.BlocksTrait.{raised, failed_after};

use crate::Sub;

/// The error of a call whose source failed.
#[derive(Debug, Clone, Copy, PartialEq, Eq)]
pub struct SourceFault;

/// Access to the blocks of a subtable.
pub trait Blocks {
    // the number of blocks, and the bytes of each
    ghost count: { Self → ℕ };

    ghost bytes: { Self → ℕ → List ℕ };
    // all bytes of the source that the blocks are in, and the length of the buffer that one block is read into
    ghost content: { Self → List ℕ };

    ghost buffer_len: { Self → ℕ };
    // the number of failures of the source, the number of bytes requested from it, and the number of bytes requested for one block
    ghost failures: { Self → ℕ };

    ghost requested: { Self → ℕ };

    ghost cost: { Self → ℕ };

    /// Returns block `n`, which must exist. The failure count increases by one if the call fails, and otherwise stays
    /// the same. The blocks do not change.
    fn block(&mut self, n: u32) -> Result<&[u8], SourceFault>
        requires { n < count self.old }
        ensures block { IfOk result (λ block. block.now ≡ bytes self.old n) }
        ensures* after { sem 𝓛 (Rests Self.row self.entry (λ new.
            (count new ≡ count self.old) × ((k : ℕ) → bytes new k ≡ bytes self.old k)
            × (content new ≡ content self.old) × (buffer_len new ≡ buffer_len self.old)
            × (failures new ≡ failed_after result (failures self.old))
            × (cost new ≡ cost self.old) × (requested new ≡ raised (requested self.old) (cost self.old)))) };
}

/// The blocks of a subtable in memory.
#[derive(Clone, Copy)]
pub struct Whole<'a> {
    /// The blocks, one after another.
    pub packed: &'a [u8],
    /// A block has 2^block_bits bytes.
    pub block_bits: u8,
}

impl<'a> Blocks for Whole<'a> {
    ghost count = { λ whole. length whole.packed.now / 2 ^ whole.block_bits };

    ghost bytes = { λ whole n. block_at whole.block_bits whole.packed.now n };

    ghost content = { λ whole. whole.packed.now };

    ghost buffer_len = { λ whole. 0 };

    ghost failures = { λ whole. 0 };

    ghost requested = { λ whole. 0 };

    ghost cost = { λ whole. 0 };

    fn block(&mut self, n: u32) -> Result<&[u8], SourceFault> {
        Ok(block_of(self.packed, self.block_bits, n as usize))
    }
}

/// Returns the blocks that are stored in the subtable; none if it is constant.
pub(crate) fn blocks_in(sub: &Sub) -> Whole<'_>
    requires { IfSome (layout_of sub.now) (λ layout. layout.code.symbols ≡ length layout.entries) }
    ensures packed { result.packed.now ≡ packed_of sub.now }
    ensures bits { IfSome (layout_of sub.now) (λ layout. result.block_bits ≡ layout.block_bits) }
    ensures accepted { IfSome (layout_of sub.now) (λ layout. IsCode layout.code) }
{
    match sub {
        Sub::Constant { .. } => Whole {
            packed: &[],
            block_bits: 0,
        },
        Sub::Pairs {
            block_bits,
            code,
            dict,
            packed,
            ..
        } => {
            prove_eq!(code.symbols(), dict.symbols());
            Whole {
                packed,
                block_bits: *block_bits,
            }
        }
    }
}

/// Returns the number of a subtable's blocks; 0 if it is constant.
pub fn block_count(sub: &Sub) -> u32
    ensures blocks { IfSome (layout_of sub.now) (λ layout. result ≡ layout.blocks) }
    ensures none { IfNone (layout_of sub.now) (result ≡ 0) }
{
    match sub {
        Sub::Constant { .. } => 0,
        Sub::Pairs { blocks, .. } => *blocks,
    }
}

/// Returns block `n` of `packed`, whose blocks have `2^block_bits` bytes each.
pub fn block_of(packed: &[u8], block_bits: u8, n: usize) -> &[u8]
    requires { n < length packed.now / 2 ^ block_bits }
    ensures { result.now ≡ block_at block_bits packed.now n }
{
    let bytes = 1 << block_bits;
    let first = n * bytes;
    &packed[first..first + bytes]
}
