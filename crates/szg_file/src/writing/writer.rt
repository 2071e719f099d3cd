//! The sink that writes the sections of a file.
ghost use Rattle.std.specs.Prelude.{[], ◌∷◌};
ghost use Rattle.szg_file.specs.Writing.{WritesNext};

use crate::fault::WriteFault;
use crate::writing::outgoing::{
    Outgoing, put, put_numbers, put_padding, put_spare, put_sparse, put_symbols,
};
use crate::writing::sections::SectionSink;
use szg_block::Entry;
use szg_io::Output;
use szg_pairs::Dict;

/// Writes sections to a device, until it fails. After that it writes nothing.
#[derive(Drop)]
pub struct Writer<'a> {
    pub outgoing: Outgoing<'a>,
    /// The failure, if there was one.
    pub result: Result<(), WriteFault>,
}

impl<W: Output> SectionSink<W> for Writer<'_> {
    ghost takes = { λ old output section new left. WritesNext W.Output old.result (section ∷ []) old output new left };

    fn bytes(&mut self, bytes: &[u8], out: &mut W) {
        if let Ok(()) = self.result {
            self.result = put(bytes, out, &mut self.outgoing);
        }
    }

    fn numbers(&mut self, list: &[u16], out: &mut W) {
        if let Ok(()) = self.result {
            self.result = put_numbers(list, out, &mut self.outgoing);
        }
    }

    fn entries(&mut self, sparse: &[Entry], out: &mut W) {
        if let Ok(()) = self.result {
            self.result = put_sparse(sparse, out, &mut self.outgoing);
        }
    }

    fn symbols(&mut self, dict: &Dict, out: &mut W) {
        if let Ok(()) = self.result {
            self.result = put_symbols(dict, out, &mut self.outgoing);
        }
    }

    fn spare(&mut self, count: u64, out: &mut W) {
        if let Ok(()) = self.result {
            self.result = put_spare(count, out, &mut self.outgoing);
        }
    }

    fn padding(&mut self, unit: u64, out: &mut W) {
        if let Ok(()) = self.result {
            self.result = put_padding(unit, out, &mut self.outgoing);
        }
    }
}
