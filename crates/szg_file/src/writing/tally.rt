//! The sink that counts the sections of a file.
ghost use Rattle.std.specs.Prelude.{◌≡◌, ◌+◌, ◌<◌, ◌%◌, ◌^◌, [], ◌∷◌};
ghost use Rattle.szg_file.specs.FileOf.{padding, spare, sections};
ghost use Rattle.szg_file.specs.Sections.{contents_in};
ghost use Rattle.szg_file.specs.Tally.{Counts, IsAlike, end_of, fill_from};

use crate::writing::sections::{FieldsRef, SectionSink, put_sections};
use szg_block::Entry;
use szg_pairs::Dict;

/// The state of the count; both numbers are modulo 2^64.
#[derive(Clone, Copy)]
pub struct Tally {
    /// The number of bytes so far.
    pub place: u64,
    /// The number of padding bytes among them.
    pub fill: u64,
}

impl Tally {
    /// Counts the bytes of a table's file, and the padding bytes among them.
    pub(crate) fn of(fields: &FieldsRef) -> Tally
        ensures place { IsAlike result.place (end_of 0 (sections (contents_in fields.now))) }
        ensures fill { IsAlike result.fill (fill_from 0 (sections (contents_in fields.now))) }
    {
        let mut tally = Tally { place: 0, fill: 0 };
        put_sections(fields, &mut tally, &mut ());
        tally
    }

    /// Counts a field of `count` bytes.
    fn field(&mut self, count: u64)
        ensures place { self.new.place ≡ (self.old.place + count) % 2 ^ 64 }
        ensures fill { self.new.fill ≡ self.old.fill }
    {
        self.place = self.place.wrapping_add(count);
    }

    /// Counts `count` padding bytes.
    fn skip(&mut self, count: u64)
        ensures { Counts (spare count ∷ []) self.old self.new }
    {
        self.field(count);
        self.fill = self.fill.wrapping_add(count);
    }
}

impl<W> SectionSink<W> for Tally {
    ghost takes = { λ old _ section new _. Counts (section ∷ []) old new };

    fn bytes(&mut self, bytes: &[u8], _out: &mut W) {
        self.field(bytes.len() as u64);
    }

    fn numbers(&mut self, list: &[u16], _out: &mut W) {
        self.field((list.len() as u64).wrapping_mul(2));
    }

    fn entries(&mut self, sparse: &[Entry], _out: &mut W) {
        self.field((sparse.len() as u64).wrapping_mul(6));
    }

    fn symbols(&mut self, dict: &Dict, _out: &mut W) {
        'symbols: for symbol in 0..dict.symbols() {
            self.field(dict.entry(symbol).len() as u64);
        }
    }

    fn spare(&mut self, count: u64, _out: &mut W) {
        self.skip(count);
    }

    fn padding(&mut self, unit: u64, _out: &mut W) {
        self.skip((unit - self.place % unit) % unit);
    }
}
