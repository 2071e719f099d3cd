//! The sections of a table's file, in file order: one walk, for a sink that writes them or counts them.
ghost use Rattle.std.specs.Prelude.{◌≡◌, ◌<◌, ◌%◌, ◌^◌, ◌++◌, List, map, flat_map, option_map, Some};
ghost use Rattle.szg_file.specs.Contents.{bytes_of};
ghost use Rattle.szg_file.specs.FileOf.{Section, written, padding, spare, part_sections, head_sections, list_sections, map_sections, sparse_sections, lengths_sections, blocks_sections, sections};
ghost use Rattle.szg_file.specs.Held.{part_of, sparse_of, subtable_of, map_of};
ghost use Rattle.szg_file.specs.Sections.{Took, TakesAs, contents_in};

use crate::reading::start::magic;
use crate::table::{Map, PartBytes};
use szg_block::{Entry, Sub};
use szg_pairs::Dict;
use szg_values::{Kind, Material};

/// Takes the sections of a file in order. What it makes of them goes to `out`.
pub trait SectionSink<W> {
    /// What it does with a section: the sink and its output before, the section, and both after.
    ghost takes: { Self → W → Section → Self → W → Type 0 };

    /// Takes a field of bytes.
    fn bytes(&mut self, bytes: &[u8], out: &mut W)
        ensures { takes self.old out.old (written bytes.now) self.new out.new };

    /// Takes a field of two-byte numbers, least byte first.
    fn numbers(&mut self, list: &[u16], out: &mut W)
        ensures { takes self.old out.old (written (flat_map (bytes_of 2) list.now)) self.new out.new };

    /// Takes a sparse index, six bytes an entry.
    fn entries(&mut self, sparse: &[Entry], out: &mut W)
        ensures { takes self.old out.old (written (flat_map (λ entry. bytes_of 4 entry.block ++ bytes_of 2 entry.offset) (map sparse_of sparse.now))) self.new out.new };

    /// Takes the entries of a dictionary, three bytes each.
    fn symbols(&mut self, dict: &Dict, out: &mut W)
        ensures { takes self.old out.old (written (flat_map (λ entry. entry) dict.now)) self.new out.new };

    /// Takes `count` padding bytes.
    fn spare(&mut self, count: u64, out: &mut W)
        requires { count < 2 ^ 32 }
        ensures { takes self.old out.old (spare count) self.new out.new };

    /// Takes the padding up to a multiple of `unit`, which is 2 or 64.
    fn padding(&mut self, unit: u64, out: &mut W)
        requires some { 0 < unit }
        requires most { unit < 2 ^ 32 }
        requires whole { 2 ^ 64 % unit ≡ 0 }
        ensures { takes self.old out.old (padding unit) self.new out.new };
}

/// The fields of a table's file except its padding bytes, borrowed.
#[derive(Clone, Copy)]
pub struct FieldsRef<'a> {
    pub material: &'a Material,
    pub kind: Kind,
    pub byte4: u8,
    pub parts: &'a [PartBytes],
    pub subs: &'a [Sub],
    pub maps: &'a [Option<Map>],
    pub last: &'a [u8; 16],
}

/// Hands all sections of a table's file to a sink.
pub(crate) fn put_sections<W, S: SectionSink<W>>(fields: &FieldsRef, sink: &mut S, out: &mut W)
    ensures { Took S.takes (sections (contents_in fields.now)) sink.old out.old sink.new out.new }
{
    let FieldsRef {
        kind,
        byte4,
        parts,
        subs,
        maps,
        last,
        ..
    } = *fields;
    sink.bytes(&magic(kind), out);
    sink.bytes(&[byte4], out);
    put_each(parts, put_part, sink, out);
    sink.padding(2, out);
    put_each(subs, put_head, sink, out);
    if let Kind::Dtz = kind {
        put_each(maps, put_map, sink, out);
        sink.padding(2, out);
    }
    put_each(subs, put_index, sink, out);
    put_each(subs, put_lengths, sink, out);
    put_each(subs, put_blocks, sink, out);
    sink.padding(64, out);
    sink.bytes(last, out);
}

/// Hands the sections of items to a sink, item by item.
fn put_each<T, W, S: SectionSink<W>, F: Fn(&T, &mut S, &mut W)>(
    items: &[T],
    put: F,
    sink: &mut S,
    out: &mut W,
)
    requires { F.IsAlwaysCallable put }
    ensures { (sections : T → List Section) → TakesAs F.Fn S.takes put sections → Took S.takes (flat_map sections items.now) sink.old out.old sink.new out.new }
{
    'items: for item in items {
        put(item, sink, out);
    }
}

fn put_part<W, S: SectionSink<W>>(part: &PartBytes, sink: &mut S, out: &mut W)
    ensures { Took S.takes (part_sections (part_of part.now)) sink.old out.old sink.new out.new }
{
    sink.bytes(&part.order, out);
    sink.bytes(&part.men, out);
}

// ---- headers

/// Hands the header of a subtable: its flags and one byte of a constant one, else its sizes, its code and its dictionary.
fn put_head<W, S: SectionSink<W>>(sub: &Sub, sink: &mut S, out: &mut W)
    ensures { Took S.takes (head_sections (subtable_of sub.now)) sink.old out.old sink.new out.new }
{
    match sub {
        Sub::Constant { flags, byte } => {
            sink.bytes(&[*flags], out);
            sink.bytes(&[*byte], out);
        }
        Sub::Pairs {
            flags,
            block_bits,
            span_bits,
            extra,
            blocks,
            code,
            dict,
            ..
        } => {
            sink.bytes(&[*flags], out);
            sink.bytes(&[*block_bits], out);
            sink.bytes(&[*span_bits], out);
            sink.bytes(&[*extra], out);
            sink.bytes(&blocks.to_le_bytes(), out);
            sink.bytes(&[code.max()], out);
            sink.bytes(&[code.min()], out);
            sink.numbers(code.lowest(), out);
            let count = dict.symbols();
            sink.bytes(&count.to_le_bytes(), out);
            sink.symbols(dict, out);
            sink.spare((count % 2) as u64, out);
        }
    }
}

// ---- maps

/// Hands a list's length as one byte, and its items as one byte each.
fn put_short_list<W, S: SectionSink<W>>(list: &Vec<u8>, sink: &mut S, out: &mut W)
    ensures { Took S.takes (list_sections 1 list.now.items) sink.old out.old sink.new out.new }
{
    sink.bytes(&(list.len() as u64).to_le_bytes()[..1], out);
    sink.bytes(list, out);
}

/// Hands a list's length as two bytes, and its items as two bytes each.
fn put_wide_list<W, S: SectionSink<W>>(list: &Vec<u16>, sink: &mut S, out: &mut W)
    ensures { Took S.takes (list_sections 2 list.now.items) sink.old out.old sink.new out.new }
{
    sink.bytes(&(list.len() as u64).to_le_bytes()[..2], out);
    sink.numbers(list, out);
}

fn put_map<W, S: SectionSink<W>>(map: &Option<Map>, sink: &mut S, out: &mut W)
    ensures { Took S.takes (map_sections (option_map map_of map.now)) sink.old out.old sink.new out.new }
{
    match map {
        None => {}
        Some(Map::Bytes(lists)) => put_each(lists, put_short_list, sink, out),
        Some(Map::Wide(lists)) => {
            sink.padding(2, out);
            put_each(lists, put_wide_list, sink, out);
        }
    }
}

// ---- sparse indexes, block lengths, blocks

fn put_index<W, S: SectionSink<W>>(sub: &Sub, sink: &mut S, out: &mut W)
    ensures { Took S.takes (sparse_sections (subtable_of sub.now)) sink.old out.old sink.new out.new }
{
    match sub {
        Sub::Constant { .. } => {}
        Sub::Pairs { sparse, .. } => sink.entries(sparse, out),
    }
}

fn put_lengths<W, S: SectionSink<W>>(sub: &Sub, sink: &mut S, out: &mut W)
    ensures { Took S.takes (lengths_sections (subtable_of sub.now)) sink.old out.old sink.new out.new }
{
    match sub {
        Sub::Constant { .. } => {}
        Sub::Pairs { lengths, .. } => sink.numbers(lengths, out),
    }
}

fn put_blocks<W, S: SectionSink<W>>(sub: &Sub, sink: &mut S, out: &mut W)
    ensures { Took S.takes (blocks_sections (subtable_of sub.now)) sink.old out.old sink.new out.new }
{
    match sub {
        Sub::Constant { .. } => {}
        Sub::Pairs { packed, .. } => {
            sink.padding(64, out);
            sink.bytes(packed, out);
        }
    }
}
