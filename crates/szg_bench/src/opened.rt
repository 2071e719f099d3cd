//! Look-ups in a table that stays in a source, through a C interface.

use crate::mixed_with;
use std::alloc::Global;
use szg_block::Image;
use szg_file::{Opened, open};
use szg_values::{Kind, Material};

/// Opens the WDL table of this name whose file these bytes are, as a source, and looks the values at these indexes of part
/// a's side 0 up: each asks the source for one block. Gives the values, mixed; 0 where it isn't opened.
#[unsafe(no_mangle)]
pub extern "C" fn szg_bench_opened(
    alloc: Global,
    name: &[u8],
    bytes: &[u8],
    indexes: &[u32],
) -> u64 {
    let Ok(text) = str::from_utf8(name) else {
        return 0;
    };
    let Ok(material) = Material::parse(text) else {
        return 0;
    };
    let Ok(mut opened) = open(alloc, material, Kind::Wdl, Image::new(bytes)) else {
        return 0;
    };
    let mut mix = 0;
    for index in indexes {
        mix = mixed_with(mix, value_of(&mut opened, u64::from(*index)));
    }
    mix
}

/// The value at an index of part a's side 0, and 0 where there is none.
fn value_of(opened: &mut Opened<Image>, index: u64) -> u16 {
    match opened.size(0, 0) {
        Some(size) if index < size => opened.get(0, 0, index).unwrap_or(0),
        _ => 0,
    }
}
