//! Files of tables, byte by byte.
use std::alloc::{AllocError, Global};

/// The sixteen bytes at each file's end.
const LAST: [u8; 16] = [0, 1, 2, 3, 4, 5, 6, 7, 8, 9, 10, 11, 12, 13, 14, 15];

/// Appends `count` equal bytes.
fn add(bytes: &mut Vec<u8>, byte: u8, count: usize) -> Result<(), AllocError> {
    for _ in 0..count {
        bytes.push(byte)?;
    }
    Ok(())
}

/// Returns these bytes, then `zeros` zeros, then the sixteen bytes at the end.
fn with_zeros(alloc: Global, front: &[u8], zeros: usize) -> Result<Vec<u8>, AllocError> {
    let mut bytes = Vec::from_slice(alloc, front)?;
    add(&mut bytes, 0x00, zeros)?;
    bytes.extend_from_slice(&LAST)?;
    Ok(bytes)
}

/// King and knight against king, WDL: both sides constant, of value 2.
pub fn knvk_wdl_constant(alloc: Global) -> Result<Vec<u8>, AllocError> {
    knvk_wdl_with(alloc, 2)
}

/// The same with this value where the name's first side moves.
pub fn knvk_wdl_with(alloc: Global, value: u8) -> Result<Vec<u8>, AllocError> {
    let front = [
        0x71, 0xe8, 0x23, 0x5d, 0x01, 0x00, 0x66, 0x22, 0xee, 0x00, 0x80, value, 0x80, 0x02,
    ];
    with_zeros(alloc, &front, 50)
}

/// King and queen against king, WDL. Side 0 has the values 2, 4, 2, 4 .. as words of one bit, in 123 blocks of 32
/// bytes; side 1 is constant, of value 2.
pub fn kqvk_wdl_unpaired(alloc: Global) -> Result<Vec<u8>, AllocError> {
    let front = [
        0x71, 0xe8, 0x23, 0x5d, 0x01, 0x00, 0x66, 0x55, 0xee, 0x00, 0x00, 0x05, 0x10, 0x01, 0x7b,
        0x00, 0x00, 0x00, 0x01, 0x01, 0x00, 0x00, 0x02, 0x00, 0x02, 0xf0, 0xff, 0x04, 0xf0, 0xff,
        0x80, 0x02, 0x7b, 0x00, 0x00, 0x00, 0x9c, 0x05,
    ];
    let mut bytes = Vec::from_slice(alloc, &front)?;
    for _ in 0..122 {
        bytes.extend_from_slice(&[0xff, 0x00])?;
    }
    bytes.extend_from_slice(&[0x63, 0x00, 0xff, 0xff])?;
    add(&mut bytes, 0x00, 34)?;
    add(&mut bytes, 0x55, 122 * 32 + 12)?;
    add(&mut bytes, 0x50, 1)?;
    add(&mut bytes, 0x00, 19 + 32)?;
    bytes.extend_from_slice(&LAST)?;
    Ok(bytes)
}

/// King and queen against king, WDL. Side 0 has the value 4 everywhere: the bit 0 is its word, and the bit 1 is no word's.
/// Its 123 blocks of 32 bytes begin at offset 320. Side 1 is constant, of value 2.
pub fn kqvk_wdl_lone_word(alloc: Global) -> Result<Vec<u8>, AllocError> {
    let unpaired = kqvk_wdl_unpaired(alloc)?;
    let mut bytes = Vec::new(alloc);
    for (at, byte) in unpaired.iter().enumerate() {
        bytes.push(if at == 20 {
            1
        } else if 320 <= at && at < 4256 {
            0
        } else {
            *byte
        })?;
    }
    Ok(bytes)
}

/// These bytes with another byte at an offset, if they have that one.
pub fn with_byte(bytes: Vec<u8>, at: usize, byte: u8) -> Vec<u8> {
    let mut bytes = bytes;
    if at < bytes.len() {
        bytes[at] = byte;
    }
    bytes
}

/// The first `count` bytes, or all if there are fewer.
pub fn first_bytes(alloc: Global, bytes: &[u8], count: usize) -> Result<Vec<u8>, AllocError> {
    Vec::from_slice(alloc, &bytes[..count.min(bytes.len())])
}

/// King and pawn against king, DTZ, all constant: part a has a map of bytes, part b one of two bytes an item.
pub fn kpvk_dtz_mapped(alloc: Global) -> Result<Vec<u8>, AllocError> {
    let front = [
        0xd7, 0x66, 0x0c, 0xa5, 0x03, 0x00, 0x01, 0x06, 0x0e, 0x00, 0x01, 0x06, 0x0e, 0x00, 0x01,
        0x06, 0x0e, 0x00, 0x01, 0x06, 0x0e, 0x00, 0x82, 0x00, 0x92, 0x00, 0x80, 0x00, 0x80, 0x00,
        0x01, 0x07, 0x00, 0x00, 0x00, 0x00, 0x01, 0x00, 0x2c, 0x01, 0x00, 0x00, 0x00, 0x00, 0x00,
        0x00,
    ];
    with_zeros(alloc, &front, 18)
}

/// King and pawn against king, DTZ, of many shapes. The parts differ in their bytes. Part a is constant, with a map of
/// bytes; its lists have 2, 0, 1 and 3 items. Part b has the values 300, 2, 300, 2 .. in one block of 92 words, each of
/// one bit and for 256 values, and a map of two bytes an item; its lists have 1, 3, 0 and 2 items.
pub fn kpvk_dtz_shapes(alloc: Global) -> Result<Vec<u8>, AllocError> {
    let front = [
        0xd7, 0x66, 0x0c, 0xa5, 0x82, 0x00, 0x01, 0x06, 0x0e, 0x01, 0x01, 0x0e, 0x06, 0x02, 0x01,
        0x06, 0x0e, 0x30, 0x21, 0x56, 0x7e, 0x00, 0x82, 0x05, 0x12, 0x04, 0x0f, 0x00, 0x01, 0x00,
        0x00, 0x00, 0x02, 0x01, 0x09, 0x00, 0x07, 0x00, 0x0a, 0x00, 0x2c, 0xf1, 0xff, 0x02, 0xf0,
        0xff, 0x00, 0x10, 0x00, 0x02, 0x20, 0x00, 0x03, 0x30, 0x00, 0x04, 0x40, 0x00, 0x05, 0x50,
        0x00, 0x06, 0x60, 0x00, 0x07, 0x70, 0x00, 0x08, 0x80, 0x00, 0x80, 0x00, 0x81, 0x00, 0x02,
        0x0b, 0x0c, 0x00, 0x01, 0x0d, 0x03, 0x0e, 0x0f, 0x10, 0x01, 0x00, 0x2c, 0x01, 0x03, 0x00,
        0x01, 0x00, 0x02, 0x00, 0x03, 0x00, 0x00, 0x00, 0x02, 0x00, 0x04, 0x00, 0x05, 0x00, 0x00,
        0x00, 0x00, 0x00, 0x00, 0x40, 0x8b, 0x5b,
    ];
    let mut bytes = Vec::from_slice(alloc, &front)?;
    add(&mut bytes, 0x00, 16)?;
    add(&mut bytes, 0xff, 11)?;
    add(&mut bytes, 0xf0, 1)?;
    add(&mut bytes, 0x00, 4 + 48)?;
    bytes.extend_from_slice(&LAST)?;
    Ok(bytes)
}

/// Tables of constants: `parts` parts of the same bytes, and two bytes for each subtable.
fn constants(
    alloc: Global,
    front: &[u8],
    parts: usize,
    part: &[u8],
    subtables: &[u8],
) -> Result<Vec<u8>, AllocError> {
    let mut bytes = Vec::from_slice(alloc, front)?;
    for _ in 0..parts {
        bytes.extend_from_slice(part)?;
    }
    if bytes.len() % 2 == 1 {
        bytes.push(0x00)?;
    }
    bytes.extend_from_slice(subtables)?;
    let missing = 64usize.saturating_sub(bytes.len());
    add(&mut bytes, 0x00, missing)?;
    bytes.extend_from_slice(&LAST)?;
    Ok(bytes)
}

/// King and two bishops against king, WDL, constant; the men in this order.
pub fn kbbvk_wdl_constant(alloc: Global, men: [u8; 4]) -> Result<Vec<u8>, AllocError> {
    let [a, b, c, d] = men;
    let front = [0x71, 0xe8, 0x23, 0x5d, 0x01];
    constants(
        alloc,
        &front,
        1,
        &[0x00, a, b, c, d],
        &[0x80, 0x02, 0x80, 0x02],
    )
}

/// King and pawns against king, WDL, all constant; these are the men of each part.
pub fn pawns_wdl_constant(alloc: Global, part: &[u8]) -> Result<Vec<u8>, AllocError> {
    let front = [0x71, 0xe8, 0x23, 0x5d, 0x03];
    let subtables = [
        0x80, 0x02, 0x80, 0x02, 0x80, 0x02, 0x80, 0x02, 0x80, 0x02, 0x80, 0x02, 0x80, 0x02, 0x80,
        0x02,
    ];
    constants(alloc, &front, 4, part, &subtables)
}

/// King and pawn against king and pawn, DTZ, all constant: part a stores the side to move second.
pub fn kpvkp_dtz_constant(alloc: Global) -> Result<Vec<u8>, AllocError> {
    let front = [0xd7, 0x66, 0x0c, 0xa5, 0x02];
    let part = [0x00, 0x01, 0x01, 0x09, 0x06, 0x0e];
    let subtables = [0x81, 0x00, 0x80, 0x00, 0x80, 0x00, 0x80, 0x00];
    constants(alloc, &front, 4, &part, &subtables)
}

/// King and pawn against king, WDL, all constant: part a has the values 0 and 1 for its sides, part b 2 and 3, and so on.
pub fn kpvk_wdl_numbered(alloc: Global) -> Result<Vec<u8>, AllocError> {
    let front = [0x71, 0xe8, 0x23, 0x5d, 0x03];
    let subtables = [
        0x80, 0x00, 0x80, 0x01, 0x80, 0x02, 0x80, 0x03, 0x80, 0x04, 0x80, 0x05, 0x80, 0x06, 0x80,
        0x07,
    ];
    constants(alloc, &front, 4, &[0x00, 0x11, 0x66, 0xee], &subtables)
}
