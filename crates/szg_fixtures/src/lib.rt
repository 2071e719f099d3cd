//! Table files for tests, byte by byte, and a device that counts its calls.
#![tactic(auto)]

mod counted;

pub use counted::Counted;
use std::alloc::{AllocError, Global};
use szg_values::Kind;

/// The bytes of a file, with its table's name and kind.
#[derive(Drop)]
pub struct Fixture {
    pub name: &'static str,
    pub kind: Kind,
    pub bytes: Vec<u8>,
}

impl Fixture {
    /// Returns the file with other bytes at some offsets; those that it doesn't have are left out.
    pub fn changed(&self, alloc: Global, changes: &[(usize, u8)]) -> Result<Fixture, AllocError> {
        let mut bytes = Vec::from_slice(alloc, &self.bytes)?;
        for (at, byte) in changes {
            if *at < bytes.len() {
                bytes[*at] = *byte;
            }
        }
        Ok(Fixture {
            name: self.name,
            kind: self.kind,
            bytes,
        })
    }
}

/// Some bytes, and how often they are repeated.
type Row<'a> = (&'a [u8], usize);

/// The last sixteen bytes of each file.
const LAST: [u8; 16] = [0, 1, 2, 3, 4, 5, 6, 7, 8, 9, 10, 11, 12, 13, 14, 15];

/// Magic, byte 4, the single part and a padding byte of the WDL tables of king and queen against king.
const QUEEN: [u8; 10] = [0x71, 0xe8, 0x23, 0x5d, 0x01, 0x00, 0x66, 0x55, 0xee, 0x00];

/// Magic, byte 4, the four parts and a padding byte of the DTZ tables of king and pawn against king.
const PAWN: [u8; 22] = [
    0xd7, 0x66, 0x0c, 0xa5, 0x03, 0x00, 0x01, 0x06, 0x0e, 0x00, 0x01, 0x06, 0x0e, 0x00, 0x01, 0x06,
    0x0e, 0x00, 0x01, 0x06, 0x0e, 0x00,
];

/// The header of a side whose words of one bit are the values 2 and 4, in 123 blocks of 32 bytes.
const HEAD: [u8; 20] = [
    0x00, 0x05, 0x10, 0x01, 0x7b, 0x00, 0x00, 0x00, 0x01, 0x01, 0x00, 0x00, 0x02, 0x00, 0x02, 0xf0,
    0xff, 0x04, 0xf0, 0xff,
];

/// The one sparse entry of such a side.
const SPARSE: [u8; 6] = [0x7b, 0x00, 0x00, 0x00, 0x9c, 0x05];

/// The block length of each of 122 blocks of 256 values.
const FULL: [u8; 2] = [0xff, 0x00];

/// The lengths of one more block, of 100 values, and of one that does not exist.
const REST: [u8; 4] = [0x63, 0x00, 0xff, 0xff];

/// The number of bytes with the words 0, 1, 0, 1 .. of such blocks. One byte with four more words follows.
const WORDS: usize = 122 * 32 + 12;

/// The number of unused bytes of the last block, plus the padding after it.
const SPARE: usize = 19 + 32;

/// A file of these rows, one after another.
fn file(
    alloc: Global,
    name: &'static str,
    kind: Kind,
    rows: &[Row],
) -> Result<Fixture, AllocError> {
    let mut bytes = Vec::new(alloc);
    for (row, times) in rows {
        for _ in 0..*times {
            bytes.extend_from_slice(row)?;
        }
    }
    Ok(Fixture { name, kind, bytes })
}

/// These bytes, `zeros` zeros, and the last sixteen bytes.
fn with_zeros(
    alloc: Global,
    name: &'static str,
    kind: Kind,
    front: &[u8],
    zeros: usize,
) -> Result<Fixture, AllocError> {
    let rows = [(front, 1), (&[0x00], zeros), (&LAST, 1)];
    file(alloc, name, kind, &rows)
}

/// Both sides are constant, with the value 2.
pub fn knvk_wdl_constant(alloc: Global) -> Result<Fixture, AllocError> {
    let front = [
        0x71, 0xe8, 0x23, 0x5d, 0x01, 0x00, 0x66, 0x22, 0xee, 0x00, 0x80, 0x02, 0x80, 0x02,
    ];
    with_zeros(alloc, "KNvK", Kind::Wdl, &front, 50)
}

/// Both sides are constant, with the value 2.
pub fn kbvk_wdl_constant(alloc: Global) -> Result<Fixture, AllocError> {
    let front = [
        0x71, 0xe8, 0x23, 0x5d, 0x01, 0x00, 0x66, 0x33, 0xee, 0x00, 0x80, 0x02, 0x80, 0x02,
    ];
    with_zeros(alloc, "KBvK", Kind::Wdl, &front, 50)
}

/// Side 0 has the value 4 at `index`, which is below 31,332, and the value 2 at the others, as words of one bit in 123
/// blocks of 32 bytes. Side 1 is constant, with the value 2.
pub fn knvk_wdl_with_a_win(alloc: Global, index: u64) -> Result<Fixture, AllocError> {
    let before = (index / 8) as usize;
    let after = (WORDS + SPARE).saturating_sub(before);
    file(
        alloc,
        "KNvK",
        Kind::Wdl,
        &[
            (
                &[0x71, 0xe8, 0x23, 0x5d, 0x01, 0x00, 0x66, 0x22, 0xee, 0x00],
                1,
            ),
            (&HEAD, 1),
            (&[0x80, 0x02], 1),
            (&SPARSE, 1),
            (&FULL, 122),
            (&REST, 1),
            (&[0x00], 34 + before),
            (&[0x80 >> (index % 8)], 1),
            (&[0x00], after),
            (&LAST, 1),
        ],
    )
}

/// The stored side is constant, with the value 0.
pub fn knvk_dtz_constant(alloc: Global) -> Result<Fixture, AllocError> {
    let front = [
        0xd7, 0x66, 0x0c, 0xa5, 0x01, 0x00, 0x06, 0x02, 0x0e, 0x00, 0x80, 0x00,
    ];
    with_zeros(alloc, "KNvK", Kind::Dtz, &front, 52)
}

/// White to move wins, Black to move loses: true of each placement but stalemates and those where Black may capture the
/// queen.
pub fn kqvk_wdl_true_but_for_ends(alloc: Global) -> Result<Fixture, AllocError> {
    let front = [
        0x71, 0xe8, 0x23, 0x5d, 0x01, 0x00, 0x66, 0x55, 0xee, 0x00, 0x80, 0x04, 0x80, 0x00,
    ];
    with_zeros(alloc, "KQvK", Kind::Wdl, &front, 50)
}

/// Four parts with two constant sides each: White to move wins.
pub fn knvkp_wdl_constant(alloc: Global) -> Result<Fixture, AllocError> {
    file(
        alloc,
        "KNvKP",
        Kind::Wdl,
        &[
            (&[0x71, 0xe8, 0x23, 0x5d, 0x03], 1),
            (&[0x00, 0x99, 0x66, 0x22, 0xee], 4),
            (&[0x00], 1),
            (&[0x80, 0x04, 0x80, 0x00], 4),
            (&[0x00], 22),
            (&LAST, 1),
        ],
    )
}

/// Side 0 has the values 2, 4, 2, 4 .. as words of one bit, in 123 blocks of 32 bytes. Side 1 is constant, with the
/// value 2.
pub fn kqvk_wdl_unpaired(alloc: Global) -> Result<Fixture, AllocError> {
    file(
        alloc,
        "KQvK",
        Kind::Wdl,
        &[
            (&QUEEN, 1),
            (&HEAD, 1),
            (&[0x80, 0x02], 1),
            (&SPARSE, 1),
            (&FULL, 122),
            (&REST, 1),
            (&[0x00], 34),
            (&[0x55], WORDS),
            (&[0x50], 1),
            (&[0x00], SPARE),
            (&LAST, 1),
        ],
    )
}

/// Both sides have the values 2, 4, 2, 4 .. as words of one bit.
pub fn kqvk_wdl_both_sides(alloc: Global) -> Result<Fixture, AllocError> {
    file(
        alloc,
        "KQvK",
        Kind::Wdl,
        &[
            (&QUEEN, 1),
            (&HEAD, 2),
            (&SPARSE, 2),
            (&FULL, 122),
            (&REST, 1),
            (&FULL, 122),
            (&REST, 1),
            (&[0x00], 18),
            (&[0x55], WORDS),
            (&[0x50], 1),
            (&[0x00], SPARE),
            (&[0x55], WORDS),
            (&[0x50], 1),
            (&[0x00], SPARE),
            (&LAST, 1),
        ],
    )
}

/// Each value is 3. The dictionary has one entry, so a padding byte follows it.
pub fn kqvk_dtz_packed(alloc: Global) -> Result<Fixture, AllocError> {
    file(
        alloc,
        "KQvK",
        Kind::Dtz,
        &[
            (
                &[
                    0xd7, 0x66, 0x0c, 0xa5, 0x01, 0x00, 0x06, 0x05, 0x0e, 0x00, 0x00, 0x05, 0x10,
                    0x01, 0x7b, 0x00, 0x00, 0x00, 0x01, 0x01, 0x00, 0x00, 0x01, 0x00, 0x03, 0xf0,
                    0xff, 0x00,
                ],
                1,
            ),
            (&SPARSE, 1),
            (&FULL, 122),
            (&REST, 1),
            (&[0x00], 38 + 123 * 32 + 32),
            (&LAST, 1),
        ],
    )
}

/// The first bytes of a file whose last symbol would have 512 values: each symbol is the pair of the previous one
/// with itself.
pub fn kqvk_wdl_with_a_long_symbol(alloc: Global) -> Result<Fixture, AllocError> {
    file(
        alloc,
        "KQvK",
        Kind::Wdl,
        &[
            (&QUEEN, 1),
            (
                &[
                    0x00, 0x05, 0x10, 0x01, 0x7b, 0x00, 0x00, 0x00, 0x01, 0x01, 0x00, 0x00, 0x0a,
                    0x00,
                ],
                1,
            ),
            (
                &[
                    0x05, 0xf0, 0xff, 0x00, 0x00, 0x00, 0x01, 0x10, 0x00, 0x02, 0x20, 0x00, 0x03,
                    0x30, 0x00, 0x04, 0x40, 0x00, 0x05, 0x50, 0x00, 0x06, 0x60, 0x00, 0x07, 0x70,
                    0x00, 0x08, 0x80, 0x00,
                ],
                1,
            ),
        ],
    )
}

/// The sparse entries of two blocks of 21,760 and 9,572 values, in spans of 1,024.
fn sparse_of_two_blocks(alloc: Global) -> Result<Vec<u8>, AllocError> {
    let mut bytes = Vec::new(alloc);
    for j in 0..31u16 {
        let middle = 1024 * j + 512;
        let (block, offset) = if middle < 21760 {
            (0, middle)
        } else {
            (1, middle - 21760)
        };
        let [low, high] = offset.to_le_bytes();
        bytes.extend_from_slice(&[block, 0, 0, 0, low, high])?;
    }
    Ok(bytes)
}

/// The same values in two blocks, with symbols that are pairs of pairs: up to 256 values per word.
pub fn kqvk_wdl_paired(alloc: Global) -> Result<Fixture, AllocError> {
    let sparse = sparse_of_two_blocks(alloc)?;
    file(
        alloc,
        "KQvK",
        Kind::Wdl,
        &[
            (&QUEEN, 1),
            (
                &[
                    0x00, 0x05, 0x0a, 0x00, 0x02, 0x00, 0x00, 0x00, 0x04, 0x03, 0x04, 0x00, 0x00,
                    0x00, 0x0a, 0x00,
                ],
                1,
            ),
            (
                &[
                    0x02, 0xf0, 0xff, 0x04, 0xf0, 0xff, 0x00, 0x10, 0x00, 0x02, 0x20, 0x00, 0x03,
                    0x30, 0x00, 0x04, 0x40, 0x00, 0x05, 0x50, 0x00, 0x06, 0x60, 0x00, 0x07, 0x70,
                    0x00, 0x08, 0x80, 0x00,
                ],
                1,
            ),
            (&[0x80, 0x02], 1),
            (&sparse, 1),
            (&[0xff, 0x54, 0x63, 0x25], 1),
            (&[0x00], 8),
            (&[0xff], 31),
            (&[0xfe], 1),
            (&[0xff], 14),
            (&[0x61, 0x80], 1),
            (&[0x00], 16),
            (&LAST, 1),
        ],
    )
}

/// The same values as words of one bit, in one block of 131,072 bytes.
pub fn kqvk_wdl_one_block(alloc: Global) -> Result<Fixture, AllocError> {
    file(
        alloc,
        "KQvK",
        Kind::Wdl,
        &[
            (&QUEEN, 1),
            (
                &[
                    0x00, 0x11, 0x10, 0x01, 0x01, 0x00, 0x00, 0x00, 0x01, 0x01, 0x00, 0x00, 0x02,
                    0x00, 0x02, 0xf0, 0xff, 0x04, 0xf0, 0xff, 0x80, 0x02,
                ],
                1,
            ),
            (
                &[0x01, 0x00, 0x00, 0x00, 0x9c, 0x05, 0x63, 0x7a, 0xff, 0xff],
                1,
            ),
            (&[0x00], 22),
            (&[0x55], WORDS),
            (&[0x50], 1),
            (&[0x00], 131072 - 3917),
            (&LAST, 1),
        ],
    )
}

/// All parts are constant. Part a has a map of bytes, part b a wide one.
pub fn kpvk_dtz_mapped(alloc: Global) -> Result<Fixture, AllocError> {
    file(
        alloc,
        "KPvK",
        Kind::Dtz,
        &[
            (&PAWN, 1),
            (&[0x82, 0x00, 0x92, 0x00, 0x80, 0x00, 0x80, 0x00], 1),
            (&[0x01, 0x07, 0x00, 0x00, 0x00, 0x00], 1),
            (
                &[0x01, 0x00, 0x2c, 0x01, 0x00, 0x00, 0x00, 0x00, 0x00, 0x00],
                1,
            ),
            (&[0x00], 18),
            (&LAST, 1),
        ],
    )
}

/// All parts are constant. Part a has these flags, and a map with the numbers 3 and 9 for losses.
pub fn kpvk_dtz_losses(alloc: Global, flags: u8) -> Result<Fixture, AllocError> {
    file(
        alloc,
        "KPvK",
        Kind::Dtz,
        &[
            (&PAWN, 1),
            (&[flags, 0x00, 0x80, 0x00, 0x80, 0x00, 0x80, 0x00], 1),
            (&[0x00, 0x02, 0x03, 0x09, 0x00, 0x00], 1),
            (&[0x00], 28),
            (&LAST, 1),
        ],
    )
}

/// Four parts with two constant sides each.
pub fn kpvk_wdl_constant(alloc: Global) -> Result<Fixture, AllocError> {
    pawns_wdl_constant(alloc, "KPvK", &[0x00, 0x11, 0x66, 0xee], 26)
}

/// One pawn on each side, and four parts with one constant side each.
pub fn kpvkp_wdl_constant(alloc: Global) -> Result<Fixture, AllocError> {
    file(
        alloc,
        "KPvKP",
        Kind::Wdl,
        &[
            (&[0x71, 0xe8, 0x23, 0x5d, 0x02], 1),
            (&[0x00, 0x01, 0x01, 0x09, 0x06, 0x0e], 4),
            (&[0x00], 1),
            (&[0x80, 0x02], 4),
            (&[0x00], 26),
            (&LAST, 1),
        ],
    )
}

/// Six men; both sides are constant.
pub fn kqrbvkn_wdl_constant(alloc: Global) -> Result<Fixture, AllocError> {
    let front = [
        0x71, 0xe8, 0x23, 0x5d, 0x01, 0x00, 0x66, 0x55, 0xee, 0x44, 0x33, 0xaa, 0x80, 0x02, 0x80,
        0x02,
    ];
    with_zeros(alloc, "KQRBvKN", Kind::Wdl, &front, 48)
}

/// The first bytes of a file whose code has 65,535 symbols and words of 15 and 16 bits, with one entry of its
/// dictionary.
pub fn kqvk_wdl_cut_in_its_dictionary(alloc: Global) -> Result<Fixture, AllocError> {
    file(
        alloc,
        "KQvK",
        Kind::Wdl,
        &[
            (&QUEEN, 1),
            (
                &[
                    0x00, 0x05, 0x10, 0x01, 0x7b, 0x00, 0x00, 0x00, 0x10, 0x0f, 0xff, 0xff, 0x00,
                    0x00, 0xff, 0xff, 0x02, 0xf0, 0xff,
                ],
                1,
            ),
        ],
    )
}

/// King and two bishops against king: the kings lead, the bishops follow. Both sides are constant.
pub fn kbbvk_wdl_kings_lead(alloc: Global) -> Result<Fixture, AllocError> {
    let front = [
        0x71, 0xe8, 0x23, 0x5d, 0x01, 0x00, 0x66, 0xee, 0x33, 0x33, 0x80, 0x02, 0x80, 0x02,
    ];
    with_zeros(alloc, "KBBvK", Kind::Wdl, &front, 50)
}

/// The same with the lead group bishop, king, bishop.
pub fn kbbvk_wdl_bishop_leads(alloc: Global) -> Result<Fixture, AllocError> {
    let front = [
        0x71, 0xe8, 0x23, 0x5d, 0x01, 0x00, 0x33, 0x66, 0xee, 0x33, 0x80, 0x02, 0x80, 0x02,
    ];
    with_zeros(alloc, "KBBvK", Kind::Wdl, &front, 50)
}

/// Four parts of these bytes, with two constant sides each, and `zeros` zeros.
fn pawns_wdl_constant(
    alloc: Global,
    name: &'static str,
    part: &[u8],
    zeros: usize,
) -> Result<Fixture, AllocError> {
    file(
        alloc,
        name,
        Kind::Wdl,
        &[
            (&[0x71, 0xe8, 0x23, 0x5d, 0x03], 1),
            (part, 4),
            (&[0x00], 1),
            (&[0x80, 0x02], 8),
            (&[0x00], zeros),
            (&LAST, 1),
        ],
    )
}

/// Two pawns of one side.
pub fn kppvk_wdl_constant(alloc: Global) -> Result<Fixture, AllocError> {
    pawns_wdl_constant(alloc, "KPPvK", &[0x00, 0x11, 0x11, 0x66, 0xee], 22)
}

/// Four pawns of one side.
pub fn kppppvk_wdl_constant(alloc: Global) -> Result<Fixture, AllocError> {
    let part = [0x00, 0x11, 0x11, 0x11, 0x11, 0x66, 0xee];
    pawns_wdl_constant(alloc, "KPPPPvK", &part, 14)
}

/// A DTZ table with one pawn on each side: four parts with one constant side each; part a has these flags.
pub fn kpvkp_dtz_constant(alloc: Global, flags: u8) -> Result<Fixture, AllocError> {
    file(
        alloc,
        "KPvKP",
        Kind::Dtz,
        &[
            (&[0xd7, 0x66, 0x0c, 0xa5, 0x02], 1),
            (&[0x00, 0x01, 0x01, 0x09, 0x06, 0x0e], 4),
            (&[0x00, flags, 0x00, 0x80, 0x00, 0x80, 0x00, 0x80, 0x00], 1),
            (&[0x00], 26),
            (&LAST, 1),
        ],
    )
}

/// Files that have all sections of the format: a constant table, blocks without and with pairs, and maps.
pub fn of_all_sections(alloc: Global) -> Result<Vec<Fixture>, AllocError> {
    let mut all = Vec::new(alloc);
    all.push(knvk_wdl_constant(alloc)?)?;
    all.push(kqvk_wdl_unpaired(alloc)?)?;
    all.push(kqvk_wdl_paired(alloc)?)?;
    all.push(kpvk_dtz_mapped(alloc)?)?;
    Ok(all)
}
