//! Facts about a material, computed once for many placements.

ghost use Rattle.std.specs.Prelude.{◌≡◌, ◌<◌, ◌≤◌, ℕ, length, if◌then◌else◌};
ghost use Rattle.szg_values.specs.Material.{IsMaterial, is_symmetric, has_pawns, lead_pawns, other_pawns, lead_pawn_code, has_single_lead, man_codes};
ghost use Rattle.szg_count.specs.Laws.{IsIn};
ghost use Rattle.szg_count.specs.Facts.{key_of, with_exchanged_halves};

use crate::cut::{SECOND_PAWN, pawn_codes};
use std::marker::Model;
use szg_values::Material;

/// A material and facts about it.
#[derive(Drop)]
pub struct MaterialInfo {
    material: Material,
    symmetric: bool,
    pawns: bool,
    single: bool,
    lead: u8,
    other: u8,
    code: u8,
    // the key of the material's men, and of the same men with colours exchanged: the eight digits of each side are
    // swapped
    keys: [u64; 2],
}

impl Model for MaterialInfo {
    ghost use Rattle.szg_values.specs.Material.{Sides};
    ghost use Rattle.szg_count.specs.Facts.{IsMaterialInfo};

    ghost Value = { Sides };

    ghost view = { λ t. t.material };

    ghost invariant = { λ t. IsMaterialInfo t.material t.symmetric t.pawns t.single t.lead t.other t.code t.keys };
}

impl MaterialInfo {
    /// Computes the facts about a material.
    pub fn of(material: &Material) -> MaterialInfo
        ensures same { result ≡ material.now }
        ensures named { IsMaterial material.now }
    {
        let codes = material.men();
        let key = codes_key(codes.as_slice());
        MaterialInfo {
            material: material.copy(),
            symmetric: material.symmetric(),
            pawns: material.has_pawns(),
            single: material.single_lead(),
            lead: material.lead_pawns(),
            other: material.other_pawns(),
            code: lead_pawn_code(material, codes.as_slice()),
            keys: [key, key / 16777216 + key % 16777216 * 16777216],
        }
    }

    /// Returns the material.
    pub fn material(&self) -> &Material
        ensures material { result.now ≡ self.now }
        ensures named { IsMaterial self.now }
    {
        &self.material
    }

    /// Returns whether both sides have the same men.
    pub fn symmetric(&self) -> bool
        ensures { result ≡ is_symmetric self.now }
    {
        self.symmetric
    }

    /// Returns whether some man is a pawn.
    pub fn has_pawns(&self) -> bool
        ensures { result ≡ has_pawns self.now }
    {
        self.pawns
    }

    /// Returns whether some man other than a king is the only one of its kind and colour.
    pub fn single_lead(&self) -> bool
        ensures { result ≡ has_single_lead self.now }
    {
        self.single
    }

    /// Returns the number of pawns of the lead colour; 0 without pawns.
    pub fn lead_pawns(&self) -> u8
        ensures { result ≡ lead_pawns self.now }
    {
        self.lead
    }

    /// Returns the number of pawns of the other colour; 0 without pawns.
    pub fn other_pawns(&self) -> u8
        ensures { result ≡ other_pawns self.now }
    {
        self.other
    }

    /// Returns the man code of the lead pawns: 1 if the first side's pawns lead, else 9.
    pub fn lead_pawn_code(&self) -> u8
        ensures { result ≡ lead_pawn_code self.now }
    {
        self.code
    }

    /// Returns the key of the material's men: an octal number in which the digit of each man code is the number of men
    /// of that code.
    pub fn key(&self) -> u64
        ensures key { result ≡ key_of (man_codes self.now) }
        ensures small { result < 281474976710656 }
    {
        self.keys[0]
    }

    /// Returns the key of the material's men, with colours exchanged if `exchanged`. Does not branch on `exchanged`.
    pub fn key_if(&self, exchanged: bool) -> u64
        ensures { result ≡ (if exchanged then with_exchanged_halves (key_of (man_codes self.now)) else key_of (man_codes self.now)) }
    {
        self.keys[usize::from(exchanged)]
    }
}

// Returns the man code of the lead pawns in a material with these man codes.
fn lead_pawn_code(material: &Material, codes: &[u8]) -> u8
    requires material { IsMaterial material.now }
    requires codes { codes.now ≡ man_codes material.now }
    ensures { result ≡ lead_pawn_code material.now }
{
    if material.has_pawns() {
        pawn_codes(material, codes).0
    } else {
        SECOND_PAWN
    }
}

// Returns the key of man codes: the sum of 8 to the power of each code.
fn codes_key(codes: &[u8]) -> u64
    requires few { length codes.now ≤ 6 }
    requires small { (code : ℕ) → IsIn code codes.now → code < 16 }
    ensures key { result ≡ key_of codes.now }
    ensures small { result < 281474976710656 }
{
    let mut key = 0;
    for code in codes {
        key += 1 << (3 * *code);
    }
    key
}
