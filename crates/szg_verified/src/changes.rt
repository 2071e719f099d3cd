//! What captures and promotions make of a material.

ghost use Rattle.std.specs.Prelude.{Contains, IfOk, IsTrue, OnOk};
ghost use Rattle.szg_values.specs.Material.{Sides};

use std::alloc::{AllocError, Global};
use std::cmp::Ordering;
use szg_values::{Material, NameFault};

/// The letters of a side, in the order of names.
const ORDER: [char; 6] = ['K', 'Q', 'R', 'B', 'N', 'P'];

/// The pieces that a pawn is promoted to.
const PROMOTED: [char; 4] = ['Q', 'R', 'B', 'N'];

/// Returns the materials that one capture or one promotion makes, but for the two kings alone.
pub fn changes(alloc: Global, material: &Material) -> Result<Vec<Material>, AllocError> {
    let mut found = Vec::new(alloc);
    let name = material.name();
    if let Some((first, second)) = name.as_str().split_once('v') {
        add_captures(alloc, first, second, &mut found)?;
        add_captures(alloc, second, first, &mut found)?;
        add_promotions(alloc, first, second, &mut found)?;
        add_promotions(alloc, second, first, &mut found)?;
    }
    Ok(found)
}

/// Adds what captures of a side's men make.
fn add_captures(
    alloc: Global,
    side: &str,
    other: &str,
    found: &mut Vec<Material>,
) -> Result<(), AllocError> {
    'letters: for letter in &ORDER {
        if *letter != 'K' && side.contains(*letter) {
            let left = changed(alloc, side, *letter, None)?;
            add(alloc, left.as_str(), other, found)?;
        }
    }
    Ok(())
}

/// Adds what promotions of a side's pawns make.
fn add_promotions(
    alloc: Global,
    side: &str,
    other: &str,
    found: &mut Vec<Material>,
) -> Result<(), AllocError> {
    if !side.contains('P') {
        return Ok(());
    }
    'letters: for letter in &PROMOTED {
        let promoted = changed(alloc, side, 'P', Some(*letter))?;
        add(alloc, promoted.as_str(), other, found)?;
    }
    Ok(())
}

/// Returns a side without one man, and with another, in the order of names.
fn changed(
    alloc: Global,
    side: &str,
    without: char,
    with: Option<char>,
) -> Result<String, AllocError> {
    let mut text = String::new(alloc);
    'letters: for letter in &ORDER {
        let mut count = side.chars().filter(|other| other == letter).count();
        if *letter == without {
            count = count.saturating_sub(1);
        }
        if with == Some(*letter) {
            count = count.saturating_add(1);
        }
        for _ in 0..count {
            text.push(*letter)?;
        }
    }
    Ok(text)
}

/// Adds the material of two sides, in either order. Two kings alone are none.
fn add(
    alloc: Global,
    side: &str,
    other: &str,
    found: &mut Vec<Material>,
) -> Result<(), AllocError> {
    let name = format!(in alloc; "{side}v{other}")?;
    let mut parsed = Material::parse(name.as_str());
    if matches!(parsed, Err(NameFault::Sides)) {
        let exchanged = format!(in alloc; "{other}v{side}")?;
        parsed = Material::parse(exchanged.as_str());
    }
    match parsed {
        Ok(material) => Ok(found.push(material)?),
        Err(_) => Ok(()),
    }
}

/// Adds to materials all that captures and promotions lead to from them, each once. Then each comes after what it leads
/// to: fewer men are first, and of as many men fewer pawns.
pub fn add_needed(alloc: Global, materials: &mut Vec<Material>) -> Result<(), AllocError>
    ensures { OnOk result ((m : Sides) → Contains materials.old.items m → Contains materials.new.items m) }
{
    'numbers: for number in 0..usize::MAX {
        let Some(material) = materials.get(number) else {
            break;
        };
        let found = changes(alloc, material)?;
        add_new(found, materials)?;
    }
    materials.sort_by(in_order)
}

/// Returns a material and all that captures and promotions lead to from it, each after what it leads to.
pub fn needed_by(alloc: Global, material: &Material) -> Result<Vec<Material>, AllocError>
    ensures { IfOk result (λ materials. Contains materials.items material.now) }
{
    let mut materials = Vec::new(alloc);
    materials.push(material.copy())?;
    add_needed(alloc, &mut materials)?;
    Ok(materials)
}

/// Adds those of some materials that are not there.
fn add_new(found: Vec<Material>, materials: &mut Vec<Material>) -> Result<(), AllocError>
    ensures { OnOk result ((m : Sides) → Contains materials.old.items m → Contains materials.new.items m) }
{
    'found: for material in found {
        add_once(materials, material)?;
    }
    Ok(())
}

/// Adds a material unless it is there.
pub fn add_once(materials: &mut Vec<Material>, material: Material) -> Result<(), AllocError>
    ensures kept { OnOk result ((m : Sides) → Contains materials.old.items m → Contains materials.new.items m) }
    ensures added { OnOk result (Contains materials.new.items material) }
{
    if !is_among(materials, &material) {
        materials.push(material)?;
    }
    Ok(())
}

/// Returns whether a material is among some.
fn is_among(materials: &[Material], material: &Material) -> bool
    ensures { IsTrue result → Contains materials.now material.now }
{
    for other in materials {
        if other.is_same(material) {
            return true;
        }
    }
    false
}

/// Compares materials: by the number of men, of pawns, and by their men in the order of names.
fn in_order(one: &Material, other: &Material) -> Ordering {
    let (men, others) = (one.men(), other.men());
    let (pawns, other_pawns) = (pawns_in(one), pawns_in(other));
    men.len()
        .cmp(&others.len())
        .then(pawns.cmp(&other_pawns))
        .then(others.as_slice().cmp(men.as_slice()))
}

/// Counts the pawns.
fn pawns_in(material: &Material) -> u8 {
    material.lead_pawns().saturating_add(material.other_pawns())
}
