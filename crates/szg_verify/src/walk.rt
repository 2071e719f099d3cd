//! The walk over the positions of a material.

ghost use Rattle.std.specs.Prelude.{◌≡◌, ◌<◌, ◌≤◌, ◌%◌, ◌^◌, ◌&&◌, count_by, length, min, IfOk, IfSome, IsFalse, IsTrue, IsNone, None, if◌then◌else◌};
ghost use Rattle.szg_values.specs.Men.{is_man, is_color};
ghost use Rattle.szg_values.specs.declared.Color.{Color};
ghost use Rattle.szg_chess.specs.Laws.{kinds_of};
ghost use Rattle.szg_chess.specs.Position.{IsPosition};
ghost use Rattle.szg_verify.specs.Entries.{tables_of};
ghost use Rattle.szg_verify.specs.Memory.{AreRight};
ghost use Rattle.szg_verify.specs.Verified.{is_checked};
ghost use Rattle.szg_verify.specs.Walk.{IsFirstRefused, IsRangeChecked, IsRefused, colored_men, count_to, has_lone_pawns, has_pawn, is_position, is_walked, movers_to, number_count, placed_by, position_by, position_count, positions_by, shard_start};

use crate::memory::clear;
use crate::{Cell, Condition, DtzTables, EntrySteps, check_position};
use arrayvec::ArrayVec;
use szg_chess::Position;
use szg_probe::Tables;
use szg_values::{Color, Man, Material, Square};

/// The numbers that are checked before the watcher sees how far the walk has come.
const CHUNK: u64 = 65_536;

/// What a walk over positions found.
#[derive(Drop)]
pub struct Walked {
    /// The number of positions that were checked.
    pub positions: u64,
    /// The first position that does not pass.
    pub refused: Option<RefusedPosition>,
}

/// A position that does not pass.
#[derive(Drop)]
pub struct RefusedPosition {
    /// The number that places its men.
    pub number: u64,
    /// The position.
    pub position: Position,
    /// A condition that it breaks.
    pub condition: Condition,
}

/// Sees how a verification goes.
pub trait Watcher {
    /// Sees that the numbers of a range that ends at `to` were checked below `done`, and how many positions they placed.
    fn see_progress(&mut self, material: &Material, done: u64, to: u64, positions: u64);

    /// Sees that the walk over a material or a shard has ended.
    fn end(&mut self);
}

/// Returns the number of ways to put the men of a material on squares, 64 for each man.
pub fn number_count(material: &Material) -> u64
    ensures count { result ≡ number_count (colored_men material.now) }
    ensures within { result ≤ 64 ^ 6 }
{
    let men = colored_men(material);
    64_u64.pow(men.len() as u32)
}

/// One of the ranges of numbers into which the walk over a material is split: all have as many numbers, or one more.
#[derive(Clone, Copy)]
pub struct Shard {
    /// The number of shards before it.
    pub before: u16,
    /// The number of all shards.
    pub shards: u16,
}

/// Returns the number with which the shard begins that comes after `before` others, and with which the one before it ends.
pub fn shard_start(material: &Material, shards: u16, before: u16) -> u64
    requires { 0 < shards }
    ensures { result ≡ shard_start (number_count (colored_men material.now)) shards before }
{
    number_count(material) * u64::from(before) / u64::from(shards)
}

/// Checks the positions of a material that the numbers from `from` to `to` place, `to` left out, up to the first that
/// does not pass. Both sides move; White has the men of the first side. One position of each set of images by flips of
/// the board is enough: White's king is on the files a to d, unless a side has two pawns, and without pawns on the ranks
/// 1 to 4. The watcher sees each 65,536 numbers, and the end of a range that passes. The cells are room for what was found:
/// the more there are, the faster it is, up to 27 (with pawns 69) for each way to put the men but White's king on squares; none
/// is right too.
///
/// Errors: those of the tables.
pub fn verify_range<T: Tables, D: DtzTables<Fault = T::Fault>, W: Watcher>(
    classes: &mut T,
    distances: &mut D,
    material: &Material,
    from: u64,
    to: u64,
    cells: &mut [Cell],
    watcher: &mut W,
) -> Result<Walked, T::Fault>
    ensures same_classes { T.stored classes.new ≡ T.stored classes.old }
    ensures same_distances { D.distances distances.new ≡ D.distances distances.old }
    ensures checked { IfOk result (λ w. IsNone w.refused → IsRangeChecked (tables_of (T.stored classes.old) (D.distances distances.old)) material.now from to) }
    ensures refused { IfOk result (λ w. IfSome w.refused (λ r. IsFirstRefused (tables_of (T.stored classes.old) (D.distances distances.old)) material.now from to r.number r.position r.condition)) }
    // Each position counts once, up to the first that does not pass.
    ensures counted { IfOk result (λ w. IsNone w.refused → w.positions ≡ min (position_count (colored_men material.now) from to) u64.MAX) }
    ensures counted_to { IfOk result (λ w. IfSome w.refused (λ r. w.positions ≡ min (count_to (colored_men material.now) from r.number r.position.mover) u64.MAX)) }
{
    clear(cells);
    let colored = colored_men(material);
    let men = colored.as_slice();
    let lone = has_lone_pawns(men);
    let none = !has_pawn(men);
    let mut steps = EntrySteps::new();
    let mut quiet = EntrySteps::new();
    let mut positions: u64 = 0;
    for number in from..to {
        if number % CHUNK == 0 {
            watcher.see_progress(material, number, to, positions);
        }
        if is_walked(lone, none, (number % 64) as u8) {
            match check_number(
                classes, distances, cells, &mut steps, &mut quiet, men, number,
            ) {
                Ok(walked) => {
                    positions = positions.saturating_add(walked.positions);
                    if walked.refused.is_some() {
                        return Ok(Walked {
                            positions,
                            refused: walked.refused,
                        });
                    }
                }
                Err(fault) => return Err(fault),
            }
        }
    }
    watcher.see_progress(material, to, to, positions);
    Ok(Walked {
        positions,
        refused: None,
    })
}

/// Returns whether White's king on a square is walked, if no side has two pawns, and if there is no pawn.
fn is_walked(lone: bool, none: bool, square: u8) -> bool
    ensures { result ≡ is_walked lone none square }
{
    (square % 8 <= 3 || !lone) && (square / 8 <= 3 || !none)
}

/// Returns whether no side has two pawns.
fn has_lone_pawns(men: &[(Man, Color)]) -> bool
    ensures { result ≡ has_lone_pawns men.now }
{
    pawn_count(Color::White, men) <= 1 && pawn_count(Color::Black, men) <= 1
}

/// Counts the pawns of a color.
fn pawn_count(color: Color, men: &[(Man, Color)]) -> usize
    ensures { result ≡ count_by (λ man. is_man Man.Pawn man.0 && is_color color man.1) men.now }
{
    men.iter()
        .filter(|man| is_pawn(man.0) && man.1 == color)
        .count()
}

/// Returns whether some man is a pawn.
fn has_pawn(men: &[(Man, Color)]) -> bool
    ensures { result ≡ has_pawn men.now }
{
    men.iter().any(|man| is_pawn(man.0))
}

fn is_pawn(man: Man) -> bool
    ensures { result ≡ is_man Man.Pawn man }
{
    man == Man::Pawn
}

/// Checks the positions that a number places, with each side to move.
fn check_number<T: Tables, D: DtzTables<Fault = T::Fault>>(
    classes: &mut T,
    distances: &mut D,
    cells: &mut [Cell],
    steps: &mut EntrySteps,
    quiet: &mut EntrySteps,
    men: &[(Man, Color)],
    number: u64,
) -> Result<Walked, T::Fault>
    requires few { length men.now ≤ 6 }
    requires right { AreRight men.now (tables_of (T.stored classes.old) (D.distances distances.old)) cells.old }
    ensures same_classes { T.stored classes.new ≡ T.stored classes.old }
    ensures same_distances { D.distances distances.new ≡ D.distances distances.old }
    ensures right { AreRight men.now (tables_of (T.stored classes.old) (D.distances distances.old)) cells.new }
    ensures checked { IfOk result (λ w. IsNone w.refused → (mover : Color) → IsPosition (position_by number men.now mover) → IsTrue (is_checked (tables_of (T.stored classes.old) (D.distances distances.old)) (position_by number men.now mover))) }
    ensures refused { IfOk result (λ w. IfSome w.refused (λ r. (r.number ≡ number) × IsRefused (tables_of (T.stored classes.old) (D.distances distances.old)) (placed_by number men.now) r.position r.condition)) }
    ensures counted { IfOk result (λ w. IsNone w.refused → w.positions ≡ positions_by men.now (movers_to Color.Black) number) }
    ensures counted_to { IfOk result (λ w. IfSome w.refused (λ r. w.positions ≡ positions_by men.now (movers_to r.position.mover) number)) }
{
    let placed = place(number, men);
    let white = match check_placed(
        classes,
        distances,
        cells,
        steps,
        quiet,
        number,
        placed.as_slice(),
        Color::White,
    ) {
        Ok(walked) => walked,
        Err(fault) => return Err(fault),
    };
    if white.refused.is_some() {
        return Ok(white);
    }
    match check_placed(
        classes,
        distances,
        cells,
        steps,
        quiet,
        number,
        placed.as_slice(),
        Color::Black,
    ) {
        Ok(black) => Ok(Walked {
            positions: white.positions.saturating_add(black.positions),
            refused: black.refused,
        }),
        Err(fault) => Err(fault),
    }
}

/// Checks the position of the men that a number places and a side to move. If there is none, no position is checked.
fn check_placed<T: Tables, D: DtzTables<Fault = T::Fault>>(
    classes: &mut T,
    distances: &mut D,
    cells: &mut [Cell],
    steps: &mut EntrySteps,
    quiet: &mut EntrySteps,
    number: u64,
    placed: &[(Man, Color, Square)],
    mover: Color,
) -> Result<Walked, T::Fault>
    requires right { AreRight (kinds_of placed.now) (tables_of (T.stored classes.old) (D.distances distances.old)) cells.old }
    ensures same_classes { T.stored classes.new ≡ T.stored classes.old }
    ensures same_distances { D.distances distances.new ≡ D.distances distances.old }
    ensures right { AreRight (kinds_of placed.now) (tables_of (T.stored classes.old) (D.distances distances.old)) cells.new }
    ensures checked { IfOk result (λ w. IsNone w.refused → IsPosition (record { placed_men = placed.now; mover = mover; en_passant = None }) → IsTrue (is_checked (tables_of (T.stored classes.old) (D.distances distances.old)) (record { placed_men = placed.now; mover = mover; en_passant = None }))) }
    ensures refused { IfOk result (λ w. IfSome w.refused (λ r. (r.number ≡ number) × IsRefused (tables_of (T.stored classes.old) (D.distances distances.old)) placed.now r.position r.condition)) }
    ensures mover { IfOk result (λ w. IfSome w.refused (λ r. r.position.mover ≡ mover)) }
    ensures counted { IfOk result (λ w. w.positions ≡ (if is_position (record { placed_men = placed.now; mover = mover; en_passant = None }) then 1 else 0)) }
{
    let position = match Position::new(placed, mover, None) {
        Ok(position) => position,
        Err(_) => {
            return Ok(Walked {
                positions: 0,
                refused: None,
            });
        }
    };
    let broken = match check_position(classes, distances, cells, steps, quiet, &position) {
        Ok(broken) => broken,
        Err(fault) => return Err(fault),
    };
    match broken {
        None => Ok(Walked {
            positions: 1,
            refused: None,
        }),
        Some(condition) => Ok(Walked {
            positions: 1,
            refused: Some(RefusedPosition {
                number,
                position,
                condition,
            }),
        }),
    }
}

/// Returns the men on the squares that a number says.
fn place(number: u64, men: &[(Man, Color)]) -> ArrayVec<(Man, Color, Square), 6>
    requires { length men.now ≤ 6 }
    ensures placed { result.items ≡ placed_by number men.now }
    ensures kinds { kinds_of result.items ≡ men.now }
{
    let mut placed = ArrayVec::new();
    let mut rest = number;
    for man in men {
        placed.push((man.0, man.1, square_of(rest)));
        rest /= 64;
    }
    placed
}

/// Returns the square of the last digit of a number in base 64.
fn square_of(number: u64) -> Square
    ensures { result ≡ number % 64 }
{
    match Square::new((number % 64) as u8) {
        Some(square) => square,
        None => unreachable!(),
    }
}

/// Returns the men of a material with their colors, the first side as White.
pub(crate) fn colored_men(material: &Material) -> ArrayVec<(Man, Color), 6>
    ensures men { result.items ≡ colored_men material.now }
    ensures few { length result.items ≤ 6 }
{
    let codes = material.men();
    let mut men = ArrayVec::new();
    for code in codes.as_slice() {
        men.push((Man::of_code(*code), Color::of_code(*code)));
    }
    men
}
