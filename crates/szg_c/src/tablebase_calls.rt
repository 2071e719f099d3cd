//! Calls on a tablebase: tables are added by their bytes, and positions are probed with their captures, the right to
//! capture en passant and the fifty-move counter.
ghost use Rattle.std.specs.Prelude.{◌≡◌, ◌⊎◌, [], IfSome, List, MatchResult};
ghost use Rattle.std.specs.Fn.{CalledAtMut};
ghost use Rattle.std.specs.declared.option.Option.TheVariants.{None};
ghost use Rattle.szg_file.specs.Unread.{unread_file};
ghost use Rattle.szg_mapped.specs.InPlace.{InPlace};
ghost use Rattle.szg_c.specs.Reported.{Stops};
ghost use Rattle.szg_c.specs.Tablebases.{IsAdded, IsClassProbed, IsDistanceProbed, IsMissingReported, IsRankedWritten, files_of, raw_move};
ghost use Rattle.szg_c_positions.specs.Positions.{position_of};

use crate::handle::{put, share, shut, take};
use crate::held_tablebase::HeldTablebase;
use crate::opening::{RawAnswer, fault_status, kind_of, material_of};
use crate::places::place_status;
use crate::texts::print;
use arrayvec::ArrayVec;
use std::alloc::Global;
use szg_c_positions::status::{
    BAD_BLOCK, CHANGED, CONTRADICTION, DONE, EN_PASSANT, IN_CHECK, MAN, MEMORY, MEN, MISSING, NAME,
    NO_CLASS, PAWN_RANK, RANGE, SAME_SQUARE,
};
use szg_c_positions::{RawMan, position_of};
use szg_chess::Position;
use szg_probe::{DistanceFault, RankedMove, probe_dtz, probe_wdl, rank_moves};
use szg_tables::{MappedSet, MappedTable, Missing, MissingReason, number_of_class};
use szg_values::Kind;

/// What a tablebase does not have for a position.
#[repr(C)]
#[derive(Default, Drop)]
pub struct RawMissing {
    /// The name of the table's material, and a zero byte.
    pub name: [u8; 8],
    /// Whether it is a DTZ table.
    pub dtz: bool,
    /// If a block does not decode, its number in its subtable.
    pub block: u32,
    /// Then its offset in the file.
    pub offset: u64,
}

/// The class of a position with the fifty-move counter, and its DTZ.
#[repr(C)]
#[derive(Drop)]
pub struct RawDistance {
    /// 2 win, 1 cursed win, 0 draw, -1 blessed loss, -2 loss.
    pub class: i8,
    /// In plies, negative for a loss.
    pub dtz: i64,
}

/// A legal move, with what it gives the player who makes it.
#[repr(C)]
#[derive(Clone, Copy, Default)]
pub struct RawMove {
    /// The square that the man leaves.
    pub from: u8,
    /// The square that it goes to.
    pub to: u8,
    /// The kind that a pawn is promoted to, else 0.
    pub promotion: u8,
    /// The class with the fifty-move counter, from 2 to -2.
    pub class: i8,
    /// The DTZ from the position before the move, negative for a loss.
    pub dtz: i64,
    /// Whether it is a capture or a pawn's move.
    pub zeroing: bool,
    /// Whether it mates.
    pub mate: bool,
    /// Whether it stalemates.
    pub stalemate: bool,
}

/// Calls a function with no tables; returns its status. It is a function of its own, so that only it has room for a set.
#[cold]
#[inline(never)]
fn with_no_tables<F: FnMut(&mut MappedSet) -> u32>(alloc: Global, function: &mut F) -> u32
    requires { F.IsAlwaysCallable function.old }
    ensures { (left : List InPlace) × CalledAtMut F.FnMut function.old [] result function.new left }
{
    function(&mut MappedSet::of(Vec::new(alloc)))
}

/// Adds a table to a tablebase, behind the others: that of this name and kind whose file the bytes are. It reads and checks
/// all but the blocks. The bytes stay the caller's, and must be there and unchanged as long as a tablebase has the table.
/// Tablebases that share the other tables do not get it.
///
/// Errors: `NAME`, `REFUSED` (then `answer` has the offset and the reason), `MEMORY`; then the tablebase is unchanged.
#[unsafe(no_mangle)]
pub extern "C" fn szg_tablebase_add(
    alloc: Global,
    tablebase: &mut HeldTablebase,
    name: &[u8],
    dtz: bool,
    bytes: &'static [u8],
    answer: &mut RawAnswer,
) -> u32
    ensures added { (result ≡ 0) → IsAdded name.now dtz bytes.now (files_of tablebase.old.value) tablebase.new.value }
    ensures stops { (result ≡ 0 → ⊥) → Stops unread_file name.now dtz bytes.now result answer.new.place answer.new.reason }
    ensures kept { (result ≡ 0 → ⊥) → files_of tablebase.new.value ≡ files_of tablebase.old.value }
    ensures stays { (result ≡ 2 → ⊥) → answer.new ≡ answer.old }
{
    let Some(material) = material_of(name) else {
        return NAME;
    };
    let table = match MappedTable::open(alloc, material, kind_of(dtz), bytes) {
        Ok(table) => table,
        Err(fault) => return fault_status(fault, answer),
    };
    let mut tables = match take(tablebase, alloc) {
        Some(tables) => tables,
        None => match Box::new(alloc, MappedSet::of(Vec::new(alloc))) {
            Ok(tables) => tables,
            Err(_) => return MEMORY,
        },
    };
    let added = tables.push(table);
    put(tablebase, tables);
    match added {
        Ok(()) => DONE,
        Err(_) => MEMORY,
    }
}

/// Makes `second` a second handle of the tables that a tablebase has now. What the second had before is let go.
///
/// Errors: `CLOSED` if the first has none, `MEMORY`; then the second has none.
#[unsafe(no_mangle)]
pub extern "C" fn szg_share_tablebase(
    alloc: Global,
    tablebase: &mut HeldTablebase,
    second: &mut HeldTablebase,
) -> u32
    ensures kept { tablebase.new.value ≡ tablebase.old.value }
    ensures closed { tablebase.old.value ≡ None → result ≡ 5 }
    ensures statuses { IfSome tablebase.old.value (λ files. (result ≡ 0) ⊎ (result ≡ 3)) }
    ensures done { (result ≡ 0) → second.new.value ≡ tablebase.old.value }
    ensures shut { (result ≡ 0 → ⊥) → second.new.value ≡ None }
{
    share(alloc, tablebase, second)
}

/// Lets the tables go.
#[unsafe(no_mangle)]
pub extern "C" fn szg_close_tablebase(alloc: Global, tablebase: &mut HeldTablebase)
    ensures { tablebase.new.value ≡ None }
{
    shut(tablebase, alloc);
}

/// Writes what is missing; returns the status.
#[cold]
#[inline(never)]
fn report_missing(missing: &Missing, lack: &mut RawMissing) -> u32
    ensures reported { IsMissingReported missing.now result lack.old lack.new }
    ensures not_done { result ≡ 0 → ⊥ }
{
    let name = missing.material.name();
    let _ = print(name.as_str(), &mut lack.name);
    lack.dtz = missing.kind == Kind::Dtz;
    match missing.reason {
        MissingReason::Table => MISSING,
        MissingReason::Place(fault) => place_status(fault),
        MissingReason::Value => NO_CLASS,
        MissingReason::Unread(_) => CHANGED,
        MissingReason::Block { number, offset } => {
            lack.block = number;
            lack.offset = offset;
            BAD_BLOCK
        }
    }
}

/// Writes the class of a position by a set of tables; returns the status.
pub(crate) fn class_in(
    set: &mut MappedSet<'_>,
    position: &Position,
    class: &mut i8,
    lack: &mut RawMissing,
) -> u32
    ensures kept { set.new ≡ set.old }
    ensures reported { IsClassProbed set.old position.now result class.new lack.old lack.new }
    ensures class_stays { (result ≡ 0 → ⊥) → class.new ≡ class.old }
{
    match &probe_wdl(set, position) {
        Ok(found) => {
            *class = number_of_class(*found);
            DONE
        }
        Err(missing) => report_missing(missing, lack),
    }
}

/// Probes the class of a position for the side to move (2 win, 1 cursed win, 0 draw, -1 blessed loss, -2 loss), from the
/// tables of a tablebase: with its captures, and with the right to capture en passant on the square that a pawn has just
/// passed over by a double step (64 or more for none). The fifty-move counter is 0.
///
/// Errors, the first that holds: `MAN`, `MEN`, `SAME_SQUARE`, `PAWN_RANK`, `EN_PASSANT`, `IN_CHECK` for what is no position;
/// `MISSING` if a table is not there, `BAD_BLOCK` if a block does not decode, `CHANGED` if a file's bytes have
/// changed and lead to no block, `NO_CLASS` for a value that is no class, and a status of `szg_index` for a placement for which a
/// table has no index: then `lack` has the table. The class is unchanged.
#[unsafe(no_mangle)]
pub extern "C" fn szg_tablebase_wdl(
    alloc: Global,
    tablebase: &mut HeldTablebase,
    men: &[RawMan],
    mover: u8,
    en_passant: u8,
    class: &mut i8,
    lack: &mut RawMissing,
) -> u32
    ensures kept { tablebase.new.value ≡ tablebase.old.value }
    ensures reported { MatchResult (position_of men.now mover en_passant) (λ p. IsClassProbed (files_of tablebase.old.value) p result class.new lack.old lack.new) (λ status. (result ≡ status) × (lack.new ≡ lack.old)) }
    ensures class_stays { (result ≡ 0 → ⊥) → class.new ≡ class.old }
{
    let found = position_of(men, mover, en_passant);
    let position = match &found {
        Ok(position) => position,
        Err(status) => return *status,
    };
    let Some(mut held) = take(tablebase, alloc) else {
        let mut look = |set: &mut MappedSet| class_in(set, position, class, lack);
        return with_no_tables(alloc, &mut look);
    };
    let status = class_in(&mut held, position, class, lack);
    put(tablebase, held);
    status
}

/// Writes the class and the DTZ of a position by a set of tables; returns the status.
fn distance_in(
    set: &mut MappedSet<'_>,
    position: &Position,
    counter: u32,
    distance: &mut RawDistance,
    lack: &mut RawMissing,
) -> u32
    ensures kept { set.new ≡ set.old }
    ensures reported { IsDistanceProbed set.old counter position.now result distance.new lack.old lack.new }
    ensures distance_stays { (result ≡ 0 → ⊥) → distance.new ≡ distance.old }
{
    match &probe_dtz(set, position) {
        Ok(found) => {
            distance.class = number_of_class(found.at_counter(counter).class);
            distance.dtz = found.signed();
            DONE
        }
        Err(DistanceFault::Tables(missing)) => report_missing(missing, lack),
        Err(DistanceFault::Contradiction) => CONTRADICTION,
    }
}

/// Probes the class and the DTZ of a position, as `szg_tablebase_wdl`. `counter` is the number of plies since the last
/// capture or pawn's move: a win or a loss of more plies than it leaves is a cursed win or a blessed loss. The DTZ is the
/// number of plies to the next capture or pawn's move that keeps the class, or to mate, 100 more in a cursed win or a blessed
/// loss, negative in a loss, and 0 for a draw.
///
/// Errors: those of `szg_tablebase_wdl`, `DRAW` and `OUTSIDE_MAP` never; `CONTRADICTION` if the tables contradict themselves.
/// Then the distance is unchanged.
#[unsafe(no_mangle)]
pub extern "C" fn szg_tablebase_dtz(
    alloc: Global,
    tablebase: &mut HeldTablebase,
    men: &[RawMan],
    mover: u8,
    en_passant: u8,
    counter: u32,
    distance: &mut RawDistance,
    lack: &mut RawMissing,
) -> u32
    ensures kept { tablebase.new.value ≡ tablebase.old.value }
    ensures reported { MatchResult (position_of men.now mover en_passant) (λ p. IsDistanceProbed (files_of tablebase.old.value) counter p result distance.new lack.old lack.new) (λ status. (result ≡ status) × (lack.new ≡ lack.old)) }
    ensures distance_stays { (result ≡ 0 → ⊥) → distance.new ≡ distance.old }
{
    let found = position_of(men, mover, en_passant);
    let position = match &found {
        Ok(position) => position,
        Err(status) => return *status,
    };
    let Some(mut held) = take(tablebase, alloc) else {
        let mut look = |set: &mut MappedSet| distance_in(set, position, counter, distance, lack);
        return with_no_tables(alloc, &mut look);
    };
    let status = distance_in(&mut held, position, counter, distance, lack);
    put(tablebase, held);
    status
}

/// Returns a move as numbers.
fn raw_move(ranked: &RankedMove) -> RawMove
    ensures { result ≡ raw_move ranked.now }
{
    RawMove {
        from: ranked.m.from.number(),
        to: ranked.m.to.number(),
        promotion: match ranked.m.promotion {
            Some(man) => man.code(),
            None => 0,
        },
        class: number_of_class(ranked.distance.class),
        dtz: ranked.distance.signed(),
        zeroing: ranked.zeroing,
        mate: ranked.mate,
        stalemate: ranked.stalemate,
    }
}

/// Writes the moves of a position to the beginning of a list, the best first, by a set of tables; returns the status.
fn moves_in(
    set: &mut MappedSet<'_>,
    position: &Position,
    counter: u32,
    moves: &mut [RawMove],
    count: &mut usize,
    lack: &mut RawMissing,
) -> u32
    ensures kept { set.new ≡ set.old }
    ensures reported { IsRankedWritten set.old counter position.now result moves.old moves.new count.new lack.old lack.new }
    ensures stays { (result ≡ 0 → ⊥) → (moves.new ≡ moves.old) × (count.new ≡ count.old) }
{
    let mut ranked = ArrayVec::new();
    match &rank_moves(set, position, counter, &mut ranked) {
        Ok(()) => {}
        Err(DistanceFault::Tables(missing)) => return report_missing(missing, lack),
        Err(DistanceFault::Contradiction) => return CONTRADICTION,
    }
    if moves.len() < ranked.len() {
        return RANGE;
    }
    for i in 0..ranked.len() {
        moves[i] = raw_move(&ranked[i]);
    }
    *count = ranked.len();
    DONE
}

/// Writes the legal moves of a position to the beginning of a list, and their number: the best first, by class, then a win by
/// the least DTZ and a loss by the greatest. A move's class and DTZ are those that it gives the player who makes it, with
/// `counter` as in `szg_tablebase_dtz`. A list of 128 moves has room for each position's.
///
/// Errors: those of `szg_tablebase_dtz`, and `RANGE` if there are more moves than the list has items. Then all stays.
#[unsafe(no_mangle)]
pub extern "C" fn szg_tablebase_moves(
    alloc: Global,
    tablebase: &mut HeldTablebase,
    men: &[RawMan],
    mover: u8,
    en_passant: u8,
    counter: u32,
    moves: &mut [RawMove],
    count: &mut usize,
    lack: &mut RawMissing,
) -> u32
    ensures kept { tablebase.new.value ≡ tablebase.old.value }
    ensures reported { MatchResult (position_of men.now mover en_passant) (λ p. IsRankedWritten (files_of tablebase.old.value) counter p result moves.old moves.new count.new lack.old lack.new) (λ status. (result ≡ status) × (lack.new ≡ lack.old)) }
    ensures stays { (result ≡ 0 → ⊥) → (moves.new ≡ moves.old) × (count.new ≡ count.old) }
{
    let found = position_of(men, mover, en_passant);
    let position = match &found {
        Ok(position) => position,
        Err(status) => return *status,
    };
    let Some(mut held) = take(tablebase, alloc) else {
        let mut look = |set: &mut MappedSet| moves_in(set, position, counter, moves, count, lack);
        return with_no_tables(alloc, &mut look);
    };
    let status = moves_in(&mut held, position, counter, moves, count, lack);
    put(tablebase, held);
    status
}
