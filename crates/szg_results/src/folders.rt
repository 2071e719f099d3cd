//! Tables of folders. A table is opened when it is first needed, by its front, and a value is read when it is first needed, by
//! its block; both stay.

ghost use Rattle.std.specs.Prelude.{◌≡◌, ℕ, [], false, All, Contains, IfNone, IfOk, IfSome, List, Option, Some, slice_get, string_bytes};
ghost use Rattle.szg_tables.specs.Fetched.{fetched_classes, fetched_numbers};
ghost use Rattle.szg_results.specs.Folders.{AreFetched, IsAbsent, IsAnswerIn, IsFetched, IsPieceOf, IsValueOf, LacksDistances, may_do_without, words_of};
ghost use Rattle.szg_chess.specs.Moves.{legal_moves};
ghost use Rattle.szg_probe.specs.Distances.{probed_distance};
ghost use Rattle.szg_results.specs.Results.{IsAnswerOf};
ghost use Rattle.szg_results.specs.Lines.{IsLineOf, IsTextOf};
ghost use Rattle.szg_results.specs.Objects.{AreAfter, IfFound, IfRead, IsDtz, IsObjectOf};

use crate::classes_alone::ClassesAlone;
use crate::objects::{MoveAfter, OrPiece, object_of};
use crate::pieces::{Piece, fetch, open_missing};
use crate::wanted::wanted_values;
use crate::{Answer, line_of, probe_position, text_of};
use std::alloc::{AllocError, Global};
use std::mem::replace;
use szg_chess::{FenRecord, Position, PositionFault};
use szg_file::Reason;
use szg_files::{FileFault, FileSystem};
use szg_named::fault_text;
use szg_probe::{Distance, DistanceFault, RankedMove, probe_dtz};
use szg_tables::{FetchedSet, FetchedTable, FetchedValue, Missing, MissingReason};
use szg_values::{Kind, Material};

/// More than the number of tables and values that a position of six men takes.
const MOST_PIECES: u32 = 1 << 24;

/// So often values are read ahead. Each time more of a probe's way is known.
const MOST_PASSES: u32 = 64;

/// As many bytes of fronts are kept for the next position.
const MOST_BYTES: u64 = 1 << 28;

/// As many values are kept for the next position. A look-up passes over those of its table.
const MOST_VALUES: u64 = 1 << 13;

/// The tables of folders, as far as they were read.
#[derive(Drop)]
pub struct Folders<'a> {
    words: &'a [&'a str],
    tables: Vec<FetchedTable>,
    /// The number of bytes of the fronts.
    bytes: u64,
    /// The number of values.
    values: u64,
}

/// Why a position has no answer.
#[derive(Drop)]
pub enum ResultStop {
    /// The text is not a position.
    Fen(PositionFault),
    /// A table is in none of the folders, or it has no class or number for a placement.
    Missing(Missing),
    /// The tables contradict themselves: no move keeps a win, or a number is there for neither side.
    Contradiction,
    /// A file is no table: the material and the kind, the offset and the reason.
    Table(Material, Kind, u64, Reason),
    /// A file failed.
    Failed(FileFault),
    /// An allocation was refused.
    Memory,
}

impl From<AllocError> for ResultStop {
    fn from(_failed: AllocError) -> ResultStop {
        ResultStop::Memory
    }
}

impl<'a> Folders<'a> {
    /// Creates the set of these words: each is a folder's path, or a table file's. Nothing is read.
    pub fn new(alloc: Global, words: &'a [&'a str]) -> Folders<'a>
        ensures { result.tables.items ≡ [] }
    {
        Folders {
            words,
            tables: Vec::new(alloc),
            bytes: 0,
            values: 0,
        }
    }

    /// Forgets the tables if much was read of them.
    fn forget(&mut self)
        ensures words { words_of self.new ≡ words_of self.old }
        ensures fetched { (files : List ℕ → Option (List ℕ)) → AreFetched files (words_of self.old) self.old.tables.items → AreFetched files (words_of self.new) self.new.tables.items }
    {
        if self.bytes > MOST_BYTES || self.values > MOST_VALUES {
            self.tables.clear();
            self.bytes = 0;
            self.values = 0;
        }
    }

    /// Keeps what was read.
    fn keep(&mut self, piece: Piece) -> Result<(), AllocError>
        ensures words { words_of self.new ≡ words_of self.old }
        ensures fetched { (files : List ℕ → Option (List ℕ)) → IsPieceOf files (words_of self.old) self.old.tables.items piece → AreFetched files (words_of self.old) self.old.tables.items → AreFetched files (words_of self.new) self.new.tables.items }
    {
        match piece {
            Piece::Front(table) => {
                self.bytes = self.bytes.saturating_add(table.read);
                Ok(self.tables.push(table)?)
            }
            Piece::Value(number, value) => {
                self.values = self.values.saturating_add(1);
                keep_value(&mut self.tables, number, value)
            }
        }
    }

    /// Probes a position, and ranks its moves. Reads the tables that are missing; where a DTZ table is in none of the
    /// folders, the answer has no distances.
    ///
    /// Errors: the first that is met.
    #[tactic(auto, using(crate::proofs::Absent::same_lacking))]
    pub fn answer<S: FileSystem>(
        &mut self,
        alloc: Global,
        system: &mut S,
        fen: &FenRecord,
    ) -> Result<Answer, ResultStop>
        // the answer is that of what was fetched of the tables
        ensures answer { IfOk result (λ a. IsAnswerOf (fetched_classes self.new.tables.items) (fetched_numbers self.new.tables.items) fen.now a) }
        ensures distances { IfOk result (λ a. a.has_distances ≡ false → LacksDistances (S.content system.old) (words_of self.old) fen.now.position) }
        ensures words { words_of self.new ≡ words_of self.old }
        ensures content { S.content system.new ≡ S.content system.old }
        ensures fetched { AreFetched (S.content system.old) (words_of self.old) self.old.tables.items → AreFetched (S.content system.old) (words_of self.new) self.new.tables.items }
    {
        let mut has_distances = true;
        'pieces: for _ in 0..MOST_PIECES {
            let missing = match answer_over(alloc, &mut self.tables, fen, has_distances) {
                Ok(answer) => return Ok(answer),
                Err(DistanceFault::Contradiction) => return Err(ResultStop::Contradiction),
                Err(DistanceFault::Tables(missing)) => missing,
            };
            let Some(piece) = self.read_piece(alloc, system, &missing)? else {
                if !has_distances || !may_do_without(&missing, &fen.position) {
                    return Err(ResultStop::Missing(missing));
                }
                has_distances = false;
                continue;
            };
            self.keep(piece)?;
            self.read_ahead(alloc, system, &fen.position, has_distances);
        }
        Err(ResultStop::Contradiction)
    }

    /// Returns the result of a position's text, as lines.
    ///
    /// Errors: the first that is met.
    pub fn text<S: FileSystem>(
        &mut self,
        alloc: Global,
        system: &mut S,
        fen: &str,
    ) -> Result<String, ResultStop>
        ensures text { IfOk result (λ text. IsTextOf (IsAnswerIn (S.content system.old) (words_of self.old) self.new.tables.items) fen.now (string_bytes text)) }
        ensures words { words_of self.new ≡ words_of self.old }
        ensures content { S.content system.new ≡ S.content system.old }
        ensures fetched { AreFetched (S.content system.old) (words_of self.old) self.old.tables.items → AreFetched (S.content system.old) (words_of self.new) self.new.tables.items }
    {
        let record = match Position::parse_fen(fen) {
            Ok(record) => record,
            Err(fault) => return Err(ResultStop::Fen(fault)),
        };
        self.forget();
        let answer = self.answer(alloc, system, &record)?;
        Ok(text_of(alloc, &record.position, &answer)?)
    }

    /// Returns the result of a position's text, as one line.
    ///
    /// Errors: the first that is met.
    pub fn line<S: FileSystem>(
        &mut self,
        alloc: Global,
        system: &mut S,
        fen: &str,
    ) -> Result<String, ResultStop>
        ensures line { IfOk result (λ line. IsLineOf (IsAnswerIn (S.content system.old) (words_of self.old) self.new.tables.items) fen.now (string_bytes line)) }
        ensures words { words_of self.new ≡ words_of self.old }
        ensures content { S.content system.new ≡ S.content system.old }
        ensures fetched { AreFetched (S.content system.old) (words_of self.old) self.old.tables.items → AreFetched (S.content system.old) (words_of self.new) self.new.tables.items }
    {
        let record = match Position::parse_fen(fen) {
            Ok(record) => record,
            Err(fault) => return Err(ResultStop::Fen(fault)),
        };
        self.forget();
        let answer = self.answer(alloc, system, &record)?;
        Ok(line_of(alloc, fen, &answer)?)
    }

    /// Returns the result of a position's text, as a JSON object on one line.
    ///
    /// Errors: the first that is met.
    pub fn object<S: FileSystem>(
        &mut self,
        alloc: Global,
        system: &mut S,
        fen: &str,
    ) -> Result<String, ResultStop>
        ensures object { IfOk result (λ text. IsObjectOf (S.content system.old) (words_of self.old) self.new.tables.items fen.now (string_bytes text)) }
        ensures words { words_of self.new ≡ words_of self.old }
        ensures content { S.content system.new ≡ S.content system.old }
        ensures fetched { AreFetched (S.content system.old) (words_of self.old) self.old.tables.items → AreFetched (S.content system.old) (words_of self.new) self.new.tables.items }
    {
        let record = match Position::parse_fen(fen) {
            Ok(record) => record,
            Err(fault) => return Err(ResultStop::Fen(fault)),
        };
        self.forget();
        'pieces: for _ in 0..MOST_PIECES {
            let answer = self.answer(alloc, system, &record)?;
            let position = &record.position;
            match self.moves_after(alloc, system, position, answer.moves.as_slice())? {
                OrPiece::Found(moves) => {
                    return Ok(object_of(alloc, position, &answer, moves.as_slice())?);
                }
                OrPiece::Read(piece) => self.keep(piece)?,
            }
        }
        Err(ResultStop::Contradiction)
    }

    /// Returns legal moves, each with the DTZ of the position after it.
    fn moves_after<S: FileSystem>(
        &mut self,
        alloc: Global,
        system: &mut S,
        position: &Position,
        moves: &[RankedMove],
    ) -> Result<OrPiece<Vec<MoveAfter>>, ResultStop>
        requires { All (λ r. Contains (legal_moves position.now) r.m) moves.now }
        ensures words { words_of self.new ≡ words_of self.old }
        ensures tables { self.new.tables.items ≡ self.old.tables.items }
        ensures content { S.content system.new ≡ S.content system.old }
        ensures read { IfOk result (λ found. IfRead found (IsPieceOf (S.content system.old) (words_of self.old) self.old.tables.items)) }
        ensures legal { IfOk result (λ found. IfFound found (λ moves_after. All (λ s. Contains (legal_moves position.now) s.ranked.m) moves_after.items)) }
        ensures after { IfOk result (λ found. IfFound found (λ moves_after. AreAfter (S.content system.old) (words_of self.old) self.old.tables.items position.now moves.now moves_after.items)) }
    {
        let mut found = Vec::new(alloc);
        'moves: for ranked in moves {
            match self.dtz(alloc, system, &position.after(ranked.m))? {
                OrPiece::Found(dtz) => {
                    let ranked = *ranked;
                    if found.push(MoveAfter { ranked, dtz }).is_err() {
                        return Err(ResultStop::Memory);
                    }
                }
                OrPiece::Read(piece) => return Ok(OrPiece::Read(piece)),
            }
        }
        Ok(OrPiece::Found(found))
    }

    /// Returns the DTZ of a position with its sign. None if it takes a DTZ table that is in none of the folders.
    #[tactic(auto, using(crate::proofs::Absent::lacking))]
    fn dtz<S: FileSystem>(
        &mut self,
        alloc: Global,
        system: &mut S,
        position: &Position,
    ) -> Result<OrPiece<Option<i64>>, ResultStop>
        ensures words { words_of self.new ≡ words_of self.old }
        ensures tables { self.new.tables.items ≡ self.old.tables.items }
        ensures content { S.content system.new ≡ S.content system.old }
        ensures read { IfOk result (λ found. IfRead found (IsPieceOf (S.content system.old) (words_of self.old) self.old.tables.items)) }
        ensures dtz { IfOk result (λ found. IfFound found (λ dtz. IsDtz (S.content system.old) (words_of self.old) self.old.tables.items position.now dtz)) }
    {
        let missing = match distance_over(alloc, &mut self.tables, position) {
            Ok(distance) => return Ok(OrPiece::Found(Some(distance.signed()))),
            Err(DistanceFault::Contradiction) => return Err(ResultStop::Contradiction),
            Err(DistanceFault::Tables(missing)) => missing,
        };
        match self.read_piece(alloc, system, &missing)? {
            Some(piece) => Ok(OrPiece::Read(piece)),
            None if may_do_without(&missing, position) => Ok(OrPiece::Found(None)),
            None => Err(ResultStop::Missing(missing)),
        }
    }

    /// Reads what is missing: a table's front, or a value. None if the table is in none of the folders.
    ///
    /// Errors: the table has no class or number; the file is no table, a block doesn't decode, or the file failed; an
    /// allocation was refused.
    fn read_piece<S: FileSystem>(
        &self,
        alloc: Global,
        system: &mut S,
        missing: &Missing,
    ) -> Result<Option<Piece>, ResultStop>
        ensures content { S.content system.new ≡ S.content system.old }
        ensures read { IfOk result (λ piece. IfSome piece (IsPieceOf (S.content system.old) (words_of self.now) self.now.tables.items)) }
        ensures absent { IfOk result (λ piece. IfNone piece (IsAbsent (S.content system.old) (words_of self.now) missing.now.material missing.now.kind)) }
    {
        match missing.reason {
            MissingReason::Table => match open_missing(alloc, system, self.words, missing)? {
                Some(table) => Ok(Some(Piece::Front(table))),
                None => Ok(None),
            },
            MissingReason::Unread(spot) => {
                let Some(number) = number_of(&self.tables, missing) else {
                    return Err(ResultStop::Contradiction);
                };
                match self.tables.get(number) {
                    Some(table) => {
                        let value = fetch(alloc, system, table, spot)?;
                        Ok(Some(Piece::Value(number, value)))
                    }
                    None => Err(ResultStop::Contradiction),
                }
            }
            _ => Err(ResultStop::Missing(copy_of(missing))),
        }
    }

    /// Reads the values that a probe of a position seems to take, as far as they can be read.
    fn read_ahead<S: FileSystem>(
        &mut self,
        alloc: Global,
        system: &mut S,
        position: &Position,
        has_distances: bool,
    )
        ensures words { words_of self.new ≡ words_of self.old }
        ensures content { S.content system.new ≡ S.content system.old }
        ensures fetched { AreFetched (S.content system.old) (words_of self.old) self.old.tables.items → AreFetched (S.content system.old) (words_of self.new) self.new.tables.items }
    {
        'passes: for _ in 0..MOST_PASSES {
            let wanted = wanted_values(alloc, &mut self.tables, position, has_distances);
            if wanted.is_empty() {
                return;
            }
            'wanted: for missing in &wanted {
                match self.read_piece(alloc, system, missing) {
                    Ok(Some(piece)) => {
                        if self.keep(piece).is_err() {
                            return;
                        }
                    }
                    _ => return,
                }
            }
        }
    }
}

/// Probes a position over what was fetched of tables.
fn answer_over(
    alloc: Global,
    tables: &mut Vec<FetchedTable>,
    fen: &FenRecord,
    has_distances: bool,
) -> Result<Answer, DistanceFault<Missing>>
    ensures tables { tables.new.items ≡ tables.old.items }
    ensures answer { IfOk result (λ a. IsAnswerOf (fetched_classes tables.old.items) (fetched_numbers tables.old.items) fen.now a) }
    ensures has_distances { IfOk result (λ a. a.has_distances ≡ has_distances) }
{
    let mut set = FetchedSet::of(replace(tables, Vec::new(alloc)));
    if has_distances {
        let answer = probe_position(&mut set, &fen.position, fen.halfmove, true);
        *tables = set.into_tables();
        return answer;
    }
    let mut alone = ClassesAlone { tables: set };
    let answer = probe_position(&mut alone, &fen.position, 0, false);
    *tables = alone.tables.into_tables();
    answer
}

/// Probes the distance of a position over what was fetched of tables.
fn distance_over(
    alloc: Global,
    tables: &mut Vec<FetchedTable>,
    position: &Position,
) -> Result<Distance, DistanceFault<Missing>>
    ensures tables { tables.new.items ≡ tables.old.items }
    ensures distance { IfOk result (λ d. probed_distance (fetched_classes tables.old.items) (fetched_numbers tables.old.items) position.now ≡ Some (d.class, d.plies)) }
{
    let mut set = FetchedSet::of(replace(tables, Vec::new(alloc)));
    let distance = probe_dtz(&mut set, position);
    *tables = set.into_tables();
    distance
}

/// Adds a value to the table with a number. A table's values stay where no memory is left.
fn keep_value(
    tables: &mut [FetchedTable],
    number: usize,
    value: FetchedValue,
) -> Result<(), AllocError>
    ensures { (files : List ℕ → Option (List ℕ)) (words : List (List ℕ)) → IfSome (slice_get tables.old number) (IsValueOf files value) → AreFetched files words tables.old → AreFetched files words tables.new }
{
    if number < tables.len() {
        add_value(&mut tables[number], value)
    } else {
        Ok(())
    }
}

/// Adds a value that was fetched.
fn add_value(table: &mut FetchedTable, value: FetchedValue) -> Result<(), AllocError>
    ensures { (files : List ℕ → Option (List ℕ)) (words : List (List ℕ)) → IsValueOf files value table.old → IsFetched files words table.old → IsFetched files words table.new }
{
    Ok(table.values.push(value)?)
}

/// Returns the number of the table that lacks something.
fn number_of(tables: &[FetchedTable], missing: &Missing) -> Option<usize> {
    tables.iter().position(|table| {
        let index = table.front.index();
        index.kind() == missing.kind && missing.material.is_same(index.material())
    })
}

/// Returns whether an answer without distances does without a table: a DTZ table, of as many men as the position or fewer.
fn may_do_without(missing: &Missing, position: &Position) -> bool
    ensures { result ≡ may_do_without missing.now.kind missing.now.material position.now }
{
    matches!(missing.kind, Kind::Dtz) && missing.material.men().len() <= position.men().len()
}

/// Returns a copy.
pub(crate) fn copy_of(missing: &Missing) -> Missing {
    Missing {
        material: missing.material.copy(),
        kind: missing.kind,
        reason: missing.reason,
    }
}

/// Returns why a position has no answer, as a line says it.
pub fn stop_text(alloc: Global, stop: &ResultStop) -> Result<String, AllocError> {
    match stop {
        ResultStop::Fen(fault) => format!(in alloc; "refused fen: {fault}"),
        ResultStop::Missing(missing) => {
            let name = missing.material.name();
            let name = name.as_str();
            let kind = kind_word(missing.kind);
            match missing.reason {
                MissingReason::Table => format!(in alloc; "refused missing table {name} {kind}"),
                MissingReason::Place(fault) => {
                    format!(in alloc; "refused place in {name} {kind}: {fault}")
                }
                MissingReason::Value | MissingReason::Unread(_) => {
                    format!(in alloc; "refused value in {name} {kind}")
                }
                MissingReason::Block { number, offset } => {
                    format!(in alloc; "refused block {number} of {name} {kind} at {offset}")
                }
            }
        }
        ResultStop::Contradiction => String::from_str(alloc, "refused contradiction"),
        ResultStop::Table(material, kind, place, reason) => {
            let name = material.name();
            let name = name.as_str();
            let kind = kind_word(*kind);
            format!(in alloc; "refused table {name} {kind} at {place}: {reason}")
        }
        ResultStop::Failed(fault) => fault_text(alloc, fault),
        ResultStop::Memory => String::from_str(alloc, "out of memory"),
    }
}

fn kind_word(kind: Kind) -> &'static str {
    match kind {
        Kind::Wdl => "wdl",
        Kind::Dtz => "dtz",
    }
}
