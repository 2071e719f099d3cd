//! The result of a position.

ghost use Rattle.std.specs.Prelude.{◌≡◌, IfErr, IfOk, None, map};
ghost use Rattle.szg_chess.specs.Moves.{legal_moves};
ghost use Rattle.szg_probe.specs.Probing.{all_known};
ghost use Rattle.szg_probe.specs.Distances.{MayLack, probed_distance, ranked};
ghost use Rattle.szg_results.specs.Results.{IsAnswer, counted};

use arrayvec::ArrayVec;
use szg_chess::{MAX_MOVES, Position};
use szg_probe::{Distance, DistanceFault, DistanceTables, RankedMove, probe_dtz, rank_moves};

/// The result of a position.
#[derive(Drop)]
pub struct Answer {
    /// The class with the fifty-move counter, and the distance in plies.
    pub distance: Distance,
    /// The legal moves, the best first.
    pub moves: ArrayVec<RankedMove, MAX_MOVES>,
    /// Whether the distances are those of DTZ tables. Else they say nothing.
    pub has_distances: bool,
}

/// Probes a position with its fifty-move counter, and ranks its moves. `has_distances` says whether the numbers are
/// those of DTZ tables. It allocates nothing.
///
/// Errors: those of `probe_dtz` and of `rank_moves`.
pub fn probe_position<T: DistanceTables>(
    tables: &mut T,
    position: &Position,
    counter: u32,
    has_distances: bool,
) -> Result<Answer, DistanceFault<T::Fault>>
    ensures same { tables.new ≡ tables.old }
    ensures stated { IfOk result (λ a. IsAnswer (T.stored tables.old) (T.numbers tables.old) position.now counter a) }
    ensures has_distances { IfOk result (λ a. a.has_distances ≡ has_distances) }
{
    let distance = probe_dtz(tables, position)?;
    let mut moves = ArrayVec::new();
    rank_moves(tables, position, counter, &mut moves)?;
    Ok(Answer {
        distance: counted(position, counter, distance),
        moves,
        has_distances,
    })
}

/// Returns a distance with the fifty-move counter, unless the position is mate.
fn counted(position: &Position, counter: u32, distance: Distance) -> Distance
    ensures { result ≡ counted position.now counter distance.class distance.plies }
{
    if position.is_mate() {
        distance
    } else {
        distance.at_counter(counter)
    }
}
