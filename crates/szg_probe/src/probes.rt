//! Probing: the class of a position.

ghost use Rattle.std.specs.Prelude.{◌≡◌, IfOk, IfErr, Some};
ghost use Rattle.szg_probe.specs.Chess.{ChessClass};
ghost use Rattle.szg_probe.specs.Probing.{AreTrue, MayFail, has_only_en_passant, probed, stored_class};

use crate::Tables;
use arrayvec::ArrayVec;
use szg_chess::Position;
use szg_game::Class;

/// Returns the class of a position for the side to move: the better one of the stored class and of what the captures
/// give, each probed in turn. Captures en passant that are the only legal moves alone count, and no table is read for
/// the position itself. (`probe_wdl` in the probing code.)
///
/// Errors: those of the tables.
pub fn probe_wdl<T: Tables>(tables: &mut T, position: &Position) -> Result<Class, T::Fault>
    ensures same { tables.new ≡ tables.old }
    ensures probed { IfOk result (λ k. probed (T.stored tables.old) position.now ≡ Some k) }
    ensures class { IfOk result (λ k. AreTrue (T.stored tables.old) → ChessClass position.now k) }
    ensures fault { IfErr result (λ fault. MayFail (T.explains (T.stored tables.old) (T.numbers tables.old) fault) position.now) }
{
    // A fact that the proof uses: the men are those of a position.
    let _ = position.men();
    search(tables, position)
}

/// `probe_wdl`. That there is no capture is soon known: then the stored class is the position's.
#[cycle(search)]
#[inline(always)]
pub(crate) fn search<T: Tables>(tables: &mut T, position: &Position) -> Result<Class, T::Fault>
    ensures same { tables.new ≡ tables.old }
    ensures probed { IfOk result (λ k. probed (T.stored tables.old) position.now ≡ Some k) }
    ensures fault { IfErr result (λ fault. MayFail (T.explains (T.stored tables.old) (T.numbers tables.old) fault) position.now) }
{
    // A fact that the proof uses: the men are those of a position.
    let _ = position.men();
    if position.may_capture() {
        search_captures(tables, position)
    } else {
        stored_class(tables, position)
    }
}

/// `probe_wdl`, by the captures in turn; a capture that wins ends the search.
#[cycle(search)]
#[inline(never)]
fn search_captures<T: Tables>(tables: &mut T, position: &Position) -> Result<Class, T::Fault>
    ensures same { tables.new ≡ tables.old }
    ensures probed { IfOk result (λ k. probed (T.stored tables.old) position.now ≡ Some k) }
    ensures fault { IfErr result (λ fault. MayFail (T.explains (T.stored tables.old) (T.numbers tables.old) fault) position.now) }
{
    // A fact that the proof uses: the men are those of a position.
    let _ = position.men();
    let mut captures = ArrayVec::new();
    position.captures_into(&mut captures);
    let mut best = Class::Loss;
    for m in captures.as_slice() {
        let class = match search(tables, &position.after(*m)) {
            Ok(class) => class,
            Err(fault) => return Err(fault),
        };
        if class.is_loss() {
            return Ok(Class::Win);
        }
        best = best.better(class.negate());
    }
    if best.is_win() || has_only_en_passant(position) {
        return Ok(best);
    }
    match stored_class(tables, position) {
        Ok(stored) => Ok(stored.better(best)),
        Err(fault) => Err(fault),
    }
}

/// Returns the class that the tables store; two kings alone are a draw.
#[inline(always)]
fn stored_class<T: Tables>(tables: &mut T, position: &Position) -> Result<Class, T::Fault>
    ensures same { tables.new ≡ tables.old }
    ensures class { IfOk result (λ k. stored_class (T.stored tables.old) position.now ≡ Some k) }
    ensures fault { IfErr result (λ fault. MayFail (T.explains (T.stored tables.old) (T.numbers tables.old) fault) position.now) }
{
    if position.men().len() == 2 {
        return Ok(Class::Draw);
    }
    match tables.known_class(position) {
        Some(class) => Ok(class),
        None => tables.class(position),
    }
}

/// Returns whether the captures en passant are the only legal moves. Without an en passant square no move is generated.
fn has_only_en_passant(position: &Position) -> bool
    ensures { result ≡ has_only_en_passant position.now }
{
    if position.en_passant().is_none() {
        return false;
    }
    position.has_move() && !position.has_move_beside_en_passant()
}
