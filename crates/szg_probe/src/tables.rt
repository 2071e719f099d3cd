//! What a set of tables offers.

ghost use Rattle.std.specs.Prelude.{◌≡◌, ◌<◌, ◌^◌, length, List, IfOk, IfErr, IfSome, Some};
ghost use Rattle.std.specs.Option.{ForSome};
ghost use Rattle.szg_values.specs.Placement.{PlacedMan};
ghost use Rattle.szg_values.specs.declared.Color.{Color};
ghost use Rattle.szg_probe.specs.Probing.{StoredClasses};
ghost use Rattle.szg_probe.specs.Distances.{StoredNumbers};

use szg_chess::Position;
use szg_game::Class;

/// A set of WDL tables.
pub trait Tables {
    /// Why a class is not there: no table for these men, or a block that was not read.
    type Fault;

    // the classes that the tables store
    ghost stored: { Self → StoredClasses };

    // the numbers of moves that the tables store
    ghost numbers: { Self → StoredNumbers };

    // for what the tables store, when a fault may come for these men and this side to move
    ghost explains: { StoredClasses → StoredNumbers → Self.Fault → List PlacedMan → Color → Type 0 };

    /// Returns the class as `class` does, without preparing for a fault. None if it isn't known: then `class` says more. A set
    /// that has no quicker way knows none.
    fn known_class(&mut self, _position: &Position) -> Option<Class>
        requires { 2 < length _position.now.placed_men }
        ensures same { self.new ≡ self.old }
        ensures class { IfSome result (λ k. stored self.old _position.now.placed_men _position.now.mover ≡ Some k) }
    {
        None
    }

    /// Returns the class that the tables store for the men and the side to move of a position. The en passant square
    /// does not count. Errors: those of the set of tables.
    fn class(&mut self, position: &Position) -> Result<Class, Self::Fault>
        requires { 2 < length position.now.placed_men }
        ensures same { self.new ≡ self.old }
        ensures class { IfOk result (λ k. stored self.old position.now.placed_men position.now.mover ≡ Some k) }
        ensures fault { IfErr result (λ fault. explains (stored self.old) (numbers self.old) fault position.now.placed_men position.now.mover) };
}

/// A set of tables of both kinds, WDL and DTZ.
pub trait DistanceTables: Tables {
    /// Returns the number that the tables store for the men and the side to move of a position of this class, in plies.
    /// None if they store numbers for the other side to move alone. Errors: those of the set of tables.
    fn number(&mut self, position: &Position, class: Class) -> Result<Option<u32>, Self::Fault>
        requires { 2 < length position.now.placed_men }
        ensures same { self.new ≡ self.old }
        ensures number { IfOk result (λ n. Self.numbers self.old position.now.placed_men position.now.mover class ≡ Some n) }
        ensures few { IfOk result (λ n. ForSome n (λ plies. plies < 2 ^ 31)) }
        ensures fault { IfErr result (λ fault. Self.explains (Self.stored self.old) (Self.numbers self.old) fault position.now.placed_men position.now.mover) };
}
