//! Laws over the definitions. The contract of each function is a law, and its body is empty.

ghost use Rattle.szg_probe.specs.Images.{ImagesHaveClasses, ProbedAtImages};
ghost use Rattle.szg_probe.specs.Laws.{KingsDraw, MovesWithoutRight, ProbedByCaptures, ProbedIsKnown, ProbedIsTrue, TrueByClasses};

/// What true tables say of a position is its class.
pub fn probed_is_true()
    ensures { ProbedIsTrue }
{}

/// A position is probed by probing what its captures lead to.
pub fn probed_by_captures()
    ensures { ProbedByCaptures }
{}

/// The legal moves without the right to capture en passant are the other ones.
pub fn moves_without_right()
    ensures { MovesWithoutRight }
{}

/// Two kings alone are a draw.
pub fn kings_draw()
    ensures { KingsDraw }
{}

/// Tables are true if each position has a class, and what they store gives it with the captures.
pub fn true_by_classes()
    ensures { TrueByClasses }
{}

/// The tables say a class of a position if they store one for each position of as many men or fewer.
pub fn probed_is_known()
    ensures { ProbedIsKnown }
{}

/// What is probed at an image of a position, as by a reflection of the board, is what is probed at the position, if the
/// tables store one class for both.
pub fn probed_at_images()
    ensures { ProbedAtImages }
{}

/// A position and its images have one class in chess.
pub fn images_have_classes()
    ensures { ImagesHaveClasses }
{}
