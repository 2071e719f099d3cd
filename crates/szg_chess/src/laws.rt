//! Laws over the definitions. The contract of each function is a law, and its body is empty.

ghost use Rattle.szg_chess.specs.Examples.{Examples};
ghost use Rattle.szg_chess.specs.Images.{LawImage, LawImageBack, LawImageMoves};
ghost use Rattle.szg_chess.specs.Laws.{LawMoves, LawDifferent, LawAfter, LawCaptures, LawCaptured, LawZeroing, LawQuiet, LawKinds, LawReadBack};

/// The legal moves are those of a man of the side to move to a square that it may go to, with the promotions that there are,
/// that leave the mover's king unattacked.
pub fn legal_moves_are_moves()
    ensures { LawMoves }
{}

/// No legal move is listed twice.
pub fn legal_moves_differ()
    ensures { LawDifferent }
{}

/// The position after a legal move is a position.
pub fn after_is_position()
    ensures { LawAfter }
{}

/// The legal moves that capture are the legal ones of the captures.
pub fn captures_are_moves()
    ensures { LawCaptures }
{}

/// A capture takes one man from the board, and no other move does.
pub fn captures_take_one()
    ensures { LawCaptured }
{}

/// A pawn's move or a capture lowers the number of men and of ranks that pawns have to go.
pub fn zeroing_moves_lower()
    ensures { LawZeroing }
{}

/// Any other move keeps that number.
pub fn other_moves_keep()
    ensures { LawQuiet }
{}

/// A move that neither captures nor promotes keeps the men: only a square changes.
pub fn other_moves_keep_men()
    ensures { LawKinds }
{}

/// The image of a position under a symmetry of the board that fits its men is a position.
pub fn images_are_positions()
    ensures { LawImage }
{}

/// The image of an image is the position: each symmetry is its own inverse.
pub fn images_go_back()
    ensures { LawImageBack }
{}

/// The legal moves of an image, its men in any order, are the images of the legal moves; they capture and are zeroing as
/// those do, and lead to the images of what those lead to. The image is in check if the position is.
pub fn images_have_moves()
    ensures { LawImageMoves }
{}

/// The text of a position is read as that position, with its men in the order of the text.
pub fn texts_are_read_back()
    ensures { LawReadBack }
{}

/// What the definitions say of some positions.
pub fn worked_examples()
    ensures { Examples }
{}
