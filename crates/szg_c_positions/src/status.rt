//! The statuses of calls.

/// The call was carried out.
pub const DONE: u32 = 0;
/// The name is not a material's.
pub const NAME: u32 = 1;
/// The bytes are refused.
pub const REFUSED: u32 = 2;
/// An allocation was refused.
pub const MEMORY: u32 = 3;
/// The table has no such part, side, index or class, the list has another length, or a distance is requested of a
/// WDL table.
pub const RANGE: u32 = 4;
/// The handle has no table.
pub const CLOSED: u32 = 5;
/// A number encodes no kind of man, no colour or no square.
pub const MAN: u32 = 6;
/// There are not three to six men, or a colour does not have exactly one king.
pub const MEN: u32 = 7;
/// Two men are on one square.
pub const SAME_SQUARE: u32 = 8;
/// A pawn is on rank 1 or 8.
pub const PAWN_RANK: u32 = 9;
/// The men are not the table's.
pub const OTHER_MATERIAL: u32 = 10;
/// A lead man that is no pawn has a twin, or equal men are in several of its groups.
pub const IRREGULAR: u32 = 11;
/// The two kings lead, and they touch.
pub const KINGS_TOUCH: u32 = 12;
/// A DTZ table has only the other side to move.
pub const WRONG_SIDE: u32 = 13;
/// The value at the index of a WDL table is not a class.
pub const NO_CLASS: u32 = 14;
/// A draw has no distance.
pub const DRAW: u32 = 15;
/// The table's map has no such item.
pub const OUTSIDE_MAP: u32 = 16;
/// The bytes passed in cannot be those of the file at the range that the value needs.
pub const CHANGED: u32 = 17;
/// The block that has the value doesn't decode.
pub const BAD_BLOCK: u32 = 18;
/// No pawn can just have passed over the en passant square by a double step.
pub const EN_PASSANT: u32 = 19;
/// The side not to move is in check.
pub const IN_CHECK: u32 = 20;
/// A tablebase does not have a table that is needed.
pub const MISSING: u32 = 21;
/// The tables of a tablebase contradict themselves.
pub const CONTRADICTION: u32 = 22;

/// In a list of classes: there is none.
pub const NO_RESULT: i8 = 127;
