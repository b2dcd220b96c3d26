// Expressions, 1 to 39. A part is the place of its node, a literal or bound its 32 bits.

// A literal: itself.
pub const LITERAL: u32 = 1;

// The one cell of a variable: the cell.
pub const LOAD_CELL: u32 = 2;

// The cells of a variable: the first and CELLS_TIMES times how many, as one number.
pub const LOAD_CELLS: u32 = 3;

pub const CELLS_TIMES: u32 = 4096;

// The cells at a place: the place, how many.
pub const LOAD_AT: u32 = 4;

// The last exception's number: nothing.
pub const LAST_NUMBER: u32 = 5;

// A set: its bounds, the slot of the chain of its members.
pub const MAKE_SET: u32 = 6;

// Short cuts: left, right.
pub const AND_THEN: u32 = 7;

pub const OR_ELSE: u32 = 8;

// Two-sided operators: left, right. First those of integers.
pub const TWO_SIDED: u32 = ADD;

pub const ADD: u32 = 9;

pub const SUB: u32 = 10;

pub const MUL: u32 = 11;

pub const POWER: u32 = 12;

pub const DIV: u32 = 13;

pub const MOD: u32 = 14;

// Those of sets that give a set.
pub const UNION: u32 = 15;

pub const DIFFERENCE: u32 = 16;

pub const INTERSECTION: u32 = 17;

// Comparisons of ordinals; the first two compare sets as well.
pub const EQUAL: u32 = 18;

pub const UNEQUAL: u32 = 19;

pub const LESS: u32 = 20;

pub const AT_MOST: u32 = 21;

pub const GREATER: u32 = 22;

pub const AT_LEAST: u32 = 23;

// `<=` and `>=` of sets, and `in`.
pub const WITHIN: u32 = 24;

pub const HOLDS: u32 = 25;

pub const MEMBER: u32 = 26;

// Of truth values.
pub const AND: u32 = 27;

pub const OR: u32 = 28;

// One-sided operators and functions: the side.
pub const ONE_SIDED: u32 = NEGATE;

pub const NEGATE: u32 = 29;

pub const NOT: u32 = 30;

pub const ABS: u32 = 31;

pub const SQR: u32 = 32;

pub const ODD: u32 = 33;

pub const ORD: u32 = 34;

pub const CARD: u32 = 35;

pub const SETMIN: u32 = 36;

pub const SETMAX: u32 = 37;

// The neighbours of an ordinal: the side, the bounds of its type.
pub const PRED: u32 = 38;

pub const SUCC: u32 = 39;
