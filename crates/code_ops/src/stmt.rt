// Statements, 43 to 52. A part is the place of its node (0 of a missing statement), a bound its 32 bits.

// An ordinal assigned: the statement's number, the place, the value, the bounds of the place's type.
pub const ASSIGN: u32 = 43;

// A set assigned: the statement's number, the place, the value.
pub const ASSIGN_CELL: u32 = 44;

// `begin`: the statement's number, the slot of the chain of its statements.
pub const SEQUENCE: u32 = 45;

// `if`: the statement's number, the condition, the two statements.
pub const BRANCH: u32 = 46;

// `while`: the statement's number, the condition, the statement.
pub const WHILE: u32 = 47;

// `for`: the statement's number, the control variable's cell, its bounds, the first value, the last value, the statement.
pub const FOR: u32 = 48;

// `case`: the statement's number, the selector, the slot of the chain of its arms.
pub const CASE: u32 = 49;

// `call`: the statement's number, the place of the body's node, the slot of the chain of its arguments.
pub const CALL: u32 = 50;

// `raise`: the statement's number, the exception's number.
pub const RAISE: u32 = 51;

// An array or a record copied: the statement's number, the place, the load of its source.
pub const COPY_CELLS: u32 = 52;
