// How code is laid in the working list and read back: definitions in specs/, theorems in proofs/. There is no code: only the enums that say what
// a node of laid code is.

#![tactic(auto)]

// What a node of an expression is, by its first number.
// Kept: `Nothing` is a kind like the others, met in the same match; an Option around the rest is no plainer.
#[derive(Clone, Copy)]
pub enum CodeOp {
    Literal,
    LoadCell, // one cell of a whole variable
    LoadCells, // all cells of one
    LoadAt, // cells from a computed place on
    LastNumber,
    MakeSet,
    AndThen,
    OrElse,
    Binary(u32), // the operation's number
    Unary(u32),
    Pred,
    Succ,
    Nothing, // any other number
}

// What a node of a place is.
// Kept: `Nothing` is a kind like the others, met in the same match; an Option around the rest is no plainer.
#[derive(Clone, Copy)]
pub enum PlaceOp {
    Cell,
    Index,
    Shift,
    Nothing,
}

// What a node of a statement is.
// Kept: `Nothing` is a kind like the others, met in the same match; an Option around the rest is no plainer.
#[derive(Clone, Copy)]
pub enum ActOp {
    AssignOrdinal,
    AssignCell, // of a set
    Sequence,
    Branch,
    While,
    For,
    Case,
    Call,
    Raise,
    CopyCells, // of an array or a record
    Nothing, // place 0 too: the missing third part of an `if`
}
