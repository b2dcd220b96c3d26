// The words that forms begin with, by the place in which they stand. An operator or function has its number in the tables of `table_kinds`.

#![tactic(auto)]

ghost use Rattle.std.specs.Prelude.{◌≡◌};
ghost use Rattle.text_heads.specs.Heads.{reserved_expr, operator_expr, reserved_verb, operator_verb, reserved_arm, reserved_maker, reserved_line, reserved_atom, expr_head_of, verb_of, arm_head_of, maker_of, line_head_of, atom_of, is_exception};

use leaf_words::words::Word;

// How deep the walks over a line's forms go: "Bracket depth is at most 32", and what stands in the innermost brackets.
pub const DEPTH: usize = 33;

// What a word is at the head of an expression.
// Kept: `Nothing` is met in the same match as the heads; an Option around them is no plainer.
#[derive(Clone, Copy)]
pub enum ExprHead {
    At,
    Dot,
    Members,
    Minus,
    Bound(bool), // first, last
    Short(bool), // or_else, and_then
    Two(usize),
    One(usize),
    Nothing,
}

// At the head of a statement.
// Kept: `Nothing` is met in the same match as the heads; an Option around them is no plainer.
#[derive(Clone, Copy)]
pub enum Verb {
    Assign,
    Begin,
    If,
    While,
    For,
    Case,
    Call,
    Raise,
    Nothing,
}

// At the head of an arm of a case.
// Kept: `Nothing` is met in the same match as the heads; an Option around them is no plainer.
#[derive(Clone, Copy)]
pub enum ArmHead {
    Arm,
    Else,
    Nothing,
}

// At the head of the form of a type.
// Kept: `Nothing` is met in the same match as the heads; an Option around them is no plainer.
#[derive(Clone, Copy)]
pub enum Maker {
    Enum,
    Range,
    Array,
    Record,
    Set,
    Nothing,
}

// At the head of a line.
// Kept: `Nothing` is met in the same match as the heads; an Option around them is no plainer.
#[derive(Clone, Copy)]
pub enum LineHead {
    Type,
    Var,
    Proc,
    Main,
    Nothing,
}

// A word alone: where a constant or an expression may stand, or a type's name.
// Kept: `Nothing` is met in the same match as the heads; an Option around them is no plainer.
#[derive(Clone, Copy)]
pub enum Atom {
    Number(i64),
    Named, // a name that is not reserved
    Truth(bool),
    ErrorNumber,
    Base(u32), // integer, boolean
    Nothing,
}

// An expression's head by the number of a reserved word.
// Kept: the numbers are the places of the words in the table of document 01 (`leaf_reserved`: `place_of`), and the definition that the contract names goes by them.
fn reserved_expr(k: usize) -> ExprHead
    ensures { result ≡ reserved_expr k }
{
    match k {
        19 => ExprHead::At, // at
        20 => ExprHead::Dot, // dot
        21 => ExprHead::Members, // members
        22 => ExprHead::One(1), // not
        23 => ExprHead::One(2), // abs
        24 => ExprHead::One(3), // sqr
        25 => ExprHead::One(4), // odd
        26 => ExprHead::One(5), // ord
        27 => ExprHead::One(6), // pred
        28 => ExprHead::One(7), // succ
        29 => ExprHead::One(8), // card
        30 => ExprHead::One(9), // setmin
        31 => ExprHead::One(10), // setmax
        32 => ExprHead::Bound(false), // first
        33 => ExprHead::Bound(true), // last
        34 => ExprHead::Two(4), // div
        35 => ExprHead::Two(5), // mod
        36 => ExprHead::Two(12), // in
        37 => ExprHead::Two(13), // and
        38 => ExprHead::Two(14), // or
        39 => ExprHead::Short(true), // and_then
        40 => ExprHead::Short(false), // or_else
        _ => ExprHead::Nothing,
    }
}

// An expression's head by the number of an operator.
// Kept: the numbers are the places of the words in the table of document 01 (`leaf_reserved`: `place_of`), and the definition that the contract names goes by them.
fn operator_expr(k: usize) -> ExprHead
    ensures { result ≡ operator_expr k }
{
    match k {
        1 => ExprHead::Two(0), // +
        2 => ExprHead::Minus, // -
        3 => ExprHead::Two(2), // *
        4 => ExprHead::Two(3), // **
        5 => ExprHead::Two(6), // =
        6 => ExprHead::Two(7), // <>
        7 => ExprHead::Two(8), // <
        8 => ExprHead::Two(9), // <=
        9 => ExprHead::Two(10), // >
        10 => ExprHead::Two(11), // >=
        _ => ExprHead::Nothing,
    }
}

// A statement's head by the number of a reserved word.
// Kept: the numbers are the places of the words in the table of document 01 (`leaf_reserved`: `place_of`), and the definition that the contract names goes by them.
fn reserved_verb(k: usize) -> Verb
    ensures { result ≡ reserved_verb k }
{
    match k {
        10 => Verb::Begin, // begin
        11 => Verb::If, // if
        12 => Verb::While, // while
        13 => Verb::For, // for
        14 => Verb::Case, // case
        17 => Verb::Call, // call
        18 => Verb::Raise, // raise
        _ => Verb::Nothing,
    }
}

// A statement's head by the number of an operator.
fn operator_verb(k: usize) -> Verb
    ensures { result ≡ operator_verb k }
{
    match k {
        0 => Verb::Assign, // :=
        _ => Verb::Nothing,
    }
}

// An arm's head by the number of a reserved word.
fn reserved_arm(k: usize) -> ArmHead
    ensures { result ≡ reserved_arm k }
{
    match k {
        15 => ArmHead::Arm, // arm
        16 => ArmHead::Else, // else
        _ => ArmHead::Nothing,
    }
}

// The head of a type's form by the number of a reserved word.
// Kept: the numbers are the places of the words in the table of document 01 (`leaf_reserved`: `place_of`), and the definition that the contract names goes by them.
fn reserved_maker(k: usize) -> Maker
    ensures { result ≡ reserved_maker k }
{
    match k {
        5 => Maker::Enum, // enum
        6 => Maker::Range, // range
        7 => Maker::Array, // array
        8 => Maker::Record, // record
        9 => Maker::Set, // setof
        _ => Maker::Nothing,
    }
}

// A line's head by the number of a reserved word.
// Kept: the numbers are the places of the words in the table of document 01 (`leaf_reserved`: `place_of`), and the definition that the contract names goes by them.
fn reserved_line(k: usize) -> LineHead
    ensures { result ≡ reserved_line k }
{
    match k {
        0 => LineHead::Type, // type
        1 => LineHead::Var, // var
        2 => LineHead::Proc, // proc
        3 => LineHead::Main, // main
        _ => LineHead::Nothing,
    }
}

// A reserved word alone, by its number.
// Kept: the numbers are the places of the words in the table of document 01 (`leaf_reserved`: `place_of`), and the definition that the contract names goes by them.
fn reserved_atom(k: usize) -> Atom
    ensures { result ≡ reserved_atom k }
{
    match k {
        41 => Atom::Base(0), // integer
        42 => Atom::Base(1), // boolean
        43 => Atom::Truth(true), // true
        44 => Atom::Truth(false), // false
        45 => Atom::ErrorNumber, // error_number
        _ => Atom::Nothing,
    }
}

// What a word is at the head of an expression.
pub fn expr_head(w: Word) -> ExprHead
    ensures { result ≡ expr_head_of w }
{
    match w {
        Word::Reserved(k) => reserved_expr(k),
        Word::Operator(k) => operator_expr(k),
        Word::Number(_) | Word::Name | Word::Unknown => ExprHead::Nothing,
    }
}

// What a word is at the head of a statement.
// Kept: the three arms name what each place takes; one function with the tables as closures is no plainer.
pub fn verb_of(w: Word) -> Verb
    ensures { result ≡ verb_of w }
{
    match w {
        Word::Reserved(k) => reserved_verb(k),
        Word::Operator(k) => operator_verb(k),
        Word::Number(_) | Word::Name | Word::Unknown => Verb::Nothing,
    }
}

// What a word is at the head of an arm.
pub fn arm_head(w: Word) -> ArmHead
    ensures { result ≡ arm_head_of w }
{
    match w {
        Word::Reserved(k) => reserved_arm(k),
        _ => ArmHead::Nothing,
    }
}

// What a word is at the head of a type's form.
// Kept: the two arms name what each place takes; one function with the tables as closures is no plainer.
pub fn maker_of(w: Word) -> Maker
    ensures { result ≡ maker_of w }
{
    match w {
        Word::Reserved(k) => reserved_maker(k),
        _ => Maker::Nothing,
    }
}

// What a word is at the head of a line.
// Kept: the two arms name what each place takes; one function with the tables as closures is no plainer.
pub fn line_head(w: Word) -> LineHead
    ensures { result ≡ line_head_of w }
{
    match w {
        Word::Reserved(k) => reserved_line(k),
        _ => LineHead::Nothing,
    }
}

// What a word is alone.
pub fn atom_of(w: Word) -> Atom
    ensures { result ≡ atom_of w }
{
    match w {
        Word::Number(z) => Atom::Number(z),
        Word::Name => Atom::Named,
        Word::Reserved(k) => reserved_atom(k),
        Word::Operator(_) => Atom::Nothing,
        Word::Unknown => Atom::Nothing,
    }
}

// Whether a word begins a handler.
pub fn is_exception(w: Word) -> bool
    ensures { result ≡ is_exception w }
{
    match w {
        Word::Number(_) => false,
        Word::Name => false,
        Word::Reserved(k) => k == 4,
        Word::Operator(_) => false,
        Word::Unknown => false,
    }
}
