// The kinds that the operators and functions take, as constant tables.

#![tactic(auto)]

ghost use Rattle.std.specs.Prelude.{◌≡◌};
ghost use Rattle.table_kinds.specs.Kinds.{lazy, row_number, row_of, node_at, partner_of, result_of, ruling2};
ghost use Rattle.table_kinds.specs.Functions.{node_at1, result_of1, ruling1};

// What a kind is to an operator: one of the two built-in kinds, another ordinal, a set, or an array or record.
#[derive(Clone, Copy, PartialEq, Eq)]
pub enum Class {
    Integer,
    Boolean,
    Enum,
    Set,
    Whole,
}

// One side of an operator: its kind, that kind's class, and of a set the kind of its members.
#[derive(Clone, Copy, PartialEq, Eq)]
pub struct Side {
    pub class: Class,
    pub kind: u32,
    pub base: u32,
}

// What an operator that fits comes to: the number of its node in the code, and the kind of its result.
#[derive(Clone, Copy, PartialEq, Eq)]
pub struct Ruled {
    pub node: u32,
    pub kind: u32,
}

// The number of `in`, whose left side is compared with the members of its right side.
const MEMBER: usize = 12;

// By operator, left class and right class: the number of the node, or 0 for a misfit.
const TWO_SIDED: [[[u32; 5]; 5]; 17] = [
    // +
    [
        [code_ops::expr::ADD, 0, 0, 0, 0],
        [0, 0, 0, 0, 0],
        [0, 0, 0, 0, 0],
        [0, 0, 0, code_ops::expr::UNION, 0],
        [0, 0, 0, 0, 0],
    ],
    // -
    [
        [code_ops::expr::SUB, 0, 0, 0, 0],
        [0, 0, 0, 0, 0],
        [0, 0, 0, 0, 0],
        [0, 0, 0, code_ops::expr::DIFFERENCE, 0],
        [0, 0, 0, 0, 0],
    ],
    // *
    [
        [code_ops::expr::MUL, 0, 0, 0, 0],
        [0, 0, 0, 0, 0],
        [0, 0, 0, 0, 0],
        [0, 0, 0, code_ops::expr::INTERSECTION, 0],
        [0, 0, 0, 0, 0],
    ],
    // **
    [
        [code_ops::expr::POWER, 0, 0, 0, 0],
        [0, 0, 0, 0, 0],
        [0, 0, 0, 0, 0],
        [0, 0, 0, 0, 0],
        [0, 0, 0, 0, 0],
    ],
    // div
    [
        [code_ops::expr::DIV, 0, 0, 0, 0],
        [0, 0, 0, 0, 0],
        [0, 0, 0, 0, 0],
        [0, 0, 0, 0, 0],
        [0, 0, 0, 0, 0],
    ],
    // mod
    [
        [code_ops::expr::MOD, 0, 0, 0, 0],
        [0, 0, 0, 0, 0],
        [0, 0, 0, 0, 0],
        [0, 0, 0, 0, 0],
        [0, 0, 0, 0, 0],
    ],
    // =
    [
        [code_ops::expr::EQUAL, 0, 0, 0, 0],
        [0, code_ops::expr::EQUAL, 0, 0, 0],
        [0, 0, code_ops::expr::EQUAL, 0, 0],
        [0, 0, 0, code_ops::expr::EQUAL, 0],
        [0, 0, 0, 0, 0],
    ],
    // <>
    [
        [code_ops::expr::UNEQUAL, 0, 0, 0, 0],
        [0, code_ops::expr::UNEQUAL, 0, 0, 0],
        [0, 0, code_ops::expr::UNEQUAL, 0, 0],
        [0, 0, 0, code_ops::expr::UNEQUAL, 0],
        [0, 0, 0, 0, 0],
    ],
    // <
    [
        [code_ops::expr::LESS, 0, 0, 0, 0],
        [0, code_ops::expr::LESS, 0, 0, 0],
        [0, 0, code_ops::expr::LESS, 0, 0],
        [0, 0, 0, 0, 0],
        [0, 0, 0, 0, 0],
    ],
    // <=
    [
        [code_ops::expr::AT_MOST, 0, 0, 0, 0],
        [0, code_ops::expr::AT_MOST, 0, 0, 0],
        [0, 0, code_ops::expr::AT_MOST, 0, 0],
        [0, 0, 0, code_ops::expr::WITHIN, 0],
        [0, 0, 0, 0, 0],
    ],
    // >
    [
        [code_ops::expr::GREATER, 0, 0, 0, 0],
        [0, code_ops::expr::GREATER, 0, 0, 0],
        [0, 0, code_ops::expr::GREATER, 0, 0],
        [0, 0, 0, 0, 0],
        [0, 0, 0, 0, 0],
    ],
    // >=
    [
        [code_ops::expr::AT_LEAST, 0, 0, 0, 0],
        [0, code_ops::expr::AT_LEAST, 0, 0, 0],
        [0, 0, code_ops::expr::AT_LEAST, 0, 0],
        [0, 0, 0, code_ops::expr::HOLDS, 0],
        [0, 0, 0, 0, 0],
    ],
    // in
    [
        [0, 0, 0, code_ops::expr::MEMBER, 0],
        [0, 0, 0, code_ops::expr::MEMBER, 0],
        [0, 0, 0, code_ops::expr::MEMBER, 0],
        [0, 0, 0, 0, 0],
        [0, 0, 0, 0, 0],
    ],
    // and
    [
        [0, 0, 0, 0, 0],
        [0, code_ops::expr::AND, 0, 0, 0],
        [0, 0, 0, 0, 0],
        [0, 0, 0, 0, 0],
        [0, 0, 0, 0, 0],
    ],
    // or
    [
        [0, 0, 0, 0, 0],
        [0, code_ops::expr::OR, 0, 0, 0],
        [0, 0, 0, 0, 0],
        [0, 0, 0, 0, 0],
        [0, 0, 0, 0, 0],
    ],
    // and_then
    [
        [0, 0, 0, 0, 0],
        [0, code_ops::expr::AND_THEN, 0, 0, 0],
        [0, 0, 0, 0, 0],
        [0, 0, 0, 0, 0],
        [0, 0, 0, 0, 0],
    ],
    // or_else
    [
        [0, 0, 0, 0, 0],
        [0, code_ops::expr::OR_ELSE, 0, 0, 0],
        [0, 0, 0, 0, 0],
        [0, 0, 0, 0, 0],
        [0, 0, 0, 0, 0],
    ],
];

// By function and class: the number of the node, or 0 for a misfit.
const ONE_SIDED: [[u32; 5]; 11] = [
    [code_ops::expr::NEGATE, 0, 0, 0, 0], // - of one side
    [0, code_ops::expr::NOT, 0, 0, 0], // not
    [code_ops::expr::ABS, 0, 0, 0, 0], // abs
    [code_ops::expr::SQR, 0, 0, 0, 0], // sqr
    [code_ops::expr::ODD, 0, 0, 0, 0], // odd
    [
        code_ops::expr::ORD,
        code_ops::expr::ORD,
        code_ops::expr::ORD,
        0,
        0,
    ], // ord
    [
        code_ops::expr::PRED,
        code_ops::expr::PRED,
        code_ops::expr::PRED,
        0,
        0,
    ], // pred
    [
        code_ops::expr::SUCC,
        code_ops::expr::SUCC,
        code_ops::expr::SUCC,
        0,
        0,
    ], // succ
    [0, 0, 0, code_ops::expr::CARD, 0], // card
    [0, 0, 0, code_ops::expr::SETMIN, 0], // setmin
    [0, 0, 0, code_ops::expr::SETMAX, 0], // setmax
];

// The place of a class in the tables.
// Kept: the rows of the table that document 01 names, said where the table stands; a cast of the variant would hide it.
#[tactic(auto, using(crate::proofs::Laws::row_laws))]
fn row_of(c: Class) -> usize
    ensures { result ≡ row_of c }
{
    match c {
        Class::Integer => 0,
        Class::Boolean => 1,
        Class::Enum => 2,
        Class::Set => 3,
        Class::Whole => 4,
    }
}

// The entry of the first table, or 0 where it has none.
// Kept: 0 is the table's own entry for a misfit, and no node's number.
#[tactic(auto, using(crate::proofs::Laws::node_laws))]
fn node_at(op: usize, left: usize, right: usize) -> u32
    ensures { result ≡ node_at op left right }
{
    if op >= 17 || left >= 5 || right >= 5 {
        return 0;
    }
    TWO_SIDED[op][left][right]
}

// The kind that the left side must have.
#[tactic(auto, using(crate::proofs::Laws::partner_laws))]
fn partner(op: usize, right: u32, base: u32) -> u32
    ensures { result ≡ partner_of op right base }
{
    if op == MEMBER { base } else { right }
}

// The kind of the result of node n: integer of arithmetic, the sides' own of sets, else boolean, as of the short cuts before them.
#[tactic(auto, using(crate::proofs::Laws::result_laws))]
fn result_of(n: u32, kind: u32) -> u32
    ensures { result ≡ result_of n kind }
{
    if n < code_ops::expr::TWO_SIDED {
        1
    } else if n < code_ops::expr::UNION {
        0
    } else if n < code_ops::expr::EQUAL {
        kind
    } else {
        1
    }
}

// The row of `and_then` (every) or `or_else` in the first table.
pub fn short_row(every: bool) -> usize
    ensures { result ≡ row_number (lazy every) }
{
    if every { 15 } else { 16 }
}

// What a two-sided operator comes to at its sides: their kinds must agree, and the table must have an entry for their classes.
#[tactic(auto, using(crate::proofs::Laws::two_laws))]
pub fn two_sided(op: usize, left: Side, right: Side) -> Option<Ruled>
    ensures { result ≡ ruling2 op left right }
{
    let other = partner(op, right.kind, right.base);
    if left.kind != other {
        return None;
    }
    let node = node_at(op, row_of(left.class), row_of(right.class));
    if node == 0 {
        return None;
    }
    let kind = result_of(node, left.kind);
    Some(Ruled { node, kind })
}

// The entry of the second table, or 0 where it has none.
// Kept: 0 is the table's own entry for a misfit, and no node's number.
#[tactic(auto, using(crate::proofs::Laws::node1_laws))]
fn node_at_one(f: usize, c: usize) -> u32
    ensures { result ≡ node_at1 f c }
{
    if f >= 11 || c >= 5 {
        return 0;
    }
    ONE_SIDED[f][c]
}

// The kind of the result of node n: boolean of two, the members' of two, the side's own of two, else integer.
// Kept: the numbers are those of nodes in laid code (`code_ops`), which the tables above hold.
#[tactic(auto, using(crate::proofs::Laws::result1_laws))]
fn result_of_one(n: u32, kind: u32, base: u32) -> u32
    ensures { result ≡ result_of1 n kind base }
{
    match n {
        code_ops::expr::NOT | code_ops::expr::ODD => 1,
        code_ops::expr::SETMIN | code_ops::expr::SETMAX => base,
        code_ops::expr::PRED | code_ops::expr::SUCC => kind,
        _ => 0,
    }
}

// What a one-sided operator or function comes to at its side.
#[tactic(auto, using(crate::proofs::Laws::one_laws))]
pub fn one_sided(f: usize, side: Side) -> Option<Ruled>
    ensures { result ≡ ruling1 f side }
{
    let node = node_at_one(f, row_of(side.class));
    if node == 0 {
        return None;
    }
    let kind = result_of_one(node, side.kind, side.base);
    Some(Ruled { node, kind })
}
