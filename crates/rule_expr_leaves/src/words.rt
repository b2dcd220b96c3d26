// The nodes of words, of `first` and `last` of a type, and of the constant `(- number)`.
// Kept (6): nodes and entries are numbers at the free place of the lent working list: fixed memory and no heap, as document 01 has it.
ghost use Rattle.std.specs.Prelude.{◌≡◌, neg_ℤ};
ghost use Rattle.code.specs.Layout.{flag as flag_of};
ghost use Rattle.rule_expr_nodes.specs.Nodes.{Makes, literal_made};
ghost use Rattle.rule_expr_leaves.specs.Words.{whole_made, named_made, place_made, end_made, bound_made, Ends, After, StandsAlone};

use leaf_integers::neg;
use leaf_words::words::Word;
use rule_expr_nodes::cells::{cells, end_bits};
use rule_expr_nodes::nodes::{literal, node};
use rule_faults::{Fault, Got, failed, is_clear};
use table_scope::{Meaning, describe, host_of};
use text_heads::{Atom, atom_of};
use text_parts::{Part, end_at, part_at};

// A truth value in 32 bits.
#[tactic(auto, unfolding(code::specs::Layout::flag))]
pub fn flag(b: bool) -> u32
    ensures { result ≡ flag_of b }
{
    u32::from(b)
}

// The cells of a variable of type k.
fn whole(work: &mut [u32], types: &[u32], k: u32, base: u32, next: usize, top: u32) -> Got
    ensures { Makes (whole_made work.old types.now k base next top) result work.new }
{
    let i = describe(work, types, k);
    let kind = host_of(work, types, k);
    cells(work, i.size, kind, base, next, top)
}

// A name as an expression, by its meaning.
pub fn named(work: &mut [u32], types: &[u32], m: Meaning, next: usize, top: u32) -> Got
    ensures { Makes (named_made work.old types.now m next top) result work.new }
{
    match m {
        Meaning::Var(_, k, base) => whole(work, types, k, base, next, top),
        Meaning::Value(k, n) => node(work, k, next, top, &[code_ops::expr::LITERAL, n]),
        _ => failed(Fault::Name, 0, next, top),
    }
}

// A name as a target, by its meaning.
pub fn place(work: &mut [u32], m: Meaning, next: usize, top: u32) -> Got
    ensures { Makes (place_made work.old m next top) result work.new }
{
    match m {
        Meaning::Var(_, k, base) => node(work, k, next, top, &[code_ops::place::CELL, base]),
        _ => failed(Fault::Name, 0, next, top),
    }
}

// `first` or `last` of type k.
fn end_of(work: &mut [u32], types: &[u32], last: bool, k: u32, next: usize, top: u32) -> Got
    ensures { Makes (end_made work.old types.now last k next top) result work.new }
{
    let i = describe(work, types, k);
    if i.shape == 0 {
        let kind = host_of(work, types, k);
        let ns = [code_ops::expr::LITERAL, end_bits(last, i)];
        node(work, kind, next, top, &ns)
    } else {
        failed(Fault::Kind, 0, next, top)
    }
}

// `first` or `last` of type k, whose name has a fault or none.
pub fn bound_of(
    work: &mut [u32],
    types: &[u32],
    last: bool,
    fault: Fault,
    k: u32,
    next: usize,
    top: u32,
) -> Got
    ensures { Makes (bound_made work.old types.now last fault k next top) result work.new }
{
    if is_clear(fault) {
        end_of(work, types, last, k, next, top)
    } else {
        failed(fault, 0, next, top)
    }
}

// A number after which the form ends at an offset, if it does, and the offset past the closing bracket.
fn number_last(text: &[u8], z: i64, at: usize) -> Option<(i64, usize)>
    ensures { Ends text.now z at result }
{
    let e = end_at(text, at);
    match e {
        Some(q) => Some((z, q)),
        None => None,
    }
}

// A word that is a number, after which the form ends at an offset, if so.
fn word_last(text: &[u8], w: Word, at: usize) -> Option<(i64, usize)>
    ensures { After text.now w at result }
{
    match atom_of(w) {
        Atom::Number(z) => number_last(text, z, at),
        _ => None,
    }
}

// The number that a form has alone from an offset on, if so, and the offset past the closing bracket.
pub fn number_alone(text: &[u8], at: usize) -> Option<(i64, usize)>
    ensures { StandsAlone text.now at result }
{
    match part_at(text, at) {
        Part::Leaf(w, _, q) => word_last(text, w, q),
        _ => None,
    }
}

// The constant `(- z)`: a fault of row 8 where it is past the integers.
pub fn negative(work: &mut [u32], z: i64, next: usize, top: u32) -> Got
    ensures { Makes (literal_made 0 (neg_ℤ z) next top work.old) result work.new }
{
    let n = neg(z);
    match n {
        Ok(v) => literal(work, 0, v, next, top),
        Err(_) => failed(Fault::Kind, 0, next, top),
    }
}
