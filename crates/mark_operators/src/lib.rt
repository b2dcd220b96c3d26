// Operators and functions of the marking machine: what they come to at the kinds that they meet.

#![tactic(auto)]

ghost use Rattle.std.specs.Prelude.{◌≡◌};
ghost use Rattle.leaf_words.specs.Numbers.{signed};
ghost use Rattle.mark_operators.specs.Operations.{ruled_word, node_word, ruled_word1, Operates, Applies, Shorts};

use code_calc::operators::{combine, pred, succ, unary};
use code_calc::words::{GREATEST, signed_of};
use mark_values::values::{Carried, STUCK, value};
use table_kinds::{Ruled, one_sided, two_sided};
use table_scope::{describe, side_of};

// A two-sided operator on two values, by what it comes to.
#[tactic(auto, using(crate::proofs::Operating::ruled_laws))]
fn ruled(r: Option<Ruled>, x: i64, y: i64) -> Carried
    ensures { result ≡ ruled_word r x y }
{
    match r {
        None => value(0, STUCK),
        Some(r) => value(r.kind, combine(r.node, x, y)),
    }
}

// A two-sided operator: both sides are worked out before their kinds are met.
#[tactic(auto, using(crate::proofs::Operating::operate_laws))]
pub fn operate(work: &[u32], types: &[u32], op: usize, x: Carried, y: Carried) -> Carried
    ensures { Operates work.now types.now op x y result }
{
    let a = x.word;
    let b = y.word;
    if a > GREATEST {
        return value(0, a);
    }
    if b > GREATEST {
        return value(0, b);
    }
    let r = two_sided(
        op,
        side_of(work, types, x.kind),
        side_of(work, types, y.kind),
    );
    ruled(r, a, b)
}

// A one-sided operator of node n on a value, whose kind has these bounds.
fn at_node(n: u32, low: u32, high: u32, x: i64) -> i64
    ensures { result ≡ node_word n (signed low) (signed high) x }
{
    match n {
        code_ops::expr::PRED => pred(x, signed_of(low), signed_of(high)),
        code_ops::expr::SUCC => succ(x, signed_of(low), signed_of(high)),
        _ => unary(n, x),
    }
}

// A one-sided operator on a value, by what it comes to.
#[tactic(auto, using(crate::proofs::Operating::ruled_one_laws))]
fn ruled_one(r: Option<Ruled>, low: u32, high: u32, x: i64) -> Carried
    ensures { result ≡ ruled_word1 r (signed low) (signed high) x }
{
    match r {
        None => value(0, STUCK),
        Some(r) => value(r.kind, at_node(r.node, low, high, x)),
    }
}

// A one-sided operator or function.
#[tactic(auto, using(crate::proofs::Operating::apply_laws))]
pub fn apply(work: &[u32], types: &[u32], f: usize, x: Carried) -> Carried
    ensures { Applies work.now types.now f x result }
{
    let a = x.word;
    if a > GREATEST {
        return value(0, a);
    }
    let i = describe(work, types, x.kind);
    let r = one_sided(f, side_of(work, types, x.kind));
    ruled_one(r, i.low, i.high, a)
}

// `and_then` (every) and `or_else`: the left side is met first, and the right only where the left leaves it open.
#[tactic(auto, using(crate::proofs::Operating::short_laws))]
pub fn short(every: bool, x: Carried, y: Carried) -> Carried
    ensures { Shorts every x y result }
{
    let a = x.wanted(1);
    if a > GREATEST {
        return value(0, a);
    }
    match (every, a > 0) {
        (true, false) => value(1, 0),
        (false, true) => value(1, 1),
        _ => value(1, y.wanted(1)),
    }
}
