// Operators on words.
ghost use Rattle.std.specs.Prelude.{◌≡◌, ◌-◌, not, ◌&&◌, ◌||◌, int_le, int_lt};
ghost use Rattle.leaf_words.specs.Numbers.{signed};
ghost use Rattle.leaf_sets.specs.Sets.{members_of, holds, union_of, difference_of, intersection_of, within};
ghost use Rattle.law.specs.Calculate.{integer, member_in, truth, is_true, equal_z, set_value, tested, range_error, compute, compute1};
ghost use Rattle.law.specs.Operators.{pred_in, succ_in};
ghost use Rattle.code.specs.Readback.{operation_at, operation1_at};
ghost use Rattle.code_calc.specs.Words.{word_of, applied, applied1, tested_word, distance_word, element_word, shifted_word};

use crate::words::{GREATEST, NUMERIC, RANGE, capped, reach, signed_of, truth_of};
use leaf_integers::Fault;

// The word of an arithmetic result.
#[tactic(auto, using(crate::proofs::Combining::word_laws))]
pub fn word(n: Result<i64, Fault>) -> i64
    ensures { result ≡ word_of (integer n) }
{
    match n {
        Ok(z) => z,
        Err(Fault::Bound) => RANGE,
        Err(_) => NUMERIC,
    }
}

// The word of a member.
#[tactic(auto, using(crate::proofs::Combining::member_laws))]
pub fn member(m: Option<u32>) -> i64
    ensures { result ≡ word_of (member_in m) }
{
    match m {
        Some(i) => i as i64,
        None => RANGE,
    }
}

// `+` of sets.
fn union(x: i64, y: i64) -> i64
    ensures { result ≡ set_value (union_of (members_of x) (members_of y)) }
{
    let s = leaf_sets::union(leaf_sets::pattern(x), leaf_sets::pattern(y));
    leaf_sets::value(s)
}

// `-` of sets.
fn difference(x: i64, y: i64) -> i64
    ensures { result ≡ set_value (difference_of (members_of x) (members_of y)) }
{
    let s = leaf_sets::difference(leaf_sets::pattern(x), leaf_sets::pattern(y));
    leaf_sets::value(s)
}

// `*` of sets.
fn intersection(x: i64, y: i64) -> i64
    ensures { result ≡ set_value (intersection_of (members_of x) (members_of y)) }
{
    let s = leaf_sets::intersection(leaf_sets::pattern(x), leaf_sets::pattern(y));
    leaf_sets::value(s)
}

// `<=` of sets.
fn included(x: i64, y: i64) -> i64
    ensures { result ≡ truth (within (members_of x) (members_of y)) }
{
    truth_of(leaf_sets::included(leaf_sets::pattern(x), leaf_sets::pattern(y)))
}

// `in`.
fn contained(x: i64, y: i64) -> i64
    ensures { result ≡ truth (holds x (members_of y)) }
{
    truth_of(leaf_sets::contains(leaf_sets::pattern(y), x))
}

// `=`.
#[tactic(auto, using(crate::proofs::Combining::compare_laws))]
fn equal(x: i64, y: i64) -> i64
    ensures { result ≡ truth (equal_z x y) }
{
    if x == y { 1 } else { 0 }
}

// `<>`.
#[tactic(auto, using(crate::proofs::Combining::compare_laws))]
fn unequal(x: i64, y: i64) -> i64
    ensures { result ≡ truth (not (equal_z x y)) }
{
    if x == y { 0 } else { 1 }
}

// `<`.
#[tactic(auto, using(crate::proofs::Combining::compare_laws))]
fn less(x: i64, y: i64) -> i64
    ensures { result ≡ truth (int_lt x y) }
{
    if x < y { 1 } else { 0 }
}

// `<=`.
#[tactic(auto, using(crate::proofs::Combining::compare_laws))]
fn at_most(x: i64, y: i64) -> i64
    ensures { result ≡ truth (int_le x y) }
{
    if x <= y { 1 } else { 0 }
}

// `and`.
#[tactic(auto, using(crate::proofs::Combining::compare_laws))]
fn both(x: i64, y: i64) -> i64
    ensures { result ≡ truth (is_true x && is_true y) }
{
    if 0 < x { less(0, y) } else { 0 }
}

// `or`.
#[tactic(auto, using(crate::proofs::Combining::compare_laws))]
fn either(x: i64, y: i64) -> i64
    ensures { result ≡ truth (is_true x || is_true y) }
{
    if 0 < x { 1 } else { less(0, y) }
}

// A two-sided operator on values, by its node's number.
// Kept: the numbers are those of nodes in laid code (`code_ops`), and each operator has its arm; closures would be that table again.
pub fn combine(op: u32, x: i64, y: i64) -> i64
    ensures { result ≡ word_of (compute (operation_at (op - 9)) x y) }
{
    match op {
        code_ops::expr::SUB => word(leaf_integers::sub(x, y)),
        code_ops::expr::MUL => word(leaf_integers::mul(x, y)),
        code_ops::expr::POWER => word(leaf_powers::raise(x, y)),
        code_ops::expr::DIV => word(leaf_integers::div(x, y)),
        code_ops::expr::MOD => word(leaf_integers::modulo(x, y)),
        code_ops::expr::UNION => union(x, y),
        code_ops::expr::DIFFERENCE => difference(x, y),
        code_ops::expr::INTERSECTION => intersection(x, y),
        code_ops::expr::EQUAL => equal(x, y),
        code_ops::expr::UNEQUAL => unequal(x, y),
        code_ops::expr::LESS => less(x, y),
        code_ops::expr::AT_MOST => at_most(x, y),
        code_ops::expr::GREATER => less(y, x),
        code_ops::expr::AT_LEAST => at_most(y, x),
        code_ops::expr::WITHIN => included(x, y),
        code_ops::expr::HOLDS => included(y, x),
        code_ops::expr::MEMBER => contained(x, y),
        code_ops::expr::AND => both(x, y),
        code_ops::expr::OR => either(x, y),
        _ => word(leaf_integers::add(x, y)),
    }
}

// The same on words: the left fault first.
pub fn binary(op: u32, x: i64, y: i64) -> i64
    ensures { result ≡ applied (operation_at (op - 9)) x y }
{
    if x > GREATEST {
        return x;
    }
    if y > GREATEST {
        return y;
    }
    combine(op, x, y)
}

// `not`.
#[tactic(auto, using(crate::proofs::Combining::negated_laws))]
fn negated(x: i64) -> i64
    ensures { result ≡ truth (not (is_true x)) }
{
    if 0 < x { 0 } else { 1 }
}

// A one-sided operator on a value, by its node's number.
// Kept: the numbers are those of nodes in laid code (`code_ops`), and each operator has its arm; closures would be that table again.
pub fn change(op: u32, x: i64) -> i64
    ensures { result ≡ word_of (compute1 (operation1_at (op - 29)) x) }
{
    match op {
        code_ops::expr::NOT => negated(x),
        code_ops::expr::ABS => word(leaf_integers::abs(x)),
        code_ops::expr::SQR => word(leaf_integers::sqr(x)),
        code_ops::expr::ODD => truth_of(leaf_integers::odd(x)),
        code_ops::expr::ORD => x,
        code_ops::expr::CARD => leaf_sets::card(leaf_sets::pattern(x)) as i64,
        code_ops::expr::SETMIN => member(leaf_sets::setmin(leaf_sets::pattern(x))),
        code_ops::expr::SETMAX => member(leaf_sets::setmax(leaf_sets::pattern(x))),
        _ => word(leaf_integers::neg(x)),
    }
}

// The same on a word.
pub fn unary(op: u32, x: i64) -> i64
    ensures { result ≡ applied1 (operation1_at (op - 29)) x }
{
    if x > GREATEST {
        return x;
    }
    change(op, x)
}

// `pred` on a word.
pub fn pred(x: i64, lo: i64, hi: i64) -> i64
    ensures { result ≡ applied1 (pred_in lo hi) x }
{
    if x > GREATEST {
        return x;
    }
    word(leaf_integers::pred(x, lo, hi))
}

// `succ` on a word.
pub fn succ(x: i64, lo: i64, hi: i64) -> i64
    ensures { result ≡ applied1 (succ_in lo hi) x }
{
    if x > GREATEST {
        return x;
    }
    word(leaf_integers::succ(x, lo, hi))
}

// A word tested against bounds.
#[tactic(auto, using(crate::proofs::Combining::test_laws))]
pub fn test(x: i64, lo: i64, hi: i64) -> i64
    ensures { result ≡ tested_word lo hi x }
{
    if x > GREATEST || leaf_integers::in_range(x, lo, hi) {
        x
    } else {
        RANGE
    }
}

// How far an index is from its lower bound, after the test against both.
pub fn distance(x: i64, low: u32, high: u32) -> i64
    ensures { result ≡ distance_word (signed low) (signed high) x }
{
    if x > GREATEST {
        return x;
    }
    let lo = signed_of(low);
    if leaf_integers::in_range(x, lo, signed_of(high)) {
        return x - lo;
    }
    RANGE
}

// The place of an element of size n, by the words of the array's place and of the index's distance.
pub fn element(a: i64, d: i64, n: u32) -> i64
    ensures { result ≡ element_word a d n }
{
    if a > GREATEST {
        return a;
    }
    if d > GREATEST {
        return d;
    }
    let t = reach(d) * n as u64;
    capped(reach(a) + t)
}

// The place of an element of size n, by the words of the array's place and of the index, whose bounds are low and high.
pub fn element_of(a: i64, x: i64, low: u32, high: u32, n: u32) -> i64
    ensures { result ≡ element_word a (distance_word (signed low) (signed high) x) n }
{
    if a > GREATEST {
        return a;
    }
    if x > GREATEST {
        return x;
    }
    let lo = signed_of(low);
    if leaf_integers::in_range(x, lo, signed_of(high)) {
        return element(a, x - lo, n);
    }
    RANGE
}

// The place of a field, by the word of the record's place.
pub fn shifted(a: i64, k: u32) -> i64
    ensures { result ≡ shifted_word a k }
{
    if a > GREATEST {
        return a;
    }
    capped(reach(a) + k as u64)
}
