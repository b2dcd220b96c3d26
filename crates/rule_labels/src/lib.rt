// Whether the labels of a `case` differ (in `loose` their kinds may be any): compared block by block, since the working list may be too short for the labels of a faulty line.

#![tactic(auto)]

pub mod loose;

ghost use Rattle.std.specs.Prelude.{◌≡◌, not, map, ◌<◌, length};
ghost use Rattle.leaf_bytes.specs.Bytes.{small};
ghost use Rattle.law.specs.Calculate.{truth};
ghost use Rattle.law.specs.Trees.{first, word_at};
ghost use Rattle.law_theorems.specs.Readings.{stack_at};
ghost use Rattle.text_heads.specs.Heads.{atom_of, atom_constant};
ghost use Rattle.rule_atoms.specs.Answering.{minus_form};
ghost use Rattle.rule_labels.specs.Hops.{Marked, Passes, EntersForm, EntersArm, HopsIn, Hops, Nexts};
ghost use Rattle.rule_labels.specs.Blocks.{ordinal_in, value_at, among, apart};
ghost use Rattle.rule_labels.specs.Numbers.{number_at, NextNumbers, Fills, ComesAgain, Recurs, DiffersFrom, DiffersBy};
ghost use Rattle.rule_labels.specs.Repeating.{Repeating};

use crate::loose::key_of;
use leaf_words::words::Word;
use rule_atoms::minus_form;
use rule_faults::{Fault, is_clear, is_form};
use table_scope::{Meaning, Scope, meaning_of};
use text_heads::{Atom, atom_of};
use text_parts::{Part, end_at, part_at};
use text_skips::past_form;

// How many labels' numbers are kept at a time.
pub const BLOCK: usize = 256;

// A label: its integer, its truth value, or the offset of its name.
#[derive(Clone, Copy)]
pub enum Mark {
    Number(i64),
    Truth(bool),
    Named(usize),
}

// From an offset inside an arm: a label is passed, something else is passed (the same labels are left at the offset), or no label is left.
// Kept: three ways on, none of them a failure; an Option of an Option is no plainer.
#[derive(Clone, Copy)]
pub enum Hop {
    Label(Mark, usize),
    Over(usize),
    End,
}

// The number of a label that is compared: its value, which tells labels of one kind apart, or its key, which tells labels of any kinds apart.
#[derive(Clone, Copy)]
pub enum By {
    Value,
    Key,
}

// How many numbers stand in a block, and the offset after the last label of them.
#[derive(Clone, Copy)]
pub struct Filled {
    size: usize,
    next: usize,
}

// A word at p that is not the last part, as a label; the next part stands at q.
// Kept: the kinds are closed and each has its own arm; closures or a table of functions would say the same twice.
fn word_mark(text: &[u8], w: Word, p: usize, q: usize) -> Hop
    ensures { Marked text.now (atom_constant (atom_of w) (map small (word_at text.now p))) q result }
{
    let a = atom_of(w);
    match a {
        Atom::Number(z) => Hop::Label(Mark::Number(z), q),
        Atom::Named => Hop::Label(Mark::Named(p), q),
        Atom::Truth(b) => Hop::Label(Mark::Truth(b), q),
        _ => Hop::Over(q),
    }
}

// The same of a form whose parts begin at p.
fn form_mark(text: &[u8], p: usize, q: usize) -> Hop
    ensures { Marked text.now (minus_form (first (stack_at text.now p))) q result }
{
    let v = minus_form(text, p);
    let f = v.fault;
    if is_form(f) {
        return Hop::Over(q);
    }
    Hop::Label(Mark::Number(v.value), q)
}

// Past a word of an arm: its last part is no label.
#[tactic(auto, using(crate::proofs::Hopping::pass_laws))]
fn leaf_hop(text: &[u8], w: Word, p: usize, q: usize) -> Hop
    ensures { Passes text.now (atom_constant (atom_of w) (map small (word_at text.now p))) q result }
{
    let e = end_at(text, q);
    match e {
        Some(_) => Hop::Over(q),
        None => word_mark(text, w, p, q),
    }
}

// Past a form of an arm.
#[tactic(auto, using(crate::proofs::Hopping::pass_laws))]
fn form_hop(text: &[u8], p: usize, q: usize) -> Hop
    ensures { Passes text.now (minus_form (first (stack_at text.now p))) q result }
{
    let e = end_at(text, q);
    match e {
        Some(_) => Hop::Over(q),
        None => form_mark(text, p, q),
    }
}

// Into the form of an arm: past its head, if it has one.
#[tactic(auto, using(crate::proofs::Hopping::enter_laws))]
fn arm_in(text: &[u8], p: usize) -> Option<usize>
    ensures { EntersForm text.now p result }
{
    match part_at(text, p) {
        Part::Leaf(_, _, q) => Some(q),
        _ => None,
    }
}

// Into the arm at an offset, if one stands there.
#[tactic(auto, using(crate::proofs::Hopping::arms_laws))]
pub fn arm_hop(text: &[u8], at: usize) -> Option<usize>
    ensures { EntersArm text.now at result }
{
    match part_at(text, at) {
        Part::Form(p) => arm_in(text, p),
        _ => None,
    }
}

// From the end of an arm into the one at an offset.
#[tactic(auto, using(crate::proofs::Hopping::in_laws))]
fn shut_hop(text: &[u8], at: usize) -> Hop
    ensures { HopsIn text.now at result }
{
    match arm_hop(text, at) {
        Some(q) => Hop::Over(q),
        None => Hop::End,
    }
}

// Past one part of an arm, or from its end into the next arm.
#[tactic(auto, using(crate::proofs::Hopping::hop_laws))]
fn hop_at(text: &[u8], at: usize) -> Hop
    ensures { Hops text.now at result }
{
    match part_at(text, at) {
        Part::Leaf(w, p, q) => leaf_hop(text, w, p, q),
        Part::Form(p) => form_hop(text, p, past_form(text, p)),
        Part::Shut(q) => shut_hop(text, q),
    }
}

// The next label from an offset inside an arm and the offset after it, if one is left.
#[tactic(auto, using(crate::proofs::Hopping::seek_laws))]
pub fn next_label(text: &[u8], at: usize) -> Option<(Mark, usize)>
    ensures { Nexts text.now at result }
{
    let mut p = at;
    loop {
        let h = hop_at(text, p);
        match h {
            Hop::Label(m, q) => {
                return Some((m, q));
            }
            Hop::Over(q) => {
                p = q;
            }
            Hop::End => {
                return None;
            }
        }
    }
}

// The value of `true` or `false`.
#[tactic(auto, using(crate::proofs::Telling::truth_laws))]
pub fn truth_value(b: bool) -> i64
    ensures { result ≡ truth b }
{
    if b { 1 } else { 0 }
}

// The ordinal of an enum name, 0 for what is none.
#[tactic(auto, using(crate::proofs::Telling::ordinal_laws))]
pub fn ordinal_in(m: Meaning) -> i64
    ensures { result ≡ ordinal_in m }
{
    match m {
        Meaning::Value(_, n) => n as i64,
        _ => 0,
    }
}

// The value of a label.
#[tactic(auto, using(crate::proofs::Telling::value_laws))]
pub fn value_of(text: &[u8], work: &[u32], scope: Scope, m: Mark) -> i64
    ensures { result ≡ value_at text.now work.now scope m }
{
    match m {
        Mark::Number(z) => z,
        Mark::Truth(b) => truth_value(b),
        Mark::Named(p) => ordinal_in(meaning_of(text, work, scope, p)),
    }
}

// The number of a label.
#[tactic(auto, using(crate::proofs::Finding::number_laws))]
fn number_of(text: &[u8], work: &[u32], scope: Scope, by: By, m: Mark) -> i64
    ensures { result ≡ number_at text.now work.now scope by m }
{
    match by {
        By::Value => value_of(text, work, scope, m),
        By::Key => key_of(text, work, scope, m),
    }
}

// The number of the next label from an offset inside an arm and the offset after it, if one is left.
#[tactic(auto, using(crate::proofs::Finding::next_laws))]
fn next_number(text: &[u8], work: &[u32], scope: Scope, by: By, at: usize) -> Option<(i64, usize)>
    ensures { NextNumbers text.now work.now scope by at result }
{
    let (m, q) = next_label(text, at)?;
    Some((number_of(text, work, scope, by, m), q))
}

// Whether an integer is among those of a block. The loop has no way out, so that the compiler compares several at once.
#[tactic(auto, using(crate::proofs::Finding::hold_laws))]
pub fn holds(block: &[i64], z: i64) -> bool
    ensures { result ≡ among z block.now }
{
    let mut any = false;
    for y in block {
        any = any | (z == *y);
    }
    any
}

// Whether an integer of a block comes again in it.
#[tactic(auto, using(crate::proofs::Finding::differ_laws))]
pub fn repeated(block: &[i64]) -> bool
    ensures { result ≡ not (apart block.now) }
{
    for i in 0..block.len() {
        if holds(&block[i + 1..], block[i]) {
            return true;
        }
    }
    false
}

// The numbers of the labels from an offset on, as many as a block holds.
#[tactic(auto, using(crate::proofs::Finding::fill_laws))]
fn fill_block(
    text: &[u8],
    work: &[u32],
    scope: Scope,
    by: By,
    block: &mut [i64],
    at: usize,
) -> Filled
    ensures { Fills text.now work.now scope by at result block.new }
{
    let mut p = at;
    for n in 0..block.len() {
        let Some((z, q)) = next_number(text, work, scope, by, p) else {
            return Filled { size: n, next: p };
        };
        block[n] = z;
        p = q;
    }
    Filled {
        size: block.len(),
        next: p,
    }
}

// Whether a number of a block is that of a label from an offset on.
#[tactic(auto, using(crate::proofs::Finding::compare_laws))]
fn comes_again(text: &[u8], work: &[u32], scope: Scope, by: By, block: &[i64], at: usize) -> bool
    ensures { ComesAgain text.now work.now scope by block.now at result }
{
    let mut p = at;
    while let Some((z, q)) = next_number(text, work, scope, by, p) {
        if holds(block, z) {
            return true;
        }
        p = q;
    }
    false
}

// Whether a number of a block comes again in it or among the labels from an offset on.
#[tactic(auto, using(crate::proofs::Finding::block_laws))]
fn recurs(text: &[u8], work: &[u32], scope: Scope, by: By, block: &[i64], at: usize) -> bool
    ensures { Recurs text.now work.now scope by block.now at result }
{
    repeated(block) || comes_again(text, work, scope, by, block, at)
}

// Whether the labels from an offset inside an arm on differ; they are compared block by block. No label is left after a block that is not full.
#[tactic(auto, using(crate::proofs::Finding::clear_laws))]
fn differ_from(
    text: &[u8],
    work: &[u32],
    scope: Scope,
    by: By,
    block: &mut [i64],
    at: usize,
) -> bool
    requires { 0 < length block.old }
    ensures { DiffersFrom text.now work.now scope by at result }
{
    let mut p = at;
    loop {
        let r = fill_block(text, work, scope, by, block, p);
        let n = r.size;
        if n < block.len() {
            return !repeated(&block[..n]);
        }
        if recurs(text, work, scope, by, &block[..n], r.next) {
            return false;
        }
        p = r.next;
    }
}

// Whether the labels of a case whose arms begin at an offset differ.
#[tactic(auto, using(crate::proofs::Finding::by_laws))]
pub fn differ_by(text: &[u8], work: &[u32], scope: Scope, by: By, at: usize) -> bool
    ensures { DiffersBy text.now work.now scope by at result }
{
    let Some(q) = arm_hop(text, at) else {
        return true;
    };
    let mut block = [0i64; BLOCK];
    differ_from(text, work, scope, by, &mut block, q)
}

// A fault of row 8 where a label comes twice in a case whose arms begin at an offset and have the fault f.
#[tactic(auto, using(crate::proofs::Finding::fault_laws))]
pub fn repeat_fault(text: &[u8], work: &[u32], scope: Scope, f: Fault, at: usize) -> Fault
    ensures { Repeating text.now work.now scope at f result }
{
    if !is_clear(f) {
        return Fault::Clear;
    }
    if differ_by(text, work, scope, By::Value, at) {
        Fault::Clear
    } else {
        Fault::Kind
    }
}
