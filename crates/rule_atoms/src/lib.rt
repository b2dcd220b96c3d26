// A type's name, and a constant, where one is expected.

#![tactic(auto)]

ghost use Rattle.std.specs.Prelude.{◌≡◌, pos};
ghost use Rattle.table_scope.specs.Scene.{meaning_here};
ghost use Rattle.law.specs.Trees.{first};
ghost use Rattle.law_theorems.specs.Readings.{stack_at};
ghost use Rattle.text_heads.specs.Heads.{atom_of, expr_head_of};
ghost use Rattle.rule_atoms.specs.Answers.{typed as typed_by, type_meant, type_by, valued as valued_by, num_valued, value_meant, value_by, is_minus};
ghost use Rattle.rule_atoms.specs.Answering.{GivesType, GivesConstant, GivesMinus, minus_form, minus_number, minus_end, minus_by};

use leaf_integers::{fit, neg};
use leaf_words::words::Word;
use rule_faults::Fault;
use table_scope::{Meaning, Scope, meaning_of};
use text_heads::{Atom, ExprHead, atom_of, expr_head};
use text_parts::{Part, end_at, part_at};

// The answer for a type's name: its fault; with no fault the type; where the next part stands.
// Kept: the new form is no plainer, since behind a fault of row 7 the walk goes on at `next`, so a `Result` would have it on both sides.
#[derive(Clone, Copy)]
pub struct Typed {
    pub fault: Fault,
    pub kind: u32,
    pub next: usize,
}

// The answer for a constant: its fault; with no fault its type and its value; where the next part stands.
// Kept: the new form is no plainer, since behind a fault of row 7 or 8 the walk goes on at `next`, as of `Typed`.
#[derive(Clone, Copy)]
pub struct Valued {
    pub fault: Fault,
    pub kind: u32,
    pub value: i64,
    pub next: usize,
}

impl Typed {
    // The answer with no type.
    pub fn failed(fault: Fault, next: usize) -> Typed
        ensures { result ≡ typed_by fault 0 next }
    {
        let kind = 0;
        Typed { fault, kind, next }
    }
}

impl Valued {
    // The answer with no constant.
    pub fn failed(fault: Fault, next: usize) -> Valued
        ensures { result ≡ valued_by fault 0 (pos 0) next }
    {
        Valued {
            fault,
            kind: 0,
            value: 0,
            next,
        }
    }
}

// The type that a name means, a fault of row 7 where it means none.
fn type_meant(m: Meaning, next: usize) -> Typed
    ensures { result ≡ type_meant m next }
{
    match m {
        Meaning::Type(t) => Typed {
            fault: Fault::Clear,
            kind: t,
            next,
        },
        _ => Typed::failed(Fault::Name, next),
    }
}

// The type that the word at p names; the word ends at `next`.
fn type_word(text: &[u8], work: &[u32], scope: Scope, w: Word, p: usize, next: usize) -> Typed
    ensures { result ≡ type_by (atom_of w) (meaning_here text.now work.now scope p) next }
{
    match atom_of(w) {
        Atom::Named => type_meant(meaning_of(text, work, scope, p), next),
        Atom::Base(k) => Typed {
            fault: Fault::Clear,
            kind: k,
            next,
        },
        _ => Typed::failed(Fault::Form, next),
    }
}

// The type that the part at an offset names.
#[tactic(auto, using(crate::proofs::Ways::type_name_laws))]
pub fn type_name(text: &[u8], work: &[u32], scope: Scope, at: usize) -> Typed
    ensures { GivesType text.now work.now scope at result }
{
    match part_at(text, at) {
        Part::Leaf(w, p, q) => type_word(text, work, scope, w, p, q),
        _ => Typed::failed(Fault::Form, at),
    }
}

// A constant of a type by its exact value.
fn num_valued(kind: u32, n: Result<i64, leaf_integers::Fault>, next: usize) -> Valued
    ensures { result ≡ num_valued kind n next }
{
    match n {
        Ok(z) => Valued {
            fault: Fault::Clear,
            kind,
            value: z,
            next,
        },
        Err(_) => Valued::failed(Fault::Kind, next),
    }
}

// The enum value that a name means, a fault of row 7 where it means none.
fn value_meant(m: Meaning, next: usize) -> Valued
    ensures { result ≡ value_meant m next }
{
    match m {
        Meaning::Value(k, n) => num_valued(k, fit(i64::from(n)), next),
        _ => Valued::failed(Fault::Name, next),
    }
}

// The constant that the word at p is; the word ends at `next`.
fn value_word(text: &[u8], work: &[u32], scope: Scope, w: Word, p: usize, next: usize) -> Valued
    ensures { result ≡ value_by (atom_of w) (meaning_here text.now work.now scope p) next }
{
    match atom_of(w) {
        Atom::Number(z) => num_valued(0, fit(z), next),
        Atom::Named => value_meant(meaning_of(text, work, scope, p), next),
        Atom::Truth(b) => Valued {
            fault: Fault::Clear,
            kind: 1,
            value: i64::from(b),
            next,
        },
        _ => Valued::failed(Fault::Form, next),
    }
}

// The constant `(- z)`, whose number ends at an offset.
#[tactic(auto, using(crate::proofs::Ways::minus_end_laws))]
fn minus_end(text: &[u8], z: i64, at: usize) -> Valued
    ensures { GivesMinus text.now at (minus_end z (first (stack_at text.now at))) result }
{
    match end_at(text, at) {
        Some(q) => num_valued(0, neg(z), q),
        None => Valued::failed(Fault::Form, at),
    }
}

// The constant `(- number)`, past its head: the word there, if it is a number.
#[tactic(auto, using(crate::proofs::Ways::minus_word_laws))]
fn minus_word(text: &[u8], w: Word, next: usize, at: usize) -> Valued
    ensures { GivesMinus text.now next (minus_by (atom_of w) (first (stack_at text.now next))) result }
{
    match atom_of(w) {
        Atom::Number(z) => minus_end(text, z, next),
        _ => Valued::failed(Fault::Form, at),
    }
}

// The constant `(- number)`, past its head.
fn minus_number(text: &[u8], at: usize) -> Valued
    ensures { GivesMinus text.now at (minus_number (first (stack_at text.now at))) result }
{
    match part_at(text, at) {
        Part::Leaf(w, _, q) => minus_word(text, w, q, at),
        _ => Valued::failed(Fault::Form, at),
    }
}

// Whether a word is `-`.
fn is_minus(w: Word) -> bool
    ensures { result ≡ is_minus (expr_head_of w) }
{
    matches!(expr_head(w), ExprHead::Minus)
}

// The constant `(- number)` whose parts begin at an offset.
pub fn minus_form(text: &[u8], at: usize) -> Valued
    ensures { GivesMinus text.now at (minus_form (first (stack_at text.now at))) result }
{
    match part_at(text, at) {
        Part::Leaf(w, _, q) if is_minus(w) => minus_number(text, q),
        _ => Valued::failed(Fault::Form, at),
    }
}

// The constant that the part at an offset is.
pub fn constant(text: &[u8], work: &[u32], scope: Scope, at: usize) -> Valued
    ensures { GivesConstant text.now work.now scope at result }
{
    match part_at(text, at) {
        Part::Leaf(w, p, q) => value_word(text, work, scope, w, p, q),
        Part::Form(p) => minus_form(text, p),
        Part::Shut(_) => Valued::failed(Fault::Form, at),
    }
}
