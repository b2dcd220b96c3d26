// What the working list holds of an environment: the meanings of names and the descriptions of types.

#![tactic(auto)]

pub mod frames;
pub mod pairs;

ghost use Rattle.std.specs.Prelude.{◌≡◌, map, ◌+◌, ◌*◌, ◌<◌, ◌≤◌};
ghost use Rattle.leaf_bytes.specs.Bytes.{small};
ghost use Rattle.law.specs.Trees.{first, word_at};
ghost use Rattle.law_theorems.specs.Readings.{stack_at};
ghost use Rattle.table_scope.specs.Descriptions.{ordinal_info, integer_info, boolean_info, no_info, read_info, info_of, field_place};
ghost use Rattle.table_scope.specs.Loops.{no_loops, listed_loops, loops_over, with_loop};
ghost use Rattle.table_scope.specs.Pairs.{after_lead};
ghost use Rattle.table_scope.specs.Scene.{meaning_by, declared_here, type_in, kind_by, kind_of, parameter_of, meaning_here};
ghost use Rattle.text_heads.specs.Heads.{atom_of};
ghost use Rattle.table_scope.specs.Sides.{host_in, class_in, side_in};

use crate::pairs::{PAIR_NUMBERS, find_pair, type_word};
use leaf_words::words::Word;
use table_kinds::{Class, Side};
use table_list::at;
use table_names::{lookup, same_word};
use text_heads::{Atom, atom_of};
use text_parts::{Part, part_at};

// What is known of a type: its shape (0 ordinal, 1 set, 2 array, 3 record), its host, its bounds in 32 bits, how many cells it has, its
// index and element types, how many fields it has, and the place of its description, after which those stand.
#[derive(Clone, Copy)]
pub struct Info {
    pub shape: u32,
    pub host: u32,
    pub low: u32,
    pub high: u32,
    pub size: u32,
    pub index: u32,
    pub element: u32,
    pub fields: u32,
    pub place: u32,
}

// What is known on a line: how many names are declared before it, and the newest entry of them. In a procedure with parameters also where in
// the text their pairs begin, and how many variables there are before, and parameters of other procedures; of any other line these are 0.
#[derive(Clone, Copy)]
pub struct Scope {
    pub count: u32,
    pub newest: u32,
    pub pairs: usize,
    pub vars: u32,
    pub parameters: u32,
}

// What a name means.
// Kept: `Unknown` is met in one arm with the meanings that do not fit either; an Option around them is no plainer.
#[derive(Clone, Copy)]
pub enum Meaning {
    Unknown,
    Type(u32),
    Var(u32, u32, u32), // its number, type and first cell
    Proc(u32), // the place of its body
    Value(u32, u32), // its type and ordinal
}

// The description at a place.
fn read_info(work: &[u32], place: u32) -> Info
    ensures { result ≡ read_info work.now place }
{
    let p = place as usize;
    Info {
        shape: at(work, p),
        host: at(work, p + 1),
        low: at(work, p + 2),
        high: at(work, p + 3),
        size: at(work, p + 4),
        index: at(work, p + 5),
        element: at(work, p + 6),
        fields: at(work, p + 7),
        place,
    }
}

// The description of an ordinal type by its host and its bounds in 32 bits.
pub fn ordinal_info(host: u32, low: u32, high: u32) -> Info
    ensures { result ≡ ordinal_info host low high }
{
    Info {
        shape: 0,
        host,
        low,
        high,
        size: 1,
        index: 0,
        element: 0,
        fields: 0,
        place: 0,
    }
}

// The description of integer.
fn integer_info() -> Info
    ensures { result ≡ integer_info }
{
    ordinal_info(0, 2147483648, 2147483647)
}

// The description of boolean.
fn boolean_info() -> Info
    ensures { result ≡ boolean_info }
{
    ordinal_info(1, 0, 1)
}

// What stands for a type that no line declared.
pub fn no_info() -> Info
    ensures { result ≡ no_info }
{
    Info {
        shape: 3,
        host: 0,
        low: 0,
        high: 0,
        size: 0,
        index: 0,
        element: 0,
        fields: 0,
        place: 0,
    }
}

// The description of type k; `types` holds the places.
// Kept: types 0 and 1 are the built-in ones by the number that the working list holds for each type.
#[tactic(auto, using(crate::proofs::Ways::describe_laws))]
pub fn describe(work: &[u32], types: &[u32], k: u32) -> Info
    ensures { result ≡ info_of work.now types.now k }
{
    match k {
        0 => integer_info(),
        1 => boolean_info(),
        _ => match at(types, k as usize) {
            0 => no_info(),
            place => read_info(work, place),
        },
    }
}

// How many types there are at most: 64 declared ones and the two built-in.
pub const MOST_TYPES: usize = 66;

// Types have numbers below this; a variable's third number is its type and so many times its first cell.
pub const TYPE_NUMBERS: u32 = 128;

// What an entry's second and third numbers mean.
// Kept: an entry's second number says its sort in the working list (fixed memory); this is where it becomes an enum.
#[tactic(auto, using(crate::proofs::Ways::by_laws))]
fn meaning_by(sort: u32, more: u32) -> Meaning
    ensures { result ≡ meaning_by sort more }
{
    match sort % 4 {
        0 => Meaning::Type(sort / 4),
        1 => Meaning::Var(sort / 4, more % TYPE_NUMBERS, more / TYPE_NUMBERS),
        2 => Meaning::Proc(more),
        _ => Meaning::Value(sort / 4 % TYPE_NUMBERS, more),
    }
}

// The meaning of the word at an offset among the names that lines declare.
#[tactic(auto, using(crate::proofs::Ways::declared_laws))]
fn declared(text: &[u8], work: &[u32], scope: Scope, offset: usize) -> Meaning
    ensures { result ≡ declared_here text.now work.now scope offset }
{
    let p = lookup(text, work, scope.count, scope.newest, offset) as usize;
    if p == 0 {
        Meaning::Unknown
    } else {
        meaning_by(at(work, p + 1), at(work, p + 2))
    }
}

// The type that a meaning is, 0 where it is none.
fn type_in(m: Meaning) -> u32
    ensures { result ≡ type_in m }
{
    match m {
        Meaning::Type(t) => t,
        _ => 0,
    }
}

// The type that the word w at p names, 0 where it names none.
#[tactic(auto, using(crate::proofs::Ways::atom_laws))]
fn kind_by(text: &[u8], work: &[u32], scope: Scope, w: Word, p: usize) -> u32
    ensures { result ≡ kind_by (atom_of w) (declared_here text.now work.now scope p) }
{
    match atom_of(w) {
        Atom::Named => type_in(declared(text, work, scope, p)),
        Atom::Base(k) => k,
        Atom::Number(_) | Atom::Truth(_) | Atom::ErrorNumber | Atom::Nothing => 0,
    }
}

// The type of the parameter whose pair's parts begin at an offset.
#[tactic(auto, using(crate::proofs::Ways::kind_laws))]
fn kind_in(text: &[u8], work: &[u32], scope: Scope, at: usize) -> u32
    ensures { result ≡ kind_of text.now work.now scope (after_lead (first (stack_at text.now at))) }
{
    match part_at(text, type_word(text, at)) {
        Part::Leaf(w, p, _) => kind_by(text, work, scope, w, p),
        Part::Form(_) | Part::Shut(_) => 0,
    }
}

// Variables, and parameters, are counted modulo this, so that no sum is too large: there are at most 128 of both.
const VAR_NUMBERS: u32 = 256;

// Parameters have their cells past the 2,048 that may be lent.
pub const LENT_CELLS: u32 = 2048;

// Parameter j of the procedure, whose pair's parts begin at an offset.
fn parameter(text: &[u8], work: &[u32], scope: Scope, j: u32, at: usize) -> Meaning
    ensures { result ≡ parameter_of text.now work.now scope j (first (stack_at text.now at)) }
{
    let k = kind_in(text, work, scope, at);
    let i = j % PAIR_NUMBERS;
    Meaning::Var(
        scope.vars % VAR_NUMBERS + i,
        k,
        LENT_CELLS + scope.parameters % VAR_NUMBERS + i,
    )
}

// The meaning of the word at an offset.
#[tactic(auto, using(crate::proofs::Ways::meaning_laws))]
pub fn meaning_of(text: &[u8], work: &[u32], scope: Scope, offset: usize) -> Meaning
    ensures { result ≡ meaning_here text.now work.now scope offset }
{
    if scope.pairs == 0 {
        return declared(text, work, scope, offset);
    }
    match find_pair(text, scope.pairs, offset) {
        Some((j, q)) => parameter(text, work, scope, j, q),
        None => declared(text, work, scope, offset),
    }
}

// The kind of type k: an ordinal's host, any other type itself.
#[tactic(auto, using(crate::proofs::Ways::host_laws))]
pub fn host_of(work: &[u32], types: &[u32], k: u32) -> u32
    ensures { result ≡ host_in work.now types.now k }
{
    let x = describe(work, types, k);
    if x.shape == 0 { x.host } else { k }
}

// The class of kind k by the number of its shape.
// Kept: a description's shape and a kind are numbers in the working list (fixed memory); this is where they become an enum.
#[tactic(auto, using(crate::proofs::Ways::class_laws))]
fn class_by(shape: u32, k: u32) -> Class
    ensures { result ≡ class_in shape k }
{
    match shape {
        0 => match k {
            0 => Class::Integer,
            1 => Class::Boolean,
            _ => Class::Enum,
        },
        1 => Class::Set,
        _ => Class::Whole,
    }
}

// Kind k as a side of an operator.
pub fn side_of(work: &[u32], types: &[u32], k: u32) -> Side
    ensures { result ≡ side_in work.now types.now k }
{
    let x = describe(work, types, k);
    let class = class_by(x.shape, k);
    let base = host_of(work, types, x.element);
    Side {
        class,
        kind: k,
        base,
    }
}

// A place in 32 bits; 0 for one that has no room there.
fn narrow(p: usize) -> u32
    ensures { p < 4294967296 → result ≡ p }
{
    if p < 4294967296 { p as u32 } else { 0 }
}

// The place of the field that the word at an offset names, among those of the description at a place; 0 if none does.
pub fn find_field(text: &[u8], work: &[u32], place: u32, fields: u32, offset: usize) -> u32
    ensures { place + 8 + 4 * fields ≤ 4294967296 → result ≡ field_place text.now work.now (place + 8) fields (map small (word_at text.now offset)) }
{
    for j in 0..fields {
        let p = place as usize + 8 + 4 * j as usize;
        if same_word(text, at(work, p) as usize, offset) {
            return narrow(p);
        }
    }
    0
}

// How many loops there can be around a statement: one for each bracket level, and the statement's own.
pub const MOST_LOOPS: usize = 33;

// The same as a count of loops.
const LOOPS_END: u32 = MOST_LOOPS as u32;

// The control variables of the loops around, by number, the outermost first: so many of the list.
// Kept: fixed memory and no heap: at most `MOST_LOOPS` loops, of which `count` are open.
#[derive(Clone, Copy)]
pub struct Loops {
    pub count: u32,
    pub over: [u32; MOST_LOOPS],
}

// No loop.
pub fn no_loops() -> Loops
    ensures { result ≡ no_loops }
{
    Loops {
        count: 0,
        over: [0; MOST_LOOPS],
    }
}

// A count of loops, as far as the list goes.
#[tactic(auto, using(crate::proofs::Looping::listed_laws))]
fn listed_loops(n: u32) -> usize
    ensures { result ≡ listed_loops n }
{
    if n < LOOPS_END {
        n as usize
    } else {
        MOST_LOOPS
    }
}

// Whether variable i is the control variable of one.
pub fn loops_over(m: Loops, i: u32) -> bool
    ensures { result ≡ loops_over m i }
{
    let over = m.over;
    for j in 0..listed_loops(m.count) {
        if over[j] == i {
            return true;
        }
    }
    false
}

// The loops with one over variable i besides, where the list has room for it.
#[tactic(auto, using(crate::proofs::Looping::with_laws))]
pub fn with_loop(m: Loops, i: u32) -> Loops
    ensures { result ≡ with_loop m i }
{
    let n = m.count;
    if n < LOOPS_END {
        let mut over = m.over;
        over[n as usize] = i;
        Loops { count: n + 1, over }
    } else {
        m
    }
}
