// Pairs `(N T)` of a name and a type's name, as the fields of a record are written: one pair, and all from an offset on.

#![tactic(auto)]

ghost use Rattle.std.specs.Prelude.{◌≡◌, cond, ◌&&◌, eqb};
ghost use Rattle.rule_faults.specs.declared.Fault.TheVariants.{Form};
ghost use Rattle.table_scope.specs.Descriptions.{info_of};
ghost use Rattle.rule_repeats.specs.Leads.{leads_at};
ghost use Rattle.rule_repeats.specs.Blocks.{apart};
ghost use Rattle.rule_pairs.specs.Pairs.{pair_given, GivesParts, GivesPair, add_size, pairs_given, EndsPairs, GivesPairs};

use rule_atoms::Typed;
use rule_declarations::{MOST_CELLS, last_type, name_at};
use rule_enum_lines::enums::{both, fresh_fault, one_more};
use rule_faults::{Fault, is_clear, is_form};
use rule_repeats::blocks::differ_too;
use table_scope::{Scope, describe};
use text_parts::{Part, end_at, part_at};

// The answer for a pair: its fault of rows 6 and 7; with none of row 6 its name's offset, its type if that is known, and where the next
// part stands.
// Kept: a Result is no plainer, since a fault of row 7 stands beside the name's offset and the next part's.
#[derive(Clone, Copy)]
pub struct Pair {
    pub fault: Fault,
    pub name: usize,
    pub kind: u32,
    pub next: usize,
}

// The answer for all pairs: the fault; with none of row 6 how many, up to 1,000, and where the next part stands; with none the sum of
// their types' cells, or some number past 2,048.
// Kept: a Result is no plainer, since a fault of row 7 stands beside the number of pairs and the next part's offset.
#[derive(Clone, Copy)]
pub struct Pairs {
    pub fault: Fault,
    pub names: u32,
    pub size: u32,
    pub next: usize,
}

// An answer for a pair from its parts.
fn pair_answer(fault: Fault, name: usize, kind: u32, next: usize) -> Pair
    ensures { result ≡ pair_given fault name kind next }
{
    Pair {
        fault,
        name,
        kind,
        next,
    }
}

// An answer for a pair whose name is at y, from that for its type.
fn pair_typed(t: Typed, y: usize) -> Pair
    ensures { result ≡ pair_given t.fault y t.kind t.next }
{
    pair_answer(t.fault, y, t.kind, t.next)
}

// A pair, past its bracket.
fn pair_parts(text: &[u8], work: &[u32], scope: Scope, at: usize) -> Pair
    ensures { GivesParts text.now work.now scope at result }
{
    match name_at(text, at) {
        Some(n) => pair_typed(last_type(text, work, scope, n.next), n.at),
        None => pair_answer(Fault::Form, 0, 0, at),
    }
}

// The pair at an offset.
pub fn pair_at(text: &[u8], work: &[u32], scope: Scope, at: usize) -> Pair
    ensures { GivesPair text.now work.now scope at result }
{
    match part_at(text, at) {
        Part::Form(p) => pair_parts(text, work, scope, p),
        _ => pair_answer(Fault::Form, 0, 0, at),
    }
}

// A number of cells that is past the ceiling.
const TOO_MANY: u32 = MOST_CELLS + 1;

// A sum of cells; any number past 2,048 where it is past that.
pub fn add_size(a: u32, b: u32) -> u32
    ensures { result ≡ add_size a b }
{
    if a <= MOST_CELLS {
        if b <= MOST_CELLS {
            return a + b;
        }
        return TOO_MANY;
    }
    TOO_MANY
}

// The same with the cells of a type.
pub fn add_type_size(work: &[u32], types: &[u32], a: u32, kind: u32) -> u32
    ensures { result ≡ add_size a (info_of work.now types.now kind).size }
{
    add_size(a, describe(work, types, kind).size)
}

// Row 6 where there is no pair.
#[tactic(auto, using(crate::proofs::PairParts::some_laws))]
fn some_fault(n: u32, f: Fault) -> Fault
    ensures { result ≡ cond (eqb n 0) Form f }
{
    if n == 0 { Fault::Form } else { f }
}

// An answer for all pairs from its parts.
fn pairs_answer(fault: Fault, names: u32, size: u32, next: usize) -> Pairs
    ensures { result ≡ pairs_given fault names size next }
{
    Pairs {
        fault,
        names,
        size,
        next,
    }
}

// The answer for the pairs from an offset on, which end at p: row 6 where another part comes.
fn pairs_end(text: &[u8], at: usize, p: usize, n: u32, size: u32, ok: bool) -> Pairs
    ensures { EndsPairs text.now p n size (ok && apart (leads_at text.now at)) result }
{
    let e = end_at(text, p);
    match e {
        Some(q) => pairs_answer(
            some_fault(n, fresh_fault(differ_too(text, at, ok))),
            n,
            size,
            q,
        ),
        None => pairs_answer(Fault::Form, 0, 0, p),
    }
}

// The pairs from an offset on.
pub fn pairs_from(text: &[u8], work: &[u32], types: &[u32], scope: Scope, at: usize) -> Pairs
    ensures { GivesPairs text.now work.now types.now scope at result }
{
    let mut p = at;
    let mut n = 0;
    let mut size = 0;
    let mut ok = true;
    loop {
        let f = pair_at(text, work, scope, p);
        let g = f.fault;
        if is_form(g) {
            return pairs_end(text, at, p, n, size, ok);
        }
        size = add_type_size(work, types, size, f.kind);
        ok = both(ok, is_clear(g));
        n = one_more(n);
        p = f.next;
    }
}
