// The list of a `proc` line's parameters: what it is, and its faults.
ghost use Rattle.std.specs.Prelude.{◌≡◌, ltb};
ghost use Rattle.law.specs.Trees.{first};
ghost use Rattle.law_theorems.specs.Readings.{stack_at};
ghost use Rattle.table_scope.specs.Descriptions.{info_of};
ghost use Rattle.rule_parameters.specs.Listing.{list_after, StartsList, kind_fault, fault_by, GivesFaults, no_list, listed_by, GivesList};

use rule_declarations::named_fault;
use rule_faults::{Fault, is_clear, is_form, lowest};
use rule_pairs::{Pair, Pairs, pair_at, pairs_from};
use table_names::same_word;
use table_scope::{Scope, describe};
use text_words::sight::{Sight, look};

// The answer for the list of a procedure: its fault; with none of row 6 how many parameters, up to 1,000, where their pairs begin (0: there is no
// list), and where the body begins.
// Kept: a Result is no plainer, since faults of rows 7 and 8 stand beside the other answers; and `pairs` goes into the bodies' table as it is.
#[derive(Clone, Copy)]
pub struct Listed {
    pub fault: Fault,
    pub count: u32,
    pub pairs: usize,
    pub next: usize,
}

// The offset p past a bracket, if the form there begins with a form.
#[tactic(auto, using(crate::proofs::Lists::in_laws))]
fn list_in(text: &[u8], p: usize) -> Option<usize>
    ensures { result ≡ list_after (first (stack_at text.now p)) p }
{
    match look(text, p) {
        Sight::Form(_) => Some(p),
        _ => None,
    }
}

// Where the pairs begin of the list at an offset, if the part there is one.
// Kept: a match of two arms on another function than `arm_hop`; shared, it would be no plainer.
#[tactic(auto, using(crate::proofs::Lists::at_laws))]
fn list_at(text: &[u8], at: usize) -> Option<usize>
    ensures { StartsList text.now at result }
{
    match look(text, at) {
        Sight::Form(p) => list_in(text, p),
        _ => None,
    }
}

// The fault of a parameter's type: it is no ordinal and no set.
#[tactic(auto, using(crate::proofs::Lists::kind_laws))]
fn kind_fault(work: &[u32], types: &[u32], kind: u32) -> Fault
    ensures { result ≡ kind_fault (ltb (info_of work.now types.now kind).shape 2) }
{
    if describe(work, types, kind).shape < 2 {
        Fault::Clear
    } else {
        Fault::Kind
    }
}

// The fault of a pair whose form is right and whose type is known: the type is no ordinal and no set, or the name is known or the procedure's, which
// stands at `own`.
fn pair_fault(text: &[u8], work: &[u32], types: &[u32], scope: Scope, own: usize, x: Pair) -> Fault
    ensures { result ≡ fault_by text.now work.now types.now scope own x }
{
    let f = kind_fault(work, types, x.kind);
    if same_word(text, x.name, own) {
        return lowest(f, Fault::Name);
    }
    named_fault(text, work, scope, x.name, f)
}

// The fault of the pairs from an offset on, whose forms are right and whose types are known.
fn pair_faults(
    text: &[u8],
    work: &[u32],
    types: &[u32],
    scope: Scope,
    own: usize,
    at: usize,
) -> Fault
    ensures { GivesFaults text.now work.now types.now scope own at result }
{
    let mut p = at;
    let mut fault = Fault::Clear;
    loop {
        let x = pair_at(text, work, scope, p);
        let f = x.fault;
        if is_form(f) {
            return fault;
        }
        let g = fault;
        fault = lowest(g, pair_fault(text, work, types, scope, own, x));
        p = x.next;
    }
}

// The answer where there is no list.
fn no_list(at: usize) -> Listed
    ensures { result ≡ no_list at }
{
    Listed {
        fault: Fault::Clear,
        count: 0,
        pairs: 0,
        next: at,
    }
}

// The answer for the list whose pairs begin at q, from theirs.
fn list_answer(c: Pairs, fault: Fault, q: usize) -> Listed
    ensures { result ≡ listed_by c fault q }
{
    Listed {
        fault,
        count: c.names,
        pairs: q,
        next: c.next,
    }
}

// The parameters of the procedure whose name stands at `own`, if a list of them stands at an offset.
pub fn parameters_at(
    text: &[u8],
    work: &[u32],
    types: &[u32],
    scope: Scope,
    own: usize,
    at: usize,
) -> Listed
    ensures { GivesList text.now work.now types.now scope own at result }
{
    let Some(q) = list_at(text, at) else {
        return no_list(at);
    };
    let c = pairs_from(text, work, types, scope, q);
    let f = c.fault;
    if is_clear(f) {
        let g = pair_faults(text, work, types, scope, own, q);
        return list_answer(c, g, q);
    }
    list_answer(c, f, q)
}
