// How many statements a part of a text holds: where a walk passes the part, the next statement's number is by so much higher.

#![tactic(auto)]

ghost use Rattle.std.specs.Prelude.{◌≡◌, ◌+◌};
ghost use Rattle.law.specs.Trees.{first};
ghost use Rattle.law_theorems.specs.Readings.{stack_at};
ghost use Rattle.mark_counts.specs.Statements.{one_for, head_verbs, verbs_in, Room, shut_from, Moves, CountsStatements};

use text_heads::{Verb, verb_of};
use text_parts::{Part, part_at};

// A statement's head is one.
// Kept: a number of a kind in two arms; `usize::from(v != Verb::Nothing)` is no plainer.
fn one_for(v: Verb) -> usize
    ensures { result ≡ one_for v }
{
    match v {
        Verb::Nothing => 0,
        _ => 1,
    }
}

// One, where the form whose parts begin at an offset is a statement.
fn head_at(text: &[u8], at: usize) -> usize
    ensures { result ≡ head_verbs (first (stack_at text.now at)) }
{
    let part = part_at(text, at);
    match part {
        Part::Leaf(w, _, _) => one_for(verb_of(w)),
        _ => 0,
    }
}

// Past a closing bracket that ends at q, where m more forms are open and n statements counted; `None` where the form itself ends.
fn shut(q: usize, m: usize, n: usize) -> Option<(usize, usize, usize)>
    ensures { result ≡ shut_from q m n }
{
    if m == 0 {
        return None;
    }
    Some((q, m - 1, n))
}

// Past a word or a bracket at p, where m more forms are open and n statements counted: the offset reached and both numbers there; `None` where the
// form has ended.
fn step(text: &[u8], p: usize, m: usize, n: usize) -> Option<(usize, usize, usize)>
    requires { Room text.now p m n }
    ensures { Moves text.now p m n result }
{
    let part = part_at(text, p);
    match part {
        Part::Leaf(_, _, q) => Some((q, m, n)),
        Part::Form(q) => Some((q, m + 1, n + head_at(text, q))),
        Part::Shut(q) => shut(q, m, n),
    }
}

// The statements in the form whose parts begin at an offset, itself among them.
fn count_form(text: &[u8], at: usize) -> usize
    ensures { result ≡ head_verbs (first (stack_at text.now at)) + verbs_in (first (stack_at text.now at)) }
{
    let mut p = at;
    let mut m = 0;
    let mut n = head_at(text, at);
    loop {
        let Some((q, deep, many)) = step(text, p, m, n) else {
            return n;
        };
        p = q;
        m = deep;
        n = many;
    }
}

// The statements in the part at an offset, itself among them; 0 where no part is left.
// Kept: 0 is how many there are, and no sign of failure.
pub fn count_statements(text: &[u8], at: usize) -> usize
    ensures { CountsStatements text.now at result }
{
    let part = part_at(text, at);
    match part {
        Part::Form(p) => count_form(text, p),
        _ => 0,
    }
}
