// The names of an enumeration.
ghost use Rattle.std.specs.Prelude.{◌≡◌, cond, ◌&&◌};
ghost use Rattle.rule_enum_lines.specs.Enums.{Listed, is_unknown, GivesNew, GivesFresh, counted, counted_by, EndsNames, NamesTold};
ghost use Rattle.rule_faults.specs.declared.Fault.TheVariants.{Clear, Name};
ghost use Rattle.rule_repeats.specs.Leads.{leads_at};
ghost use Rattle.rule_repeats.specs.Blocks.{apart};

use rule_declarations::name_at;
use rule_faults::Fault;
use rule_repeats::blocks::differ_too;
use table_names::same_word;
use table_scope::{Meaning, Scope, meaning_of};
use text_parts::end_at;

// Whether the word at x is among the free names from an offset on; the text is read again, since a line may have any number of names.
pub fn listed(text: &[u8], x: usize, at: usize) -> bool
    ensures { Listed text.now x at result }
{
    let mut p = at;
    while let Some(name) = name_at(text, p) {
        if same_word(text, name.at, x) {
            return true;
        }
        p = name.next;
    }
    false
}

// The answer for the names of an enumeration: the fault; with none of row 6 how many names, up to 1,000, and where the next part stands.
// Kept: the new form is no plainer, since behind a fault of row 7 the walk goes on at `next`, as of rule_atoms' `Typed`.
#[derive(Clone, Copy)]
pub struct Counted {
    pub fault: Fault,
    pub names: u32,
    pub next: usize,
}

// Whether a name has no meaning.
fn is_unknown(m: Meaning) -> bool
    ensures { result ≡ is_unknown m }
{
    matches!(m, Meaning::Unknown)
}

// Whether the name at y has no meaning yet.
fn is_new(text: &[u8], work: &[u32], scope: Scope, y: usize) -> bool
    ensures { GivesNew text.now work.now scope y result }
{
    is_unknown(meaning_of(text, work, scope, y))
}

// Whether the name at y is new, and none of those from q on.
#[tactic(auto, using(crate::proofs::EnumNames::fresh_laws))]
pub fn is_fresh(text: &[u8], work: &[u32], scope: Scope, y: usize, q: usize) -> bool
    ensures { GivesFresh text.now work.now scope y q result }
{
    !listed(text, y, q) && is_new(text, work, scope, y)
}

// One more, up to 1,000.
#[tactic(auto, using(crate::proofs::EnumNames::counted_laws))]
pub fn one_more(n: u32) -> u32
    ensures { result ≡ counted n }
{
    if n < 1000 { n + 1 } else { n }
}

// Row 7 where a name is not new.
pub fn fresh_fault(ok: bool) -> Fault
    ensures { result ≡ cond ok Clear Name }
{
    if ok { Fault::Clear } else { Fault::Name }
}

// Whether both hold.
pub fn both(a: bool, b: bool) -> bool
    ensures { result ≡ (a && b) }
{
    a && b
}

// An answer for names from its parts.
fn names_answer(fault: Fault, names: u32, next: usize) -> Counted
    ensures { result ≡ counted_by fault names next }
{
    Counted { fault, names, next }
}

// The answer for the names from an offset on, which end at p: row 6 where another part comes.
fn names_end(text: &[u8], at: usize, p: usize, n: u32, ok: bool) -> Counted
    ensures { EndsNames text.now p n (ok && apart (leads_at text.now at)) result }
{
    let e = end_at(text, p);
    match e {
        Some(q) => names_answer(fresh_fault(differ_too(text, at, ok)), n, q),
        None => names_answer(Fault::Form, 0, p),
    }
}

// The names of an enumeration from an offset on.
pub fn enum_names(text: &[u8], work: &[u32], scope: Scope, at: usize) -> Counted
    ensures { NamesTold text.now work.now scope at result }
{
    let mut p = at;
    let mut n = 0;
    let mut ok = true;
    while let Some(name) = name_at(text, p) {
        ok = both(ok, is_new(text, work, scope, name.at));
        n = one_more(n);
        p = name.next;
    }
    names_end(text, at, p, n, ok)
}
