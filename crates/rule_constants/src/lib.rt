// Row 8 of document 01, constants past the integers: only `(- number)` may be one, so a part is scanned for that form, bracket by bracket.

#![tactic(auto)]

ghost use Rattle.std.specs.Prelude.{◌≡◌, not, ◌&&◌, ◌+◌, ◌≤◌, length};
ghost use Rattle.law.specs.Trees.{first};
ghost use Rattle.law_theorems.specs.Readings.{stack_at};
ghost use Rattle.text_words.specs.Passes.{nodes_all};
ghost use Rattle.rule_atoms.specs.Answering.{minus_form};
ghost use Rattle.rule_constants.specs.Plain.{is_kind, sound_by, plain_in, plain_first};
ghost use Rattle.rule_constants.specs.Scans.{out_from, Opens, Strides};

use rule_atoms::minus_form;
use rule_faults::Fault;
use text_words::sight::{Sight, look, word_end};

// On in a form: the offset reached and how many forms are open there; the form has ended; or a constant past the integers stands here.
// Kept: an Option or a Result is no plainer, since the scan has three ways on, two of which end it with an answer of their own.
#[derive(Clone, Copy)]
pub enum Stride {
    To(usize, usize),
    Out,
    Bad,
}

// Whether it is a fault of row 8.
fn is_kind(f: Fault) -> bool
    ensures { result ≡ is_kind f }
{
    matches!(f, Fault::Kind)
}

// Whether a form whose parts begin at p is a constant past the integers.
fn past_integers(text: &[u8], p: usize) -> bool
    ensures { result ≡ not (sound_by (minus_form (first (stack_at text.now p)))) }
{
    is_kind(minus_form(text, p).fault)
}

// Into a form whose parts begin at q, where n are open around it.
fn open_form(text: &[u8], q: usize, n: usize) -> Stride
    requires { n + nodes_all (stack_at text.now q) ≤ length text.now }
    ensures { Opens text.now q n result }
{
    if past_integers(text, q) {
        return Stride::Bad;
    }
    Stride::To(q, n + 1)
}

// Past a closing bracket that ends at q, where n forms are open.
#[tactic(auto, using(crate::proofs::Scanning::shut_laws))]
fn shut(n: usize, q: usize) -> Stride
    ensures { result ≡ out_from n q }
{
    if n == 0 {
        Stride::Out
    } else {
        Stride::To(q, n - 1)
    }
}

// Past a word or a bracket inside a form in which n more are open.
fn stride_at(text: &[u8], p: usize, n: usize) -> Stride
    requires { n + nodes_all (stack_at text.now p) ≤ length text.now }
    ensures { Strides text.now p n result }
{
    let s = look(text, p);
    match s {
        Sight::Form(q) => open_form(text, q, n),
        Sight::Leaf(q) => Stride::To(word_end(text, q), n),
        Sight::Shut(q) => shut(n, q),
    }
}

// Whether the parts from an offset to the closing bracket have no constant past the integers.
fn plain_parts(text: &[u8], at: usize) -> bool
    ensures { result ≡ plain_in (first (stack_at text.now at)) }
{
    let mut p = at;
    let mut n = 0;
    loop {
        let s = stride_at(text, p, n);
        match s {
            Stride::To(q, m) => {
                p = q;
                n = m;
            }
            Stride::Out => {
                return true;
            }
            Stride::Bad => {
                return false;
            }
        }
    }
}

// The same of a form whose parts begin at p.
#[tactic(auto, using(crate::proofs::Scanning::form_laws))]
fn plain_form(text: &[u8], p: usize) -> bool
    ensures { result ≡ (sound_by (minus_form (first (stack_at text.now p))) && plain_in (first (stack_at text.now p))) }
{
    !past_integers(text, p) && plain_parts(text, p)
}

// Whether the part at an offset, if there is one, has no constant past the integers.
#[tactic(auto, using(crate::proofs::Scanning::part_laws))]
pub fn plain_part(text: &[u8], at: usize) -> bool
    ensures { result ≡ plain_first (first (stack_at text.now at)) }
{
    match look(text, at) {
        Sight::Form(p) => plain_form(text, p),
        _ => true,
    }
}
