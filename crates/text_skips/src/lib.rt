// Past a part of a form: where the next part stands, found with no recursion.

#![tactic(auto)]

ghost use Rattle.std.specs.Prelude.{◌≡◌, ◌+◌, ◌≤◌, length};
ghost use Rattle.law_theorems.specs.Readings.{stack_at};
ghost use Rattle.text_words.specs.Passes.{nodes_all};
ghost use Rattle.text_skips.specs.Skips.{out_from, Moves, Past, Skips};

use text_words::sight::{Sight, look, word_end};

// On inside a form: the offset reached and how many forms are open there, or the offset past the form's closing bracket.
// Kept: both ways have what the walk goes on with, and neither is a failure; a Result is no plainer.
#[derive(Clone, Copy)]
pub enum Move {
    To(usize, usize),
    Out(usize),
}

// Past a closing bracket that ends at q, where n forms are open.
#[tactic(auto, using(crate::proofs::Skipping::shut_laws))]
fn shut(n: usize, q: usize) -> Move
    ensures { result ≡ out_from n q }
{
    if n == 0 {
        Move::Out(q)
    } else {
        Move::To(q, n - 1)
    }
}

// Past a word or a bracket inside a form in which n more are open.
fn step(text: &[u8], p: usize, n: usize) -> Move
    requires { n + nodes_all (stack_at text.now p) ≤ length text.now }
    ensures { Moves text.now p n result }
{
    match look(text, p) {
        Sight::Form(q) => Move::To(q, n + 1),
        Sight::Leaf(q) => Move::To(word_end(text, q), n),
        Sight::Shut(q) => shut(n, q),
    }
}

// Past the closing bracket of a form whose parts begin at an offset.
pub fn past_form(text: &[u8], at: usize) -> usize
    ensures { Past text.now at result }
{
    let mut p = at;
    let mut n = 0;
    loop {
        match step(text, p, n) {
            Move::To(q, m) => {
                p = q;
                n = m;
            }
            Move::Out(q) => {
                return q;
            }
        }
    }
}

// Past the part at an offset, or past the closing bracket where no part is left.
#[tactic(auto, using(crate::proofs::Skipping::skip_laws))]
pub fn skip(text: &[u8], at: usize) -> usize
    ensures { Skips text.now at result }
{
    match look(text, at) {
        Sight::Form(p) => past_form(text, p),
        Sight::Leaf(p) => word_end(text, p),
        Sight::Shut(q) => q,
    }
}
