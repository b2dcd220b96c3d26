// The flat passes over a line's words and brackets: words (row 5), the count of row 9.
ghost use Rattle.std.specs.Prelude.{◌≡◌};
ghost use Rattle.law_theorems.specs.Readings.{stack_at};
ghost use Rattle.text_words.specs.Passes.{is_known, LeafAt, Hops, is_stop, weight_of, fine_of, next_of, known_all, nodes_all};

use crate::sight::{Seen, word_at};
use leaf_bytes::bytes::{Class, class_of};
use leaf_words::words::Word;

// The next thing on a line: a word and whether it is of some kind, an opening bracket, a gap, or the line's end.
// Kept: the four things on a line; `Stop` is met with the others, so an Option is no plainer.
#[derive(Clone, Copy)]
pub enum Hop {
    Leaf(bool, usize),
    Open(usize),
    Gap(usize),
    Stop,
}

// Whether a word is of some kind.
fn is_known(w: Word) -> bool
    ensures { result ≡ is_known w }
{
    !matches!(w, Word::Unknown)
}

// A word that begins at p.
fn leaf_at(text: &[u8], p: usize) -> Hop
    ensures { LeafAt text.now p result }
{
    let seen = word_at(text, p);
    Hop::Leaf(is_known(seen.word), seen.next)
}

// What stands at p, and where to go on.
#[tactic(auto, using(crate::proofs::WordPasses::hop_laws))]
fn hop_at(text: &[u8], p: usize) -> Hop
    ensures { Hops text.now p result }
{
    if p >= text.len() {
        return Hop::Stop;
    }
    match class_of(text[p]) {
        Class::Space | Class::Close => Hop::Gap(p + 1),
        Class::Open => Hop::Open(p + 1),
        Class::Visible => leaf_at(text, p),
        Class::Feed | Class::Refused => Hop::Stop,
    }
}

// Whether the line ends here.
fn stops(h: Hop) -> bool
    ensures { result ≡ is_stop h }
{
    matches!(h, Hop::Stop)
}

// How many brackets and words this is: a pair is counted where it opens.
// Kept: two arms for four variants; `usize::from(matches!(..))` is no plainer.
fn weight(h: Hop) -> usize
    ensures { result ≡ weight_of h }
{
    match h {
        Hop::Leaf(_, _) | Hop::Open(_) => 1,
        Hop::Gap(_) | Hop::Stop => 0,
    }
}

// Whether this is no word of no kind.
fn fine(h: Hop) -> bool
    ensures { result ≡ fine_of h }
{
    match h {
        Hop::Leaf(b, _) => b,
        Hop::Open(_) | Hop::Gap(_) | Hop::Stop => true,
    }
}

// Where to go on.
fn next_of(h: Hop, p: usize) -> usize
    ensures { result ≡ next_of h p }
{
    match h {
        Hop::Leaf(_, q) | Hop::Open(q) | Hop::Gap(q) => q,
        Hop::Stop => p,
    }
}

// Row 5: whether every word from `at` to the line's end is of some kind.
pub fn words_known(text: &[u8], at: usize) -> bool
    ensures { result ≡ known_all (stack_at text.now at) }
{
    let mut p = at;
    loop {
        let h = hop_at(text, p);
        if stops(h) {
            return true;
        }
        if !fine(h) {
            return false;
        }
        p = next_of(h, p);
    }
}

// The brackets and words from `at` to the line's end; a pair is one.
pub fn count_nodes(text: &[u8], at: usize) -> usize
    ensures { result ≡ nodes_all (stack_at text.now at) }
{
    let mut p = at;
    let mut n = 0;
    loop {
        let h = hop_at(text, p);
        if stops(h) {
            return n;
        }
        n += weight(h);
        p = next_of(h, p);
    }
}
