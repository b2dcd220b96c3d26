// The kinds of word.
ghost use Rattle.std.specs.Prelude.{◌≡◌};
ghost use Rattle.leaf_bytes.specs.Names.{is_name};
ghost use Rattle.leaf_words.specs.Words.{named, word_of};

use crate::numbers::number_of;
use leaf_bytes::names::is_name;
use leaf_reserved::table::{RESERVED, place_of};

// What a word is. A reserved word and an operator have their places in their list of document 01.
// Kept: `Unknown` is one of the five kinds that the law has, and is counted like the others; an Option is no plainer.
#[derive(Clone, Copy, PartialEq, Eq)]
pub enum Word {
    Number(i64),
    Name,
    Reserved(usize),
    Operator(usize),
    Unknown, // refusal 5
}

// What a word that is not in the table is: a name, a number, or of no kind.
#[tactic(auto, using(crate::proofs::WordKinds::free_laws))]
fn free_word(w: &[u8]) -> Word
    ensures { result ≡ named (is_name w.now) w.now }
{
    if is_name(w) { Word::Name } else { number_of(w) }
}

// What the word w is.
#[tactic(auto, using(crate::proofs::WordKinds::word_laws))]
pub fn word_of(w: &[u8]) -> Word
    ensures { result ≡ word_of w.now }
{
    match place_of(w) {
        Some(k) if k < RESERVED => Word::Reserved(k),
        Some(k) => Word::Operator(k - RESERVED),
        None => free_word(w),
    }
}
