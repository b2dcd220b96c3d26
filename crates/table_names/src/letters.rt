// The letters of a word one after another, in small letters; 0 where the word has ended.
ghost use Rattle.std.specs.Prelude.{◌≡◌, eqb};
ghost use Rattle.table_names.specs.Letters.{letter_of, byte_at, meets};

use leaf_bytes::bytes::{Class, class_of, small_of};

// The byte at an offset; a line feed past the text's end.
#[tactic(auto, using(crate::proofs::Spelled::byte_laws))]
pub(crate) fn byte_at(text: &[u8], p: usize) -> u8
    ensures { result ≡ byte_at text.now p }
{
    if p < text.len() { text[p] } else { 10 }
}

// The small letter that a byte is in a word; 0 of a byte that ends one.
// Kept: 0 ends a word and is no letter, so that two words are compared by one test for each letter.
#[tactic(auto, using(crate::proofs::Spelled::letter_laws))]
pub(crate) fn letter_of(b: u8) -> u8
    ensures { result ≡ letter_of b }
{
    match class_of(b) {
        Class::Visible => small_of(b),
        _ => 0,
    }
}

// Whether two bytes are the same letter. Mostly they are the same byte, which is seen at once.
#[tactic(auto, using(crate::proofs::Spelled::same_letter_laws))]
fn same_letter(a: u8, b: u8) -> bool
    ensures { result ≡ eqb (letter_of a) (letter_of b) }
{
    a == b || letter_of(a) == letter_of(b)
}

// Two words that were the same so far: they go on with the same letter, both end, or they differ.
#[derive(Clone, Copy)]
pub enum Meeting {
    Same,
    End,
    Differ,
}

// What two words that were the same so far are at the next offsets.
#[tactic(auto, using(crate::proofs::Spelled::meet_laws))]
pub(crate) fn meet(text: &[u8], p: usize, q: usize) -> Meeting
    ensures { result ≡ meets (letter_of (byte_at text.now p)) (letter_of (byte_at text.now q)) }
{
    let x = byte_at(text, p);
    if !same_letter(x, byte_at(text, q)) {
        Meeting::Differ
    } else if letter_of(x) == 0 {
        Meeting::End
    } else {
        Meeting::Same
    }
}
