// The order of words: letter by letter, and a word before those that go on from it.
ghost use Rattle.std.specs.Prelude.{◌≡◌, map};
ghost use Rattle.leaf_bytes.specs.Bytes.{small};
ghost use Rattle.law.specs.Trees.{word_at};
ghost use Rattle.table_names.specs.Letters.{letter_of, byte_at};
ghost use Rattle.table_names.specs.Order.{lettered, ordered};

use crate::letters::{Meeting, byte_at, letter_of, meet};
use std::cmp::Ordering;

// The order of two words by the letters at two offsets, which differ.
#[tactic(auto, using(crate::proofs::Ordering::letters_laws))]
fn by_letters(text: &[u8], p: usize, q: usize) -> Ordering
    ensures { result ≡ lettered (letter_of (byte_at text.now p)) (letter_of (byte_at text.now q)) }
{
    let x = letter_of(byte_at(text, p));
    let y = letter_of(byte_at(text, q));
    if x < y {
        Ordering::Less
    } else {
        Ordering::Greater
    }
}

// The order of the words at two offsets, case ignored.
// Kept: as `same_word`: no range knows before where the words end.
pub(crate) fn order_of(text: &[u8], a: usize, b: usize) -> Ordering
    ensures { result ≡ ordered (map small (word_at text.now a)) (map small (word_at text.now b)) }
{
    let mut p = a;
    let mut q = b;
    loop {
        match meet(text, p, q) {
            Meeting::Same => {
                p += 1;
                q += 1;
            }
            Meeting::End => {
                return Ordering::Equal;
            }
            Meeting::Differ => {
                return by_letters(text, p, q);
            }
        }
    }
}
