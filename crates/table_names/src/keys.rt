// The key of a name: names are compared only where their keys agree.
ghost use Rattle.std.specs.Prelude.{◌≡◌, map};
ghost use Rattle.leaf_bytes.specs.Bytes.{small};
ghost use Rattle.law.specs.Trees.{word_at};
ghost use Rattle.table_names.specs.Keys.{key_with, key_of, keyed};

use crate::letters::{byte_at, letter_of};
use table_list::TEXT_LENGTH;

// How many offsets a name may have: those of the longest text.
pub const OFFSETS: u32 = TEXT_LENGTH as u32;

// A key's last 12 bits come from the letters, the 5 before them are how many there are: an offset and a key fill the 32 bits of an entry's
// first number, and no name has the key of one of another length.
const LETTERS: u32 = 4096;

// More than a name's letters.
const LENGTHS: u32 = 32;

// A key with one more letter.
fn key_with(k: u32, x: u8) -> u32
    ensures { result ≡ key_with k x }
{
    let letters = (k % LETTERS * 39 + x as u32) % LETTERS;
    letters + LETTERS * ((k / LETTERS + 1) % LENGTHS)
}

// The key of the word at an offset, case ignored.
// Kept: the word ends where a letter is 0, which no range and no slice knows before; `for` over all offsets is no plainer.
pub fn key_of(text: &[u8], offset: usize) -> u32
    ensures { result ≡ key_of (map small (word_at text.now offset)) }
{
    let mut p = offset;
    let mut k = 0;
    loop {
        let x = letter_of(byte_at(text, p));
        if x == 0 {
            return k;
        }
        k = key_with(k, x);
        p += 1;
    }
}

// The first number of the entry of the name at p: its offset, and its key.
pub fn name_number(text: &[u8], p: usize) -> u32
    ensures { result ≡ keyed text.now p }
{
    let key = key_of(text, p);
    (p % TEXT_LENGTH) as u32 + OFFSETS * key
}
