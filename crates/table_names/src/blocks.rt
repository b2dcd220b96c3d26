// The values of an enumeration, found by halving: their entries stand one after another behind the type's entry and description, and their
// second numbers say which of them comes where in order of key and name.
ghost use Rattle.std.specs.Prelude.{◌≡◌, map};
ghost use Rattle.leaf_bytes.specs.Bytes.{small};
ghost use Rattle.law.specs.Trees.{word_at};
ghost use Rattle.table_names.specs.Keys.{key_of};
ghost use Rattle.table_names.specs.Chain.{first_value, order_at, ranked, middle, value_in};

use crate::keys::OFFSETS;
use crate::order::order_of;
use std::cmp::Ordering;
use table_list::at;

// How far the first value stands from the type's entry: that has 4 numbers, its description 8.
const FIRST_VALUE: u32 = 12;

// More than the places of a working list: a place is taken modulo it, so that a sum is not too large.
const PLACES: u32 = 32768;

// A value's second number is its sort, and so many times the number of the value that comes there in order.
pub const SORTS: u32 = 512;

// How many values an enumeration has at most.
pub const VALUES: u32 = 256;

// How often so many can be halved, and once more.
const HALVINGS: u32 = 9;

// The place of the first value behind the type's entry at a place.
pub fn first_value(place: u32) -> u32
    ensures { result ≡ first_value place }
{
    place % PLACES + FIRST_VALUE
}

// Where the entry at e stands to the word at an offset, which has this key.
// Kept: two tests and no `cmp`, with which a lookup among thousands of names takes up to 1.8 times as long (`docs/LOOK-BACK.md`).
#[tactic(auto, using(crate::proofs::Ordering::at_laws))]
pub fn order_at(text: &[u8], work: &[u32], e: usize, key: u32, offset: usize) -> Ordering
    ensures { key ≡ key_of (map small (word_at text.now offset)) → result ≡ order_at text.now work.now e (map small (word_at text.now offset)) }
{
    let first = at(work, e);
    let k = first / OFFSETS;
    if k < key {
        return Ordering::Less;
    }
    if k > key {
        return Ordering::Greater;
    }
    order_of(text, (first % OFFSETS) as usize, offset)
}

// The number of the value that comes j-th in order.
pub fn rank_at(work: &[u32], base: u32, j: u32) -> u32
    ensures { result ≡ ranked work.now base j }
{
    at(work, base as usize + 4 * j as usize + 1) / SORTS % VALUES
}

// The middle of what stands from one number to another.
#[tactic(auto, using(crate::proofs::Ordering::middle_is))]
fn middle_of(low: u32, high: u32) -> u32
    ensures { result ≡ middle low high }
{
    low + high.saturating_sub(low) / 2
}

// The place of the value that the word at an offset names, among the n of the type whose entry is at a place; 0 if none does.
// Kept: 0 for none, as in `lookup`, which answers it on (`value_in`): no plainer. The loop halves what is left, and `left` is its measure and not an index.
pub fn find_value(text: &[u8], work: &[u32], place: u32, n: u32, key: u32, offset: usize) -> u32
    ensures { key ≡ key_of (map small (word_at text.now offset)) → result ≡ value_in text.now work.now place n (map small (word_at text.now offset)) }
{
    let base = first_value(place);
    let mut low = 0;
    let mut high = n;
    let mut left = HALVINGS;
    while left > 0 {
        if low >= high {
            return 0;
        }
        let mid = middle_of(low, high);
        let i = rank_at(work, base, mid);
        if i >= n {
            return 0;
        }
        left -= 1;
        let e = base + 4 * i;
        match order_at(text, work, e as usize, key, offset) {
            Ordering::Less => {
                low = mid + 1;
            }
            Ordering::Equal => {
                return e;
            }
            Ordering::Greater => {
                high = mid;
            }
        }
    }
    0
}
