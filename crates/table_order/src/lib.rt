// The values of an enumeration put in order of key and name, so that they are found by halving. That each is found so is looked at once, and the
// type's entry says it; where it did not, lookups would go along the chain.

#![tactic(auto)]

ghost use Rattle.table_order.specs.Ordered.{Ranks, Finds, Marking, Ordered};

use std::cmp::Ordering;
use table_list::{at, put};
use table_names::blocks::{SORTS, VALUES, find_value, first_value, order_at, rank_at};
use table_names::keys::{OFFSETS, key_of};

// More than the places of a working list.
const PLACES: u32 = 32768;

// Sets the value that comes j-th in order.
fn set_rank(work: &mut [u32], base: u32, j: u32, i: u32)
    ensures { Ranks base work.old work.new }
{
    let p = base as usize + 4 * j as usize + 1;
    let sort = at(work, p) % SORTS;
    put(work, p, sort + SORTS * (i % VALUES));
}

// Sets the value that comes at one number in order to that which comes at another.
fn copy_rank(work: &mut [u32], base: u32, from: u32, to: u32)
    ensures { Ranks base work.old work.new }
{
    let i = rank_at(work, base, from);
    set_rank(work, base, to, i);
}

// Whether the value that comes j-th in order comes after the word at an offset, which has this key.
fn comes_after(text: &[u8], work: &[u32], base: u32, j: u32, key: u32, offset: usize) -> bool {
    let e = base as usize + 4 * rank_at(work, base, j) as usize;
    order_at(text, work, e, key, offset) == Ordering::Greater
}

// Puts value i among those before it, which are in order.
// Kept: it counts down to where the value belongs, which the test of the loop finds; a `for` with a `break` is no plainer.
fn insert(text: &[u8], work: &mut [u32], base: u32, i: u32)
    ensures { Ranks base work.old work.new }
{
    let first = at(work, base as usize + 4 * i as usize);
    let mut j = i;
    while j > 0
        && comes_after(
            text,
            work,
            base,
            j - 1,
            first / OFFSETS,
            (first % OFFSETS) as usize,
        )
    {
        copy_rank(work, base, j - 1, j);
        j -= 1;
    }
    set_rank(work, base, j, i);
}

// Puts the n values from a place on in order.
fn sort(text: &[u8], work: &mut [u32], base: u32, n: u32)
    ensures { Ranks base work.old work.new }
{
    for i in 0..n {
        insert(text, work, base, i);
    }
}

// Whether each of the n values behind the entry at a place is found by its name.
fn all_found(text: &[u8], work: &[u32], place: u32, n: u32) -> bool
    ensures { Finds text.now work.now place n result }
{
    let base = first_value(place);
    for i in 0..n {
        let e = base as usize + 4 * i as usize;
        let name = (at(work, e) % OFFSETS) as usize;
        let q = find_value(text, work, place, n, key_of(text, name), name);
        if q as usize != e {
            return false;
        }
    }
    true
}

// Says in the entry at a place how many values stand behind it, if each is found by its name, and else 0.
fn mark(text: &[u8], work: &mut [u32], place: u32, n: u32)
    ensures { Marking text.now work.old place n work.new }
{
    let p = place as usize + 2;
    put(work, p, n);
    if !all_found(text, work, place, n) {
        put(work, p, 0);
    }
}

// Puts the n values behind the type's entry at a place in order, and says so in the entry.
pub fn put_in_order(text: &[u8], work: &mut [u32], place: u32, n: u32)
    ensures { Ordered text.now work.old place n work.new }
{
    if place < PLACES {
        sort(text, work, first_value(place), n);
        mark(text, work, place, n);
    }
}
