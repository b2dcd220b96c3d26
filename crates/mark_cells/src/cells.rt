// Storing into cells; one past the last changes nothing.
ghost use Rattle.std.specs.Prelude.{◌≡◌, ◌+◌, pos, get_or};
ghost use Rattle.mark_cells.specs.Cells.{Puts, upwards, downwards, made, Copying, Addresses, StoresOrdinal, StoresOne, StoresCells, Gives, Forgets};
ghost use Rattle.code_calc.specs.Words.{store_word};

use code_calc::cells::cell;
use code_calc::words::{CELLS, RANGE_ERROR, Store, UNDEFINED};
use leaf_integers::in_range;
use mark_steps::ends::raising;

// A place's word as a number: what is no place is past every cell.
pub fn address(w: i64) -> u32
    ensures { Addresses w result }
{
    u32::try_from(w).unwrap_or(u32::MAX)
}

// z in cell i.
#[tactic(auto, using(crate::proofs::Storing::put_laws))]
fn put_in(store: &mut Store, i: usize, z: i64)
    ensures { Puts store.old i z store.new }
{
    if i < CELLS {
        store[i] = z;
    }
}

// z in cell a.
pub fn put(store: &mut Store, a: u32, z: i64)
    ensures { Puts store.old a z store.new }
{
    put_in(store, a as usize, z);
}

// z in cell a + i.
fn put_after(store: &mut Store, a: u32, i: u32, z: i64)
    ensures { Puts store.old (a + i) z store.new }
{
    put_in(store, a as usize + i as usize, z);
}

// One cell copied: that at s + i into that at a + i.
#[tactic(auto, using(crate::proofs::Storing::one_laws))]
fn copy_one(store: &mut Store, s: u32, a: u32, i: u32)
    ensures { Puts store.old (a + i) (store_word store.old (s + i)) store.new }
{
    let z = cell(store, s as usize + i as usize);
    put_after(store, a, i, z);
}

// k cells from s on to a on, one write for each, the first first.
fn copy_up(store: &mut Store, s: u32, a: u32, k: u32)
    ensures { store.new ≡ made (upwards s a k) store.old }
{
    for i in 0..k {
        copy_one(store, s, a, i);
    }
}

// The same, the last first.
fn copy_down(store: &mut Store, s: u32, a: u32, k: u32)
    ensures { store.new ≡ made (downwards s a k) store.old }
{
    for i in (0..k).rev() {
        copy_one(store, s, a, i);
    }
}

// Kept: the new form is no plainer: `copy_within` takes no range past the end, where cells read as undefined and are not written.
// k cells from s on to a on, each written once, after it was read: no types are known here that would keep the two apart.
pub fn copy(store: &mut Store, s: u32, a: u32, k: u32)
    ensures { Copying store.old s a k store.new }
{
    if a <= s {
        copy_up(store, s, a, k);
    } else {
        copy_down(store, s, a, k);
    }
}

// The ordinal x stored in the cell of the word a, if it lies in the bounds, by statement n.
pub fn store_ordinal(
    store: &mut Store,
    left: u64,
    n: u32,
    low: i64,
    high: i64,
    a: i64,
    x: i64,
) -> u64
    ensures { StoresOrdinal n low high a x store.old left store.new result }
{
    if in_range(x, low, high) {
        put(store, address(a), x);
        left
    } else {
        raising(store, left, RANGE_ERROR, n)
    }
}

// One cell x stored with no range test in the cell of the word a, by statement n.
pub fn store_one(store: &mut Store, left: u64, n: u32, a: i64, x: i64) -> u64
    ensures { StoresOne n a x store.old left store.new result }
{
    put(store, address(a), x);
    left
}

// The k cells from `from` on stored from the cell of the word a on, by statement n; the two may overlap.
pub fn store_cells(store: &mut Store, left: u64, n: u32, from: u32, k: u32, a: i64) -> u64
    ensures { StoresCells n from k a store.old left store.new result }
{
    copy(store, from, address(a), k);
    left
}

// Word i of a list; 0 past its end.
// Kept: the contract names the number that is read where nothing stands: `get_or .. 0` of the law; an Option would be asked for it at each call.
fn word_at(words: &[i64], i: u32) -> i64
    ensures { result ≡ get_or words.now i (pos 0) }
{
    words.get(i as usize).copied().unwrap_or(0)
}

// The first k words in the cells from a on.
pub fn give(store: &mut Store, a: u32, k: u32, words: &[i64])
    ensures { Gives store.old a k words.now store.new }
{
    for i in 0..k {
        put_after(store, a, i, word_at(words, i));
    }
}

// k cells from a on undefined.
pub fn forget(store: &mut Store, a: u32, k: u32)
    ensures { Forgets store.old a k store.new }
{
    for i in 0..k {
        put_after(store, a, i, UNDEFINED);
    }
}
