// How a statement ends, as one word: the steps left; with SPENT, a step was due and none was left; with RAISED, an exception,
// which is the last one. The store's array tells that: its number and its statement stand behind the cells' words.
ghost use Rattle.std.specs.Prelude.{◌≡◌, ltb};
ghost use Rattle.mark_steps.specs.Ends.{left_in, step_word, fault_in, Raises, RaisesNumber};

use code_calc::words::{FAULT, GREATEST, LATEST, PLACE, SYSTEM_ERROR, Store};

// Kept: what may not change: left_in, told_by, step_word and raised_word (specs/Ends.antt) and Ends (specs/Stands.antt) speak of this word.
// No number of steps left is so large.
pub const SPENT: u64 = 4294967296;

pub const RAISED: u64 = 8589934592;

// Whether a word tells of an end that is not normal.
pub fn stopped(w: u64) -> bool
    ensures { result ≡ ltb 4294967295 w }
{
    w > 4294967295
}

// The steps left by a word.
#[tactic(auto, using(crate::proofs::Noting::left_is))]
pub fn left_in(w: u64) -> u64
    ensures { result ≡ left_in w }
{
    w % SPENT
}

// One step taken, as a word.
#[tactic(auto, using(crate::proofs::Noting::step_laws))]
pub fn stepped(left: u64) -> u64
    ensures { result ≡ step_word left }
{
    if left == 0 { SPENT } else { left - 1 }
}

// Exception z at statement n.
pub fn raising(store: &mut Store, left: u64, z: i64, n: u32) -> u64
    ensures { Raises z n store.old left store.new result }
{
    store[LATEST] = z;
    store[PLACE] = n as i64;
    RAISED + left % SPENT
}

// The fault that a word is, at statement n.
pub fn failing(store: &mut Store, left: u64, w: i64, n: u32) -> u64
    ensures { Raises (fault_in w) n store.old left store.new result }
{
    if w > GREATEST {
        raising(store, left, w - FAULT, n)
    } else {
        raising(store, left, w, n)
    }
}

// `raise` with number z at statement n.
pub fn raise_number(store: &mut Store, left: u64, z: i64, n: u32) -> u64
    ensures { RaisesNumber z n store.old left store.new result }
{
    if z != 0 {
        raising(store, left, z, n)
    } else if store[LATEST] == 0 {
        raising(store, left, SYSTEM_ERROR, n)
    } else {
        RAISED + left % SPENT
    }
}
