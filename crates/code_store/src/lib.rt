// A lent store as words for a run, and as lists again after it: what the chair's runner and the marking machine share.

#![tactic(auto)]

ghost use Rattle.std.specs.Prelude.{◌≡◌, pos, length, set};
ghost use Rattle.law.specs.Machine.{store_cells};
ghost use Rattle.code_calc.specs.Words.{store_word, value_in, mark_in};
ghost use Rattle.code_store.specs.Lending.{lent_word, Loads, SavesValues, SavesMarks, Saves, Begins};

use code_calc::words::{CELLS, GREATEST, LATEST, PLACE, UNDEFINED};

// The word of a cell of the lists.
#[tactic(auto, using(crate::proofs::Lists::lent_laws))]
fn lent_word(values: &[i64], marks: &[u8], a: usize) -> i64
    ensures { result ≡ lent_word values.now marks.now a }
{
    if a >= marks.len() || marks[a] == 0 {
        UNDEFINED
    } else if a >= values.len() {
        0
    } else {
        values[a]
    }
}

// A word stored, if the store is so long.
#[tactic(auto, using(crate::proofs::Lists::put_laws))]
fn put(store: &mut [i64], i: usize, w: i64)
    ensures { store.new ≡ set store.old i w }
{
    if i < store.len() {
        store[i] = w;
    }
}

// The words of the lists' cells.
#[tactic(auto, using(crate::proofs::Lists::load_laws))]
pub fn load_words(values: &[i64], marks: &[u8], store: &mut [i64])
    ensures { Loads values.now marks.now store.old store_cells store.new }
{
    for i in 0..CELLS {
        put(store, i, lent_word(values, marks, i));
    }
}

// The words beside the cells at the start: no exception yet.
#[tactic(auto, using(crate::proofs::Lists::begin_is))]
pub fn begin(store: &mut [i64])
    ensures { Begins store.old store.new }
{
    put(store, LATEST, 0);
    put(store, PLACE, 0);
}

// The word of a cell.
#[tactic(auto, using(crate::proofs::Lists::word_laws))]
fn word(store: &[i64], a: usize) -> i64
    ensures { result ≡ store_word store.now a }
{
    if a >= CELLS {
        UNDEFINED
    } else if a >= store.len() {
        0
    } else {
        store[a]
    }
}

// The value that a word leaves in its cell: an undefined one has 0.
#[tactic(auto, using(crate::proofs::Lists::value_laws))]
fn value_in(w: i64) -> i64
    ensures { result ≡ value_in w }
{
    if w > GREATEST { 0 } else { w }
}

// The mark that a word leaves in its cell.
#[tactic(auto, using(crate::proofs::Lists::mark_laws))]
fn mark_in(w: i64) -> u8
    ensures { result ≡ mark_in w }
{
    if w > GREATEST { 0 } else { 1 }
}

// The cells' values by their words.
#[tactic(auto, using(crate::proofs::Lists::values_laws))]
fn save_values(store: &[i64], values: &mut [i64])
    ensures { SavesValues store.now values.old (length values.old) values.new }
{
    for (i, value) in values.iter_mut().enumerate() {
        *value = value_in(word(store, i));
    }
}

// The cells' marks by their words.
#[tactic(auto, using(crate::proofs::Lists::marks_laws))]
fn save_marks(store: &[i64], marks: &mut [u8])
    ensures { SavesMarks store.now marks.old (length marks.old) marks.new }
{
    for (i, mark) in marks.iter_mut().enumerate() {
        *mark = mark_in(word(store, i));
    }
}

// Both lists by the words.
pub fn save_cells(store: &[i64], values: &mut [i64], marks: &mut [u8])
    ensures { Saves store.now values.old marks.old values.new marks.new }
{
    save_values(store, values);
    save_marks(store, marks);
}
