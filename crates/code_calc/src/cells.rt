// The store as words: a cell holds its value, or the word of an Undefined_Error; the last exception stands above the cells.
ghost use Rattle.std.specs.Prelude.{◌≡◌};
ghost use Rattle.code_calc.specs.Words.{store_word, latest_in, cells_word, cells_at};

use crate::words::{CELLS, GREATEST, LATEST, Store, UNDEFINED, reach};

// The word of a cell.
#[tactic(auto, using(crate::proofs::Leaves::cell_laws))]
pub fn cell(store: &Store, a: usize) -> i64
    ensures { result ≡ store_word store.now a }
{
    if a < CELLS { store[a] } else { UNDEFINED }
}

// The last exception's number, 0 before any.
// Kept: 0 is document 01's number before any exception.
pub fn latest(store: &Store) -> i64
    ensures { result ≡ latest_in store.now }
{
    store[LATEST]
}

// The first of n cells from a on, all of which must be defined; 0 for no cell.
// Kept: 0 cells have no first one, and the contract `cells_word` says 0 for it.
#[tactic(auto, using(crate::proofs::Leaves::cells_laws))]
pub fn cells(store: &Store, a: u32, n: u32) -> i64
    ensures { result ≡ cells_word store.now a n }
{
    if n == 0 {
        return 0;
    }
    for i in 0..n {
        if cell(store, a as usize + i as usize) > GREATEST {
            return UNDEFINED;
        }
    }
    cell(store, a as usize)
}

// The same by the word of a place.
pub fn cells_at(store: &Store, place: i64, n: u32) -> i64
    ensures { result ≡ cells_at store.now place n }
{
    if place > GREATEST {
        return place;
    }
    let a = reach(place) as u32;
    if n == 1 {
        return cell(store, a as usize);
    }
    cells(store, a, n)
}
