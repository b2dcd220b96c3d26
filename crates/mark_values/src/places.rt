// Places with their types: elements, fields, and the cells that stand there.
ghost use Rattle.std.specs.Prelude.{◌≡◌};
ghost use Rattle.mark_values.specs.Values.{reached_of, first_cell};
ghost use Rattle.mark_values.specs.Steps.{element_place, Loads, Indexes, Selects};

use crate::values::{Carried, STUCK};
use code_calc::cells::cells_at;
use code_calc::operators::{distance, element, shifted};
use code_calc::words::{GREATEST, Store, reach};
use table_list::at;
use table_scope::{Info, describe, find_field, host_of};

// Kept: the new form is no plainer, as for Carried: element, shifted and cells_at take a fault's word and give it on.
// A place, a fault or no result: its type and the word of its first cell.
#[derive(Clone, Copy)]
pub struct Reached {
    pub typed: u32,
    pub word: i64,
}

// A place, or a fault.
pub fn place(typed: u32, word: i64) -> Reached
    ensures { result ≡ reached_of typed word }
{
    Reached { typed, word }
}

// A place's first cell, 0 of a fault.
#[tactic(auto, using(crate::proofs::Reaching::first_laws))]
fn first_cell(word: i64) -> u32
    ensures { result ≡ first_cell word }
{
    if word > GREATEST {
        0
    } else {
        reach(word) as u32
    }
}

// The element at an index's word, of an array that i describes and whose place has the word a.
#[tactic(auto, using(crate::proofs::Reaching::element_laws))]
fn element_place(work: &[u32], types: &[u32], i: Info, a: i64, b: i64) -> Reached
    ensures { result ≡ element_place work.now types.now i a b }
{
    let e = describe(work, types, i.element);
    place(i.element, element(a, distance(b, i.low, i.high), e.size))
}

impl Reached {
    // The cells at a place.
    #[tactic(auto, using(crate::proofs::Reaching::load_laws))]
    pub fn load(self, work: &[u32], types: &[u32], store: &Store) -> Carried
        ensures { Loads work.now types.now store.now self result }
    {
        let i = describe(work, types, self.typed);
        let kind = host_of(work, types, self.typed);
        let word = cells_at(store, self.word, i.size);
        let from = first_cell(self.word);
        Carried { kind, word, from }
    }

    // The element of an array at an index: both are worked out before their kinds are met.
    #[tactic(auto, using(crate::proofs::Reaching::index_laws))]
    pub fn index(self, work: &[u32], types: &[u32], x: Carried) -> Reached
        ensures { Indexes work.now types.now self x result }
    {
        let a = self.word;
        let b = x.word;
        if a > GREATEST {
            return place(0, a);
        }
        if b > GREATEST {
            return place(0, b);
        }
        let i = describe(work, types, self.typed);
        if i.shape == 2 && host_of(work, types, i.index) == x.kind {
            element_place(work, types, i, a, b)
        } else {
            place(0, STUCK)
        }
    }

    // The field that the word at an offset names.
    pub fn select(self, text: &[u8], work: &[u32], types: &[u32], offset: usize) -> Reached
        ensures { Selects text.now work.now types.now self offset result }
    {
        let a = self.word;
        if a > GREATEST {
            return place(0, a);
        }
        let i = describe(work, types, self.typed);
        let f = find_field(text, work, i.place, i.fields, offset);
        if f == 0 {
            return place(0, STUCK);
        }
        let p = f as usize;
        place(at(work, p + 1), shifted(a, at(work, p + 2)))
    }
}
