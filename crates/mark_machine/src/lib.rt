// The marking machine on a lent store: the store as words, the run of a body, and the store as lists again.

#![tactic(auto)]

ghost use Rattle.mark_machine.specs.Answers.{MarksLent};
ghost use Rattle.mark_machine.specs.Lending.{MarkTells, MarksIn};

use code_calc::words::{LATEST, PLACE, Store, WORDS};
use code_store::{begin, load_words, save_cells};
use law_answers::{Ending, Marked};
use mark_acts::ends::STICKS;
use mark_cells::cells::address;
use mark_statements::walk::Setting;
use mark_steps::ends::{RAISED, SPENT, left_in};

// How a word, with the store's array, says that a run ended.
#[tactic(auto, using(crate::proofs::Whole::tells_laws))]
fn told(w: u64, store: &Store) -> Ending
    ensures { MarkTells w store.now result }
{
    if w < SPENT {
        Ending::Normal
    } else if w < RAISED {
        Ending::Spent
    } else if w < STICKS {
        Ending::Raised(store[LATEST], address(store[PLACE]))
    } else {
        Ending::Stuck
    }
}

// Runs body q of the table within the budget, by an array for the cells' words.
fn mark_with(
    text: &[u8],
    work: &[u32],
    types: &[u32],
    bodies: &[u32],
    q: u32,
    values: &mut [i64],
    marks: &mut [u8],
    budget: u32,
    store: &mut Store,
) -> Marked
    ensures { MarksIn store.old text.now work.now types.now bodies.now q values.old marks.old budget result values.new marks.new }
{
    load_words(values, marks, store);
    begin(store);
    let r = Setting::mark_body(text, work, types, bodies, q, store, budget as u64, q);
    save_cells(store, values, marks);
    Marked {
        steps: budget - left_in(r) as u32,
        ending: told(r, store),
    }
}

// Runs body q of the table within the budget.
pub fn mark_lent(
    text: &[u8],
    work: &[u32],
    types: &[u32],
    bodies: &[u32],
    q: u32,
    values: &mut [i64],
    marks: &mut [u8],
    budget: u32,
) -> Marked
    ensures { MarksLent text.now work.now types.now bodies.now q values.old marks.old budget result values.new marks.new }
{
    let mut store = [0i64; WORDS];
    mark_with(
        text, work, types, bodies, q, values, marks, budget, &mut store,
    )
}
