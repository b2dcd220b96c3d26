// The arguments of a call, and the cells of the parameters that get them.
ghost use Rattle.std.specs.Prelude.{◌≡◌, min};
ghost use Rattle.mark_acts.specs.Arguments.{Argues, Gathers, Passes, returns, TakesBack};

use crate::ends::STICKS;
use code_calc::words::{GREATEST, Store};
use mark_cells::cells::{forget, give};
use mark_expressions::tables::Tables;
use mark_steps::ends::{RAISED, SPENT};
use table_scope::frames::{Frame, MOST_PARAMETERS, parameter_type};
use text_heads::DEPTH;
use text_parts::end_at;
use text_skips::skip;

// How many arguments there can be.
const ARGUMENTS: usize = MOST_PARAMETERS as usize;

// The words of arguments.
type Words = [i64; ARGUMENTS];

// How many parameters of a frame can have arguments.
fn listed(x: Frame) -> u32
    ensures { result ≡ min x.count 8 }
{
    x.count.min(MOST_PARAMETERS)
}

// The word of the argument at an offset for a parameter of type t.
#[tactic(auto, using(crate::proofs::Arguing::argued_laws))]
fn argued(tables: &Tables<'_>, store: &Store, t: u32, at: usize) -> i64
    ensures { Argues tables.now.text.now tables.now.work.now tables.now.types.now store.now tables.now.scope t at result }
{
    let x = tables.mark_expr(store, DEPTH, at);
    x.argument(tables.work, tables.types, t)
}

// Works out the arguments from an offset on for the parameters of a frame, each tested before the next: how many, or the word of the first that is no value.
fn arguments(
    tables: &Tables<'_>,
    store: &Store,
    x: Frame,
    at: usize,
    words: &mut Words,
) -> Result<u32, i64>
    ensures { Gathers tables.now.text.now tables.now.work.now tables.now.types.now store.now tables.now.scope x at words.old words.new result }
{
    let n = listed(x);
    let mut p = at;
    for j in 0..n {
        let e = end_at(tables.text, p);
        match e {
            Some(_) => {
                return Ok(j);
            }
            None => {
                let t = parameter_type(tables.work, x, j);
                let z = argued(tables, store, t, p);
                if z > GREATEST {
                    return Err(z);
                }
                words[j as usize] = z;
                p = skip(tables.text, p);
            }
        }
    }
    Ok(n)
}

// Gives the arguments from an offset on to the parameters of a frame, once all are worked out; or the word of the first that is no value.
pub fn pass(tables: &Tables<'_>, store: &mut Store, x: Frame, at: usize) -> Result<(), i64>
    ensures { Passes tables.now.text.now tables.now.work.now tables.now.types.now tables.now.scope x at store.old store.new result }
{
    let mut words = [0i64; ARGUMENTS];
    match arguments(tables, store, x, at, &mut words) {
        Ok(k) => {
            give(store, x.base, k, &words);
            Ok(())
        }
        // Kept: tried `?`, and the proof of what comes through it didn't close.
        Err(w) => Err(w),
    }
}

// Whether a body that ended so returns: it is neither spent nor stuck.
#[tactic(auto, using(crate::proofs::Arguing::returns_laws))]
fn returning(o: u64) -> bool
    ensures { result ≡ returns o }
{
    o < SPENT || RAISED <= o && o < STICKS
}

// What is left of the parameters of a frame after a body that ended so: nothing, if it returns.
#[tactic(auto, using(crate::proofs::Arguing::back_laws))]
pub fn take_back(store: &mut Store, x: Frame, o: u64)
    ensures { TakesBack x o store.old store.new }
{
    if returning(o) {
        forget(store, x.base, x.count);
    }
}
