// Assignments and `raise`, whose parts begin at an offset; conditions and the selectors of cases.
ghost use Rattle.mark_acts.specs.Acts.{Assigns, Raising, Conditions, Selects};

use crate::ends::halting;
use crate::storing::store_value;
use code_calc::words::{GREATEST, Store};
use mark_expressions::tables::Tables;
use mark_steps::ends::raise_number;
use mark_values::values::{Carried, STUCK, value};
use table_scope::describe;
use text_heads::DEPTH;
use text_skips::skip;

// `(:= G E)` as statement n, after its step: the value is worked out before the target, and both before their kinds are met.
pub fn assign(tables: &Tables<'_>, store: &mut Store, left: u64, n: u32, at: usize) -> u64
    ensures { Assigns tables.now.text.now tables.now.work.now tables.now.types.now tables.now.scope n at store.old left store.new result }
{
    let x = tables.mark_expr(store, DEPTH, skip(tables.text, at));
    let v = x.word;
    if v > GREATEST {
        return halting(store, left, v, n);
    }
    let g = tables.mark_target(store, DEPTH, at);
    let a = g.word;
    if a > GREATEST {
        return halting(store, left, a, n);
    }
    store_value(tables, store, left, n, x, g)
}

// `(raise E)` as statement n, after its step.
pub fn raise(tables: &Tables<'_>, store: &mut Store, left: u64, n: u32, at: usize) -> u64
    ensures { Raising tables.now.text.now tables.now.work.now tables.now.types.now tables.now.scope n at store.old left store.new result }
{
    let z = tables.mark_expr(store, DEPTH, at).wanted(0);
    if z > GREATEST {
        halting(store, left, z, n)
    } else {
        raise_number(store, left, z, n)
    }
}

// The word of the condition at an offset, which must be boolean.
#[tactic(auto, using(crate::proofs::Acting::condition_laws))]
pub fn condition(tables: &Tables<'_>, store: &Store, at: usize) -> i64
    ensures { Conditions tables.now.text.now tables.now.work.now tables.now.types.now store.now tables.now.scope at result }
{
    tables.mark_expr(store, DEPTH, at).wanted(1)
}

// The selector of a case at an offset, which must be an ordinal.
pub fn selector(tables: &Tables<'_>, store: &Store, at: usize) -> Carried
    ensures { Selects tables.now.text.now tables.now.work.now tables.now.types.now store.now tables.now.scope at result }
{
    let x = tables.mark_expr(store, DEPTH, at);
    let w = x.word;
    if w > GREATEST {
        return value(0, w);
    }
    let i = describe(tables.work, tables.types, x.kind);
    if i.shape == 0 {
        value(x.kind, w)
    } else {
        value(0, STUCK)
    }
}
