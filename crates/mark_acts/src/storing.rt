// A value stored at a place, both with their types: the kinds are met, then the range is tested.
ghost use Rattle.mark_acts.specs.Storing.{Wholly, Stores};

use crate::ends::sticking;
use code_calc::words::{Store, signed_of};
use mark_cells::cells::{store_cells, store_one, store_ordinal};
use mark_expressions::tables::Tables;
use mark_values::places::Reached;
use mark_values::values::Carried;
use table_scope::{describe, host_of};

// All cells of x stored from the cell of the word a on, by statement n; source and target may overlap.
fn store_whole(tables: &Tables<'_>, store: &mut Store, left: u64, n: u32, x: Carried, a: i64) -> u64
    ensures { Wholly tables.now.work.now tables.now.types.now n x a store.old left store.new result }
{
    let i = describe(tables.work, tables.types, x.kind);
    if i.shape < 2 {
        store_one(store, left, n, a, x.word)
    } else {
        store_cells(store, left, n, x.from, i.size, a)
    }
}

// x stored at g, in statement n.
pub fn store_value(
    tables: &Tables<'_>,
    store: &mut Store,
    left: u64,
    n: u32,
    x: Carried,
    g: Reached,
) -> u64
    ensures { Stores tables.now.work.now tables.now.types.now n x g store.old left store.new result }
{
    let k = host_of(tables.work, tables.types, g.typed);
    if k != x.kind {
        return sticking(left);
    }
    let i = describe(tables.work, tables.types, g.typed);
    if i.shape == 0 {
        let low = signed_of(i.low);
        let high = signed_of(i.high);
        store_ordinal(store, left, n, low, high, g.word, x.word)
    } else {
        store_whole(tables, store, left, n, x, g.word)
    }
}
