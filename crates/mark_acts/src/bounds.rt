// The control variable and the bounds of a `for`: they are met after both bounds are worked out.
ghost use Rattle.mark_acts.specs.Bounds.{Joins, Bounding};

use code_calc::words::{GREATEST, Store, signed_of};
use mark_cells::cells::address;
use mark_expressions::tables::Tables;
use mark_values::places::Reached;
use mark_values::values::{Carried, STUCK};
use table_scope::{describe, host_of};
use text_heads::DEPTH;
use text_skips::skip;

// A `for` before its first round: its cell, the least and greatest value of its type, and from where to where it counts.
#[derive(Clone, Copy)]
pub struct Span {
    pub cell: u32,
    pub low: i64,
    pub high: i64,
    pub from: i64,
    pub to: i64,
}

// A control variable g and two bounds, which must be of its kind, an ordinal's; or the word of no value.
#[tactic(auto, using(crate::proofs::Bounding::join_laws))]
fn join(tables: &Tables<'_>, g: Reached, x: Carried, y: Carried) -> Result<Span, i64>
    ensures { Joins tables.now.work.now tables.now.types.now g x y result }
{
    let k = host_of(tables.work, tables.types, g.typed);
    if k != x.kind || k != y.kind {
        return Err(STUCK);
    }
    let i = describe(tables.work, tables.types, g.typed);
    if i.shape != 0 {
        return Err(STUCK);
    }
    Ok(Span {
        cell: address(g.word),
        low: signed_of(i.low),
        high: signed_of(i.high),
        from: x.word,
        to: y.word,
    })
}

// The name and the bounds of a `for`, whose parts begin at an offset; or the word of no value.
#[tactic(auto, using(crate::proofs::Bounding::bounds_laws))]
pub fn bounds(tables: &Tables<'_>, store: &Store, at: usize) -> Result<Span, i64>
    ensures { Bounding tables.now.text.now tables.now.work.now tables.now.types.now store.now tables.now.scope at result }
{
    let g = tables.mark_target(store, 1, at);
    let p = skip(tables.text, at);
    let x = tables.mark_expr(store, DEPTH, p);
    let v = x.word;
    if v > GREATEST {
        return Err(v);
    }
    let y = tables.mark_expr(store, DEPTH, skip(tables.text, p));
    let w = y.word;
    if w > GREATEST {
        return Err(w);
    }
    join(tables, g, x, y)
}
