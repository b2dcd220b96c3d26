// The walk over a body.
// Kept (6): nodes and entries are numbers at the free place of the lent working list: fixed memory and no heap, as document 01 has it.
ghost use Rattle.rule_statements.specs.Walks.{GivesBody};
ghost use Rattle.rule_statements.specs.Fronts.{HandledBy, GivesRest};

use crate::walk::{acts, stmt};
use rule_expr_nodes::bracket::closing;
use rule_expr_nodes::links::link_to;
use rule_expressions::walk::Walk;
use rule_faults::{Got, is_form};
use rule_stmt_nodes::last::{Head, Next, handled_node, next_at, plain_node};
use rule_stmt_nodes::nodes::{joined, no_act};
use table_list::slot;
use table_scope::{Scope, no_loops};
use text_heads::DEPTH;

// A body: all parts up to the closing bracket; `number` is that of the last statement before.
pub fn body(
    text: &[u8],
    work: &mut [u32],
    types: &[u32],
    scope: Scope,
    head: Head,
    number: u32,
    at: usize,
    top: u32,
) -> Got
    ensures { GivesBody text.now work.old types.now scope head number at top result work.new }
{
    let walk = Walk { text, types, scope };
    let t = slot(work, top);
    body_from(walk, work, head, number, top, at, t)
}

// The same from past its first slot, `start`, on.
fn body_from(
    walk: Walk,
    work: &mut [u32],
    head: Head,
    number: u32,
    start: u32,
    at: usize,
    top: u32,
) -> Got
    ensures { GivesRest walk.entry.text.now work.old walk.entry.types.now walk.entry.scope head number start at top result work.new }
{
    let mut g = no_act(number, at, top);
    let mut p = start as usize;
    loop {
        match next_at(walk.text, g.next) {
            Next::Past(q) => {
                return plain_node(work, head, start, g, q);
            }
            Next::Handler(q) => {
                return handled(walk, work, head, start, g, q);
            }
            Next::Stmt => {
                let w = no_loops();
                let a = stmt(walk, work, w, DEPTH, g.kind, g.next, g.top);
                if is_form(a.fault) {
                    return a;
                }
                let t = link_to(work, p, a.place, a.top);
                p = a.top as usize + 1;
                g = joined(g, a, t);
            }
        }
    }
}

// The same from the statements of its handler on, which begin at q; g is the answer for the statements before.
fn handled(walk: Walk, work: &mut [u32], head: Head, start: u32, g: Got, q: usize) -> Got
    ensures { HandledBy walk.entry.text.now work.old walk.entry.types.now walk.entry.scope head start g q result work.new }
{
    let t = slot(work, g.top);
    let p = g.top as usize;
    let w = no_loops();
    let a = acts(walk, work, w, DEPTH, g.kind, p, q, t);
    let b = closing(walk.text, a);
    handled_node(work, head, start, g, b)
}
