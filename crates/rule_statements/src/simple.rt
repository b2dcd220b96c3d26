// The statements that have no statements in them, from past the head word on.
// Kept (6): nodes and entries are numbers at the free place of the lent working list: fixed memory and no heap, as document 01 has it.
ghost use Rattle.rule_statements.specs.Arguments.{GivesArguments, GivesCallNamed};
ghost use Rattle.rule_statements.specs.Walks.{GivesAssign, GivesStore, GivesRaise, GivesCall, GivesWanted};

use rule_expr_nodes::bracket::closing;
use rule_expr_nodes::links::link_to;
use rule_expressions::walk::Walk;
use rule_faults::{Fault, Got, failed, is_form};
use rule_stmt_nodes::base::steer;
use rule_stmt_nodes::calls::{call_node, callee_of, with_argument};
use rule_stmt_nodes::nodes::{assign_node, finished, is_named, no_act, raise_node, wanted};
use table_list::slot;
use table_scope::frames::Frame;
use table_scope::{Loops, meaning_of};
use text_heads::DEPTH;
use text_parts::{Part, end_at, part_at};

// A target that is assigned.
fn store_at(walk: Walk, work: &mut [u32], loops: Loops, at: usize, top: u32) -> Got
    ensures { GivesStore walk.entry.text.now work.old walk.entry.types.now walk.entry.scope loops at top result work.new }
{
    match part_at(walk.text, at) {
        Part::Leaf(_, p, _) => {
            let m = meaning_of(walk.text, work, walk.scope, p);
            let g = walk.target(work, DEPTH, at, top);
            steer(loops, m, g)
        }
        Part::Form(_) => walk.target(work, DEPTH, at, top),
        Part::Shut(q) => failed(Fault::Form, 0, q, top),
    }
}

// An assignment.
pub fn assign(walk: Walk, work: &mut [u32], loops: Loops, number: u32, at: usize, top: u32) -> Got
    ensures { GivesAssign walk.entry.text.now work.old walk.entry.types.now walk.entry.scope loops number at top result work.new }
{
    let g = store_at(walk, work, loops, at, top);
    if is_form(g.fault) {
        return g;
    }
    let a = walk.expr(work, DEPTH, g.next, g.top);
    let e = closing(walk.text, a);
    assign_node(work, walk.types, number, g, e)
}

// An expression of kind k.
pub fn wanted_expr(walk: Walk, work: &mut [u32], k: u32, at: usize, top: u32) -> Got
    ensures { GivesWanted walk.entry.text.now work.old walk.entry.types.now walk.entry.scope k at top result work.new }
{
    let a = walk.expr(work, DEPTH, at, top);
    wanted(k, a)
}

// A `raise`.
pub fn raise(walk: Walk, work: &mut [u32], number: u32, at: usize, top: u32) -> Got
    ensures { GivesRaise walk.entry.text.now work.old walk.entry.types.now walk.entry.scope number at top result work.new }
{
    let a = walk.expr(work, DEPTH, at, top);
    let c = closing(walk.text, a);
    let w = wanted(0, c);
    raise_node(work, number, w)
}

// The arguments of a call up to the closing bracket, for the parameters of a frame, chained from a slot on; the answer's kind is their count.
fn arguments(walk: Walk, work: &mut [u32], frame: Frame, first: usize, at: usize, top: u32) -> Got
    ensures { GivesArguments walk.entry.text.now work.old walk.entry.types.now walk.entry.scope frame first at top result work.new }
{
    let mut g = no_act(0, at, top);
    let mut p = first;
    loop {
        let e = end_at(walk.text, g.next);
        match e {
            Some(q) => {
                return finished(g, q);
            }
            None => {
                let x = walk.expr(work, DEPTH, g.next, g.top);
                if is_form(x.fault) {
                    return x;
                }
                let t = link_to(work, p, x.place, x.top);
                p = x.top as usize + 1;
                g = with_argument(work, walk.types, frame, g, x, t);
            }
        }
    }
}

// A `call` after its name, which stands at p.
fn call_named(walk: Walk, work: &mut [u32], number: u32, p: usize, at: usize, top: u32) -> Got
    ensures { GivesCallNamed walk.entry.text.now work.old walk.entry.types.now walk.entry.scope number p at top result work.new }
{
    let m = meaning_of(walk.text, work, walk.scope, p);
    let c = callee_of(work, m);
    let t = slot(work, top);
    let h = top as usize;
    let a = arguments(walk, work, c.frame, h, at, t);
    call_node(work, number, c, top, a)
}

// A `call`.
pub fn call(walk: Walk, work: &mut [u32], number: u32, at: usize, top: u32) -> Got
    ensures { GivesCall walk.entry.text.now work.old walk.entry.types.now walk.entry.scope number at top result work.new }
{
    match part_at(walk.text, at) {
        Part::Leaf(w, p, q) => {
            if is_named(w) {
                call_named(walk, work, number, p, q, top)
            } else {
                failed(Fault::Form, 0, q, top)
            }
        }
        Part::Form(p) => failed(Fault::Form, 0, p, top),
        Part::Shut(q) => failed(Fault::Form, 0, q, top),
    }
}
