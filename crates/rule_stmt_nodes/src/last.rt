// A body's parts: what comes next, and the node of a body.
ghost use Rattle.rule_expr_nodes.specs.Nodes.{Makes};
ghost use Rattle.rule_stmt_nodes.specs.Nodes.{plain_made, handled_made};
ghost use Rattle.rule_stmt_nodes.specs.Handlers.{Comes, HandlerIn};

use crate::base::node_if;
use rule_faults::{Got, lowest};
use table_list::slot;
use text_heads::is_exception;
use text_parts::{Part, part_at};

// The next part of a body: none (past the closing bracket), a handler (the offset of its statements), or a statement.
#[derive(Clone, Copy)]
pub enum Next {
    Past(usize),
    Handler(usize),
    Stmt,
}

// Whether the parts of a form are a handler's.
#[tactic(auto, using(crate::proofs::Following::in_laws))]
fn handler_in(text: &[u8], at: usize) -> Next
    ensures { HandlerIn text.now at result }
{
    match part_at(text, at) {
        Part::Leaf(w, _, q) => {
            if is_exception(w) {
                Next::Handler(q)
            } else {
                Next::Stmt
            }
        }
        _ => Next::Stmt,
    }
}

// The next part of a body.
// Kept: a match of three arms that says what comes; `arm_at` says it of arms with other answers.
#[tactic(auto, using(crate::proofs::Following::next_laws))]
pub fn next_at(text: &[u8], at: usize) -> Next
    ensures { Comes text.now at result }
{
    match part_at(text, at) {
        Part::Leaf(_, _, _) => Next::Stmt,
        Part::Form(p) => handler_in(text, p),
        Part::Shut(q) => Next::Past(q),
    }
}

// What a body has beside its statements: its number, and the place of its frame, 0 of one without parameters.
#[derive(Clone, Copy)]
pub struct Head {
    pub number: u32,
    pub frame: u32,
}

// A body with no handler.
pub fn plain_node(work: &mut [u32], h: Head, start: u32, g: Got, q: usize) -> Got
    ensures { Makes (plain_made work.old h start g q) result work.new }
{
    let t = slot(work, g.top);
    let ns = [h.number, start, 0, g.top, h.frame];
    node_if(work, g.fault, g.kind, q, t, &ns)
}

// A body with a handler, whose answer is b.
pub fn handled_node(work: &mut [u32], h: Head, start: u32, g: Got, b: Got) -> Got
    ensures { Makes (handled_made work.old h start g b) result work.new }
{
    let f = lowest(g.fault, b.fault);
    let ns = [h.number, start, 1, g.top, h.frame];
    node_if(work, f, b.kind, b.next, b.top, &ns)
}
