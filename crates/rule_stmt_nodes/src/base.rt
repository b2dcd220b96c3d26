// What the leaves of the walk over statements are made of: an answer with another fault, and a node where no fault has come.
// Kept (6): nodes and entries are numbers at the free place of the lent working list: fixed memory and no heap, as document 01 has it.
ghost use Rattle.std.specs.Prelude.{◌≡◌};
ghost use Rattle.rule_expr_nodes.specs.Nodes.{Makes};
ghost use Rattle.rule_stmt_nodes.specs.BaseNodes.{with_fault, node_if, steered};

use rule_expr_nodes::nodes::node;
use rule_faults::{Fault, Got, failed, is_clear, lowest};
use table_scope::{Loops, Meaning, loops_over};

// The same answer with another fault.
pub fn with_fault(g: Got, f: Fault) -> Got
    ensures { result ≡ with_fault g f }
{
    Got { fault: f, ..g }
}

// A node where no fault has come; `kind` is the number of the last statement read.
#[tactic(auto, using(crate::proofs::BaseMaking::node_laws))]
pub fn node_if(work: &mut [u32], fault: Fault, kind: u32, next: usize, top: u32, ns: &[u32]) -> Got
    ensures { Makes (node_if fault kind next ns.now top work.old) result work.new }
{
    if is_clear(fault) {
        node(work, kind, next, top, ns)
    } else {
        failed(fault, kind, next, top)
    }
}

// A whole variable that is assigned, by its meaning: a fault of row 8 if a loop around steps it.
#[tactic(auto, using(crate::proofs::BaseMaking::steer_laws))]
pub fn steer(loops: Loops, m: Meaning, g: Got) -> Got
    ensures { result ≡ steered loops m g }
{
    match m {
        Meaning::Var(i, _, _) if loops_over(loops, i) => with_fault(
            g,
            lowest(g.fault, Fault::Kind),
        ),
        _ => g,
    }
}
