// The nodes of operators and functions, from the answers for their sides.
ghost use Rattle.table_kinds.specs.Kinds.{fits};
ghost use Rattle.rule_expr_nodes.specs.Nodes.{Makes};
ghost use Rattle.rule_expr_compounds.specs.Operators.{operated, paired, ruled_node1, applied_clear, applied};

use rule_expr_nodes::nodes::node;
use rule_faults::{Fault, Got, failed, is_clear, lowest};
use table_kinds::{one_sided, two_sided};
use table_scope::{Info, describe, side_of};

// A two-sided operator whose sides have no fault.
fn operate(work: &mut [u32], types: &[u32], op: usize, a: Got, b: Got) -> Got
    ensures { Makes (operated work.old types.now op a b) result work.new }
{
    let x = two_sided(
        op,
        side_of(work, types, a.kind),
        side_of(work, types, b.kind),
    );
    match x {
        None => failed(Fault::Kind, 0, b.next, b.top),
        Some(r) => {
            let ns = [r.node, a.place, b.place];
            node(work, r.kind, b.next, b.top, &ns)
        }
    }
}

// A two-sided operator; `and_then` and `or_else` are rows of the table like any other.
pub fn pair(work: &mut [u32], types: &[u32], op: usize, a: Got, b: Got) -> Got
    ensures { Makes (paired work.old types.now op a b) result work.new }
{
    let f = lowest(a.fault, b.fault);
    if is_clear(f) {
        operate(work, types, op, a, b)
    } else {
        failed(f, 0, b.next, b.top)
    }
}

// A node of one part: `pred` and `succ` have their bounds.
fn node_one(work: &mut [u32], i: Info, n: u32, kind: u32, a: Got) -> Got
    ensures { Makes (ruled_node1 (fits n kind) i a.place a.next a.top work.old) result work.new }
{
    if n < code_ops::expr::PRED {
        node(work, kind, a.next, a.top, &[n, a.place])
    } else {
        let ns = [n, a.place, i.low, i.high];
        node(work, kind, a.next, a.top, &ns)
    }
}

// A one-sided operator or function whose side has no fault.
fn operate_one(work: &mut [u32], types: &[u32], f: usize, a: Got) -> Got
    ensures { Makes (applied_clear work.old types.now f a) result work.new }
{
    match one_sided(f, side_of(work, types, a.kind)) {
        None => failed(Fault::Kind, 0, a.next, a.top),
        Some(r) => node_one(work, describe(work, types, a.kind), r.node, r.kind, a),
    }
}

// A one-sided operator or function.
pub fn apply(work: &mut [u32], types: &[u32], f: usize, a: Got) -> Got
    ensures { Makes (applied work.old types.now f a) result work.new }
{
    if is_clear(a.fault) {
        operate_one(work, types, f, a)
    } else {
        failed(a.fault, 0, a.next, a.top)
    }
}
