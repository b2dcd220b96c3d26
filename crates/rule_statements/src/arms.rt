// The arms of a `case`: what comes next, their links, and the node of a case.
ghost use Rattle.std.specs.Prelude.{◌≡◌, cond, eqb};
ghost use Rattle.rule_faults.specs.declared.Fault.TheVariants.{Clear, Kind};
ghost use Rattle.rule_expr_nodes.specs.Nodes.{Makes};
ghost use Rattle.rule_statements.specs.Cases.{ArmComes, ArmInside, arm_made, selected_kind, FirstArm, case_made, CaseEnds};

use rule_expr_nodes::links::link;
use rule_expressions::walk::Walk;
use rule_faults::{Fault, Got, is_clear, lowest};
use rule_labels::repeat_fault;
use rule_stmt_nodes::base::node_if;
use table_scope::{Info, describe};
use text_heads::{ArmHead, arm_head};
use text_parts::{Part, part_at};

// The next part of a case: none (past the closing bracket), an arm or an `else` (the offset of its parts), or no arm.
// Kept: four ways on, of which `Past` and `Nothing` have answers of their own; an Option of a Result is no plainer.
#[derive(Clone, Copy)]
pub enum NextArm {
    Past(usize),
    Arm(usize),
    Else(usize),
    Nothing,
}

// An arm by the parts of its form.
fn arm_in(text: &[u8], at: usize) -> NextArm
    ensures { ArmInside text.now at result }
{
    match part_at(text, at) {
        Part::Leaf(w, _, q) => match arm_head(w) {
            ArmHead::Arm => NextArm::Arm(q),
            ArmHead::Else => NextArm::Else(q),
            ArmHead::Nothing => NextArm::Nothing,
        },
        _ => NextArm::Nothing,
    }
}

// The next part of a case after its selector.
pub fn arm_at(text: &[u8], at: usize) -> NextArm
    ensures { ArmComes text.now at result }
{
    match part_at(text, at) {
        Part::Leaf(_, _, _) => NextArm::Nothing,
        Part::Form(p) => arm_in(text, p),
        Part::Shut(q) => NextArm::Past(q),
    }
}

// An arm's link, with the slot of its labels, and the slot before it: g is the answer for what comes before the statement, b for that.
pub fn link_arm(work: &mut [u32], slot: usize, head: u32, g: Got, b: Got) -> Got
    ensures { Makes (arm_made work.old slot head g b) result work.new }
{
    let t = link(work, slot, &[head, b.place, 0], b.top);
    Got {
        fault: lowest(g.fault, b.fault),
        kind: b.kind,
        place: b.top,
        next: b.next,
        top: t,
    }
}

// The kind of a selector, 0 where it has a fault.
pub fn selector_kind(x: Got) -> u32
    ensures { result ≡ selected_kind x }
{
    if is_clear(x.fault) { x.kind } else { 0 }
}

// A fault of row 6 where the first part is no arm.
fn first_fault(text: &[u8], at: usize) -> Fault
    ensures { FirstArm text.now at result }
{
    match arm_at(text, at) {
        NextArm::Arm(_) => Fault::Clear,
        _ => Fault::Form,
    }
}

// No fault where i describes an ordinal kind.
fn ordinal_fault(i: Info) -> Fault
    ensures { result ≡ cond (eqb i.shape 0) Clear Kind }
{
    if i.shape == 0 {
        Fault::Clear
    } else {
        Fault::Kind
    }
}

// The node of a case, where i describes the selector's kind, f is the fault of the first arm and w that of the labels.
fn case_node(work: &mut [u32], i: Info, n: u32, x: Got, m: Got, f: Fault, w: Fault) -> Got
    ensures { Makes (case_made work.old i n x m f w) result work.new }
{
    let parts = lowest(lowest(f, m.fault), w);
    let e = lowest(lowest(x.fault, parts), ordinal_fault(i));
    let ns = [code_ops::stmt::CASE, n, x.place, x.top];
    node_if(work, e, m.kind, m.next, m.top, &ns)
}

// The end of a case whose selector has the answer x and whose arms have m.
pub fn case_end(walk: Walk, work: &mut [u32], n: u32, x: Got, m: Got) -> Got
    ensures { CaseEnds walk.entry.text.now work.old walk.entry.types.now walk.entry.scope n x m result work.new }
{
    let f = first_fault(walk.text, x.next);
    let w = repeat_fault(walk.text, work, walk.scope, m.fault, x.next);
    let i = describe(work, walk.types, x.kind);
    case_node(work, i, n, x, m, f, w)
}
