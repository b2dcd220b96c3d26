// A call: the procedure that it names, its arguments' faults, and its node.
ghost use Rattle.std.specs.Prelude.{◌≡◌};
ghost use Rattle.rule_expr_nodes.specs.Nodes.{Makes};
ghost use Rattle.rule_stmt_nodes.specs.Calls.{callee_by, argument_fault, argument_got, few_fault, called};

use crate::base::node_if;
use crate::nodes::next_number;
use rule_expr_nodes::members::member_fault;
use rule_faults::{Fault, Got, lowest};
use table_scope::frames::{Frame, frame_of, parameter_type};
use table_scope::{Meaning, host_of};

// The procedure that a call names: a fault of row 7 where there is none; the place of its body, and its parameters.
// Kept: no Option, which is no plainer: the arguments are read behind a fault of row 7 too, against a frame of no parameters.
#[derive(Clone, Copy)]
pub struct Callee {
    pub fault: Fault,
    pub place: u32,
    pub frame: Frame,
}

// The procedure that a name means.
#[tactic(auto, using(crate::proofs::Calling::callee_laws))]
pub fn callee_of(work: &[u32], m: Meaning) -> Callee
    ensures { result ≡ callee_by work.now m }
{
    match m {
        Meaning::Proc(place) => Callee {
            fault: Fault::Clear,
            place,
            frame: frame_of(work, place),
        },
        _ => Callee {
            fault: Fault::Name,
            place: 0,
            frame: Frame {
                count: 0,
                types: 0,
                base: 0,
            },
        },
    }
}

// The fault of argument j, whose answer is a: where there is no parameter for it, one of row 8 at least.
#[tactic(auto, using(crate::proofs::Calling::argument_laws))]
fn argument_fault(work: &[u32], types: &[u32], x: Frame, j: u32, a: Got) -> Fault
    ensures { result ≡ argument_fault work.now types.now x j a }
{
    if j < x.count {
        let k = host_of(work, types, parameter_type(work, x, j));
        member_fault(a.fault, a.kind, k)
    } else {
        lowest(a.fault, Fault::Kind)
    }
}

// The answer for a call's arguments with one more, laid up to t; its kind is their count.
pub fn with_argument(work: &[u32], types: &[u32], x: Frame, g: Got, a: Got, t: u32) -> Got
    ensures { result ≡ argument_got work.now types.now x g a t }
{
    Got {
        fault: lowest(g.fault, argument_fault(work, types, x, g.kind, a)),
        kind: next_number(g.kind),
        place: 0,
        next: a.next,
        top: t,
    }
}

// The fault of fewer arguments than parameters; one past the last parameter has its own.
#[tactic(auto, using(crate::proofs::Calling::few_laws))]
fn few_fault(x: Frame, n: u32) -> Fault
    ensures { result ≡ few_fault x n }
{
    if n < x.count {
        Fault::Kind
    } else {
        Fault::Clear
    }
}

// `call` with the chain of its arguments, whose answer is a.
pub fn call_node(work: &mut [u32], n: u32, c: Callee, slot: u32, a: Got) -> Got
    ensures { Makes (called work.old n c slot a) result work.new }
{
    let e = lowest(c.fault, lowest(a.fault, few_fault(c.frame, a.kind)));
    let ns = [code_ops::stmt::CALL, n, c.place, slot];
    node_if(work, e, n, a.next, a.top, &ns)
}
