// The labels of an arm of a `case`.
// Kept (6): nodes and entries are numbers at the free place of the lent working list: fixed memory and no heap, as document 01 has it.
ghost use Rattle.std.specs.Prelude.{◌≡◌};
ghost use Rattle.rule_statements.specs.Cases.{labelled_got, counted_got, LinksLabel, GivesLabels};

use rule_atoms::{Valued, constant};
use rule_expr_nodes::links::link_to;
use rule_expr_nodes::members::member_fault;
use rule_expr_nodes::nodes::bits_of;
use rule_faults::{Fault, Got, failed, is_form, lowest};
use rule_stmt_nodes::nodes::no_act;
use table_scope::Scope;
use text_parts::end_at;

// The answer with one label more, laid up to t; labels are of kind k.
fn labelled(g: Got, v: Valued, k: u32, t: u32) -> Got
    ensures { result ≡ labelled_got g v k t }
{
    Got {
        fault: lowest(g.fault, member_fault(v.fault, v.kind, k)),
        kind: 1,
        place: 0,
        next: v.next,
        top: t,
    }
}

// The answer for all labels: a fault of row 6 where there is none.
fn counted(g: Got) -> Got
    ensures { result ≡ counted_got g }
{
    if g.kind == 0 {
        failed(Fault::Form, 0, g.next, g.top)
    } else {
        g
    }
}

// A label's link, and the slot before it; the free place then.
fn link_label(work: &mut [u32], slot: usize, v: Valued, top: u32) -> u32
    ensures { LinksLabel v.value slot top work.old result work.new }
{
    link_to(work, slot, bits_of(v.value), top)
}

// The labels of an arm, of kind k, up to its statement, chained from a slot on. A part is a label if it is a constant and another part
// follows.
pub fn labels(
    text: &[u8],
    work: &mut [u32],
    scope: Scope,
    k: u32,
    first: usize,
    at: usize,
    top: u32,
) -> Got
    ensures { GivesLabels text.now work.old scope k first at top result work.new }
{
    let mut g = no_act(0, at, top);
    let mut p = first;
    loop {
        let v = constant(text, work, scope, g.next);
        if is_form(v.fault) {
            return counted(g);
        }
        let e = end_at(text, v.next);
        match e {
            Some(_) => {
                return counted(g);
            }
            None => {
                let t = link_label(work, p, v, g.top);
                p = g.top as usize + 1;
                g = labelled(g, v, k, t);
            }
        }
    }
}
