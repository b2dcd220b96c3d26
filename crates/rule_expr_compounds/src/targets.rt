// The nodes of elements and fields, and of the cells at a target.
ghost use Rattle.std.specs.Prelude.{◌≡◌, map};
ghost use Rattle.leaf_bytes.specs.Bytes.{small};
ghost use Rattle.law.specs.Trees.{word_at};
ghost use Rattle.table_scope.specs.Descriptions.{info_of};
ghost use Rattle.rule_expr_nodes.specs.Nodes.{Makes};
ghost use Rattle.rule_expr_compounds.specs.Targets.{loaded, element_kind, element, indexed, field_made, Selects};

use rule_expr_nodes::nodes::node;
use rule_faults::{Fault, Got, failed, is_clear, lowest};
use table_list::at;
use table_scope::{Info, describe, find_field, host_of};

// The cells at a target that is no whole variable.
pub fn load(work: &mut [u32], types: &[u32], g: Got) -> Got
    ensures { Makes (loaded work.old types.now g) result work.new }
{
    if is_clear(g.fault) {
        let i = describe(work, types, g.kind);
        let kind = host_of(work, types, g.kind);
        let ns = [code_ops::expr::LOAD_AT, g.place, i.size];
        node(work, kind, g.next, g.top, &ns)
    } else {
        failed(g.fault, 0, g.next, g.top)
    }
}

// The type of an array's element, 0 of any other type.
fn element_kind(i: Info) -> u32
    ensures { result ≡ element_kind i }
{
    if i.shape == 2 { i.element } else { 0 }
}

// An element of a target whose type i describes, neither with a fault.
#[tactic(auto, using(crate::proofs::Targeting::element_laws))]
fn element_of(work: &mut [u32], types: &[u32], i: Info, g: Got, e: Got) -> Got
    ensures { Makes (element work.old types.now i g e) result work.new }
{
    if i.shape != 2 || host_of(work, types, i.index) != e.kind {
        return failed(Fault::Kind, element_kind(i), e.next, e.top);
    }
    let j = describe(work, types, i.element);
    let ns = [
        code_ops::place::INDEX,
        g.place,
        e.place,
        i.low,
        i.high,
        j.size,
    ];
    node(work, i.element, e.next, e.top, &ns)
}

// An element of a target.
pub fn index(work: &mut [u32], types: &[u32], g: Got, e: Got) -> Got
    ensures { Makes (indexed work.old types.now g e) result work.new }
{
    let i = describe(work, types, g.kind);
    let f = lowest(g.fault, e.fault);
    if is_clear(f) {
        element_of(work, types, i, g, e)
    } else {
        failed(f, element_kind(i), e.next, e.top)
    }
}

// The field whose description stands at p.
fn field_at(work: &mut [u32], p: u32, next: usize, g: Got) -> Got
    ensures { Makes (field_made work.old p next g) result work.new }
{
    if p == 0 {
        return failed(lowest(g.fault, Fault::Name), 0, next, g.top);
    }
    let q = p as usize;
    let kind = at(work, q + 1);
    let offset = at(work, q + 2);
    if is_clear(g.fault) {
        let ns = [code_ops::place::SHIFT, g.place, offset];
        node(work, kind, next, g.top, &ns)
    } else {
        failed(g.fault, kind, next, g.top)
    }
}

// The field of a target that the word at an offset names.
pub fn select(text: &[u8], work: &mut [u32], types: &[u32], g: Got, name: usize, next: usize) -> Got
    ensures { Selects text.now work.old (info_of work.old types.now g.kind) (map small (word_at text.now name)) next g result work.new }
{
    let i = describe(work, types, g.kind);
    if i.shape == 3 {
        let p = find_field(text, work, i.place, i.fields, name);
        field_at(work, p, next, g)
    } else {
        failed(lowest(g.fault, Fault::Kind), 0, next, g.top)
    }
}
