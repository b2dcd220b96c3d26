// The nodes of statements, from the answers for their parts.
ghost use Rattle.std.specs.Prelude.{◌≡◌};
ghost use Rattle.rule_expr_nodes.specs.Nodes.{Makes};
ghost use Rattle.table_scope.specs.Descriptions.{info_of};
ghost use Rattle.rule_stmt_nodes.specs.Nodes.{next_number, wanted_got, raised, looped, branched, skip_got, stored, assigned, control_by, control_fault, repeated, repeated_by, sequenced, joined_got, finished_got, is_named};
ghost use Rattle.text_heads.specs.Heads.{atom_of};

use crate::base::{node_if, with_fault};
use leaf_words::words::Word;
use rule_expr_nodes::nodes::node;
use rule_faults::{Fault, Got, failed, is_clear, lowest};
use table_scope::{Info, Loops, Meaning, describe, host_of, loops_over};
use text_heads::{Atom, atom_of};

// The control variable of a `for`: its fault; with no fault its number, type and first cell.
// Kept: no Option, which is no plainer: the walk goes on behind a fault of row 7 and uses kind 0, so each use would ask for a default.
#[derive(Clone, Copy)]
pub struct Control {
    pub fault: Fault,
    pub number: u32,
    pub kind: u32,
    pub base: u32,
}

// The number after n; the last one is its own.
pub fn next_number(n: u32) -> u32
    ensures { result ≡ next_number n }
{
    n.saturating_add(1)
}

// An expression's answer where kind k is wanted.
#[tactic(auto, using(crate::proofs::Making::wanted_laws))]
pub fn wanted(k: u32, g: Got) -> Got
    ensures { result ≡ wanted_got k g }
{
    if k == g.kind {
        g
    } else {
        with_fault(g, lowest(g.fault, Fault::Kind))
    }
}

// `raise` with the number c.
pub fn raise_node(work: &mut [u32], n: u32, c: Got) -> Got
    ensures { Makes (raised work.old n c) result work.new }
{
    let ns = [code_ops::stmt::RAISE, n, c.place];
    node_if(work, c.fault, n, c.next, c.top, &ns)
}

// `while` with the test c and the body b.
pub fn while_node(work: &mut [u32], n: u32, c: Got, b: Got) -> Got
    ensures { Makes (looped work.old n c b) result work.new }
{
    let f = lowest(c.fault, b.fault);
    let ns = [code_ops::stmt::WHILE, n, c.place, b.place];
    node_if(work, f, b.kind, b.next, b.top, &ns)
}

// `if` with the test c and two branches.
pub fn if_node(work: &mut [u32], n: u32, c: Got, a: Got, b: Got) -> Got
    ensures { Makes (branched work.old n c a b) result work.new }
{
    let f = lowest(lowest(c.fault, a.fault), b.fault);
    let ns = [code_ops::stmt::BRANCH, n, c.place, a.place, b.place];
    node_if(work, f, b.kind, b.next, b.top, &ns)
}

// The missing third part of an `if`.
pub fn no_act(n: u32, next: usize, top: u32) -> Got
    ensures { result ≡ skip_got n next top }
{
    Got {
        fault: Fault::Clear,
        kind: n,
        place: 0,
        next,
        top,
    }
}

// An assignment, neither part with a fault, to a target of kind k whose type i describes.
fn store_node(work: &mut [u32], i: Info, k: u32, n: u32, g: Got, e: Got) -> Got
    ensures { Makes (stored work.old i k n g e) result work.new }
{
    if k != e.kind {
        return failed(Fault::Kind, n, e.next, e.top);
    }
    if i.shape == 0 {
        let ns = [code_ops::stmt::ASSIGN, n, g.place, e.place, i.low, i.high];
        return node(work, n, e.next, e.top, &ns);
    }
    let code = if i.shape == 1 {
        code_ops::stmt::ASSIGN_CELL
    } else {
        code_ops::stmt::COPY_CELLS
    };
    node(work, n, e.next, e.top, &[code, n, g.place, e.place])
}

// An assignment.
#[tactic(auto, using(crate::proofs::Making::assign_laws))]
pub fn assign_node(work: &mut [u32], types: &[u32], n: u32, g: Got, e: Got) -> Got
    ensures { Makes (assigned work.old types.now n g e) result work.new }
{
    let f = lowest(g.fault, e.fault);
    if is_clear(f) {
        let k = host_of(work, types, g.kind);
        store_node(work, describe(work, types, g.kind), k, n, g, e)
    } else {
        failed(f, n, e.next, e.top)
    }
}

// The control variable that a name means, a fault of row 7 where it means none.
pub fn stepped(m: Meaning) -> Control
    ensures { result ≡ control_by m }
{
    match m {
        Meaning::Var(number, kind, base) => Control {
            fault: Fault::Clear,
            number,
            kind,
            base,
        },
        _ => Control {
            fault: Fault::Name,
            number: 0,
            kind: 0,
            base: 0,
        },
    }
}

// The fault of a control variable whose type i describes: a loop around steps it, or it is no ordinal.
#[tactic(auto, using(crate::proofs::Making::control_laws))]
fn control_fault(over: bool, i: Info) -> Fault
    ensures { result ≡ control_fault over i }
{
    if !over && i.shape == 0 {
        Fault::Clear
    } else {
        Fault::Kind
    }
}

// `for` with a fault of its own.
fn for_parts(work: &mut [u32], i: Info, f: Fault, n: u32, v: Control, x: Got, y: Got, z: Got) -> Got
    ensures { Makes (repeated work.old i f n v x y z) result work.new }
{
    let parts = lowest(lowest(x.fault, y.fault), z.fault);
    let e = lowest(lowest(v.fault, parts), f);
    let ns = [
        code_ops::stmt::FOR,
        n,
        v.base,
        i.low,
        i.high,
        x.place,
        y.place,
        z.place,
    ];
    node_if(work, e, z.kind, z.next, z.top, &ns)
}

// `for` over v from x to y with the body z.
pub fn for_node(
    work: &mut [u32],
    types: &[u32],
    loops: Loops,
    n: u32,
    v: Control,
    x: Got,
    y: Got,
    z: Got,
) -> Got
    ensures { Makes (repeated_by work.old (info_of work.old types.now v.kind) loops n v x y z) result work.new }
{
    let i = describe(work, types, v.kind);
    let f = control_fault(loops_over(loops, v.number), i);
    for_parts(work, i, f, n, v, x, y, z)
}

// `begin` with the chain of its statements.
pub fn begin_node(work: &mut [u32], n: u32, slot: u32, m: Got) -> Got
    ensures { Makes (sequenced work.old n slot m) result work.new }
{
    let ns = [code_ops::stmt::SEQUENCE, n, slot];
    node_if(work, m.fault, m.kind, m.next, m.top, &ns)
}

// The answer for a chain with one statement more, laid up to t.
#[tactic(auto, using(crate::proofs::Making::joined_is))]
pub fn joined(g: Got, a: Got, t: u32) -> Got
    ensures { result ≡ joined_got g a t }
{
    Got {
        fault: lowest(g.fault, a.fault),
        kind: a.kind,
        place: 0,
        next: a.next,
        top: t,
    }
}

// The answer for a chain, past the closing bracket.
pub fn finished(g: Got, q: usize) -> Got
    ensures { result ≡ finished_got g q }
{
    Got {
        place: 0,
        next: q,
        ..g
    }
}

// Whether a word is a name.
pub fn is_named(w: Word) -> bool
    ensures { result ≡ is_named (atom_of w) }
{
    matches!(atom_of(w), Atom::Named)
}
