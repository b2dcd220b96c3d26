// The walk over statements: a statement at an offset, at most `depth` deep, laid from the free place `top` on; `number` is that of the last
// statement before, and past the head word the statement's own.
// Kept (6): nodes and entries are numbers at the free place of the lent working list: fixed memory and no heap, as document 01 has it.
ghost use Rattle.text_heads.specs.declared.Verb.TheVariants.{Begin, If, While, For, Case};
ghost use Rattle.rule_statements.specs.Cases.{ArmStmtBy, ArmBy, ElseBy, GivesArms, CaseBy};
ghost use Rattle.rule_statements.specs.Walks.{GivesStmt, GivesInner, GivesVerb, GivesThen, GivesElse, GivesFor, GivesTo, GivesDo, GivesActs};

use crate::arm_labels::labels;
use crate::arms::{NextArm, arm_at, case_end, link_arm, selector_kind};
use crate::simple::{assign, call, raise, wanted_expr};
use rule_expr_nodes::bracket::closing;
use rule_expr_nodes::links::link_to;
use rule_expressions::walk::Walk;
use rule_faults::{Fault, Got, failed, is_form};
use rule_stmt_nodes::nodes::{
    Control, begin_node, finished, for_node, if_node, is_named, joined, next_number, no_act,
    stepped, while_node,
};
use table_list::slot;
use table_scope::{Loops, host_of, meaning_of, with_loop};
use text_heads::{DEPTH, Verb, verb_of};
use text_parts::{Part, end_at, part_at};

// A statement.
#[cycle(walk)]
pub fn stmt(
    walk: Walk,
    work: &mut [u32],
    loops: Loops,
    depth: usize,
    number: u32,
    at: usize,
    top: u32,
) -> Got
    ensures { GivesStmt walk.entry.text.now work.old walk.entry.types.now walk.entry.scope loops depth number at top result work.new }
{
    if depth == 0 {
        return failed(Fault::Form, 0, at, top);
    }
    match part_at(walk.text, at) {
        Part::Leaf(_, _, q) => failed(Fault::Form, 0, q, top),
        Part::Form(p) => inner(walk, work, loops, depth - 1, number, p, top),
        Part::Shut(q) => failed(Fault::Form, 0, q, top),
    }
}

// All parts of its form.
#[cycle(walk)]
fn inner(
    walk: Walk,
    work: &mut [u32],
    loops: Loops,
    depth: usize,
    number: u32,
    at: usize,
    top: u32,
) -> Got
    ensures { GivesInner walk.entry.text.now work.old walk.entry.types.now walk.entry.scope loops depth number at top result work.new }
{
    match part_at(walk.text, at) {
        Part::Leaf(w, _, q) => {
            let v = verb_of(w);
            let n = next_number(number);
            headed(walk, work, loops, v, depth, n, q, top)
        }
        Part::Form(p) => failed(Fault::Form, 0, p, top),
        Part::Shut(q) => failed(Fault::Form, 0, q, top),
    }
}

// The parts after the head word.
// Kept: the kinds are closed and each has its own arm; closures or a table of functions would say the same twice.
#[cycle(walk)]
fn headed(
    walk: Walk,
    work: &mut [u32],
    loops: Loops,
    verb: Verb,
    depth: usize,
    number: u32,
    at: usize,
    top: u32,
) -> Got
    ensures { GivesVerb walk.entry.text.now work.old walk.entry.types.now walk.entry.scope loops verb depth number at top result work.new }
{
    match verb {
        Verb::Assign => assign(walk, work, loops, number, at, top),
        Verb::Begin => begin(walk, work, loops, depth, number, at, top),
        Verb::If => if_else(walk, work, loops, depth, number, at, top),
        Verb::While => while_loop(walk, work, loops, depth, number, at, top),
        Verb::For => for_loop(walk, work, loops, depth, number, at, top),
        Verb::Case => case_of(walk, work, loops, depth, number, at, top),
        Verb::Call => call(walk, work, number, at, top),
        Verb::Raise => raise(walk, work, number, at, top),
        Verb::Nothing => failed(Fault::Form, 0, at, top),
    }
}

// A `while`.
#[cycle(walk)]
fn while_loop(
    walk: Walk,
    work: &mut [u32],
    loops: Loops,
    depth: usize,
    number: u32,
    at: usize,
    top: u32,
) -> Got
    ensures { GivesVerb walk.entry.text.now work.old walk.entry.types.now walk.entry.scope loops While depth number at top result work.new }
{
    let c = wanted_expr(walk, work, 1, at, top);
    if is_form(c.fault) {
        return c;
    }
    let a = stmt(walk, work, loops, depth, number, c.next, c.top);
    let b = closing(walk.text, a);
    while_node(work, number, c, b)
}

// An `if`.
#[cycle(walk)]
fn if_else(
    walk: Walk,
    work: &mut [u32],
    loops: Loops,
    depth: usize,
    number: u32,
    at: usize,
    top: u32,
) -> Got
    ensures { GivesVerb walk.entry.text.now work.old walk.entry.types.now walk.entry.scope loops If depth number at top result work.new }
{
    let c = wanted_expr(walk, work, 1, at, top);
    if is_form(c.fault) {
        return c;
    }
    if_then(walk, work, loops, c, depth, number)
}

// The parts of an `if` after its test, whose answer is c.
#[cycle(walk)]
fn if_then(walk: Walk, work: &mut [u32], loops: Loops, c: Got, depth: usize, number: u32) -> Got
    ensures { GivesThen walk.entry.text.now work.old walk.entry.types.now walk.entry.scope loops c depth number result work.new }
{
    let a = stmt(walk, work, loops, depth, number, c.next, c.top);
    if is_form(a.fault) {
        return a;
    }
    let b = else_part(walk, work, loops, depth, a.kind, a.next, a.top);
    if_node(work, number, c, a, b)
}

// The third part of an `if`, which may be missing.
#[cycle(walk)]
fn else_part(
    walk: Walk,
    work: &mut [u32],
    loops: Loops,
    depth: usize,
    number: u32,
    at: usize,
    top: u32,
) -> Got
    ensures { GivesElse walk.entry.text.now work.old walk.entry.types.now walk.entry.scope loops depth number at top result work.new }
{
    let e = end_at(walk.text, at);
    match e {
        Some(q) => no_act(number, q, top),
        None => {
            let g = stmt(walk, work, loops, depth, number, at, top);
            closing(walk.text, g)
        }
    }
}

// A `for`.
#[cycle(walk)]
fn for_loop(
    walk: Walk,
    work: &mut [u32],
    loops: Loops,
    depth: usize,
    number: u32,
    at: usize,
    top: u32,
) -> Got
    ensures { GivesVerb walk.entry.text.now work.old walk.entry.types.now walk.entry.scope loops For depth number at top result work.new }
{
    match part_at(walk.text, at) {
        Part::Leaf(w, p, q) => {
            if is_named(w) {
                let m = meaning_of(walk.text, work, walk.scope, p);
                let v = stepped(m);
                for_from(walk, work, loops, v, depth, number, q, top)
            } else {
                failed(Fault::Form, 0, q, top)
            }
        }
        Part::Form(p) => failed(Fault::Form, 0, p, top),
        Part::Shut(q) => failed(Fault::Form, 0, q, top),
    }
}

// The parts of a `for` after its control variable.
#[cycle(walk)]
fn for_from(
    walk: Walk,
    work: &mut [u32],
    loops: Loops,
    v: Control,
    depth: usize,
    number: u32,
    at: usize,
    top: u32,
) -> Got
    ensures { GivesFor walk.entry.text.now work.old walk.entry.types.now walk.entry.scope loops v depth number at top result work.new }
{
    let k = host_of(work, walk.types, v.kind);
    let x = wanted_expr(walk, work, k, at, top);
    if is_form(x.fault) {
        return x;
    }
    for_to(walk, work, loops, k, v, x, depth, number)
}

// The parts of a `for` after its first bound, whose answer is x; k is the control variable's kind.
#[cycle(walk)]
fn for_to(
    walk: Walk,
    work: &mut [u32],
    loops: Loops,
    k: u32,
    v: Control,
    x: Got,
    depth: usize,
    number: u32,
) -> Got
    ensures { GivesTo walk.entry.text.now work.old walk.entry.types.now walk.entry.scope loops k v x depth number result work.new }
{
    let y = wanted_expr(walk, work, k, x.next, x.top);
    if is_form(y.fault) {
        return y;
    }
    for_do(walk, work, loops, v, x, y, depth, number)
}

// The parts of a `for` after its bounds, whose answers are x and y.
#[cycle(walk)]
fn for_do(
    walk: Walk,
    work: &mut [u32],
    loops: Loops,
    v: Control,
    x: Got,
    y: Got,
    depth: usize,
    number: u32,
) -> Got
    ensures { GivesDo walk.entry.text.now work.old walk.entry.types.now walk.entry.scope loops v x y depth number result work.new }
{
    let w = with_loop(loops, v.number);
    let g = stmt(walk, work, w, depth, number, y.next, y.top);
    let z = closing(walk.text, g);
    for_node(work, walk.types, loops, number, v, x, y, z)
}

// A `begin`.
#[cycle(walk)]
fn begin(
    walk: Walk,
    work: &mut [u32],
    loops: Loops,
    depth: usize,
    number: u32,
    at: usize,
    top: u32,
) -> Got
    ensures { GivesVerb walk.entry.text.now work.old walk.entry.types.now walk.entry.scope loops Begin depth number at top result work.new }
{
    let t = slot(work, top);
    let p = top as usize;
    let m = acts(walk, work, loops, depth, number, p, at, t);
    begin_node(work, number, top, m)
}

// Statements up to the closing bracket, chained from a slot on.
#[cycle(walk)]
pub fn acts(
    walk: Walk,
    work: &mut [u32],
    loops: Loops,
    depth: usize,
    number: u32,
    first: usize,
    at: usize,
    top: u32,
) -> Got
    ensures { GivesActs walk.entry.text.now work.old walk.entry.types.now walk.entry.scope loops depth number first at top result work.new }
{
    let mut g = no_act(number, at, top);
    let mut p = first;
    loop {
        let e = end_at(walk.text, g.next);
        match e {
            Some(q) => {
                return finished(g, q);
            }
            None => {
                let a = stmt(walk, work, loops, depth, g.kind, g.next, g.top);
                if is_form(a.fault) {
                    return a;
                }
                let t = link_to(work, p, a.place, a.top);
                p = a.top as usize + 1;
                g = joined(g, a, t);
            }
        }
    }
}

// A `case`.
#[cycle(walk)]
fn case_of(
    walk: Walk,
    work: &mut [u32],
    loops: Loops,
    depth: usize,
    number: u32,
    at: usize,
    top: u32,
) -> Got
    ensures { GivesVerb walk.entry.text.now work.old walk.entry.types.now walk.entry.scope loops Case depth number at top result work.new }
{
    let x = walk.expr(work, DEPTH, at, top);
    if is_form(x.fault) {
        return x;
    }
    case_arms(walk, work, loops, x, depth, number)
}

// The parts of a case after its selector, whose answer is x.
#[cycle(walk)]
fn case_arms(walk: Walk, work: &mut [u32], loops: Loops, x: Got, depth: usize, number: u32) -> Got
    ensures { CaseBy walk.entry.text.now work.old walk.entry.types.now walk.entry.scope loops x depth number result work.new }
{
    let t = slot(work, x.top);
    let p = x.top as usize;
    let k = selector_kind(x);
    let m = all_arms(walk, work, loops, k, depth, number, p, x.next, t);
    case_end(walk, work, number, x, m)
}

// Arms up to the closing bracket, chained from a slot on; their labels are of kind k.
#[cycle(walk)]
fn all_arms(
    walk: Walk,
    work: &mut [u32],
    loops: Loops,
    k: u32,
    depth: usize,
    number: u32,
    first: usize,
    at: usize,
    top: u32,
) -> Got
    ensures { GivesArms walk.entry.text.now work.old walk.entry.types.now walk.entry.scope loops k depth number first at top result work.new }
{
    let mut g = no_act(number, at, top);
    let mut p = first;
    loop {
        match arm_at(walk.text, g.next) {
            NextArm::Past(q) => {
                return finished(g, q);
            }
            NextArm::Else(q) => {
                return else_arm(walk, work, loops, depth, p, g, q);
            }
            NextArm::Nothing => {
                return failed(Fault::Form, 0, g.next, g.top);
            }
            NextArm::Arm(q) => {
                let a = arm(walk, work, loops, k, depth, g.kind, p, q, g.top);
                if is_form(a.fault) {
                    return a;
                }
                p = a.place as usize + 2;
                g = joined(g, a, a.top);
            }
        }
    }
}

// An arm after its head word, with labels of kind k; its link is chained to a slot.
#[cycle(walk)]
fn arm(
    walk: Walk,
    work: &mut [u32],
    loops: Loops,
    k: u32,
    depth: usize,
    number: u32,
    before: usize,
    at: usize,
    top: u32,
) -> Got
    ensures { ArmBy walk.entry.text.now work.old walk.entry.types.now walk.entry.scope loops k depth number before at top result work.new }
{
    let t = slot(work, top);
    let p = top as usize;
    let g = labels(walk.text, work, walk.scope, k, p, at, t);
    arm_stmt(walk, work, loops, depth, number, before, top, g)
}

// An arm from its statement on; g is the answer for its labels, which are chained from the slot `head` on.
#[cycle(walk)]
fn arm_stmt(
    walk: Walk,
    work: &mut [u32],
    loops: Loops,
    depth: usize,
    number: u32,
    before: usize,
    head: u32,
    g: Got,
) -> Got
    ensures { ArmStmtBy walk.entry.text.now work.old walk.entry.types.now walk.entry.scope loops depth number before head g result work.new }
{
    let a = stmt(walk, work, loops, depth, number, g.next, g.top);
    let b = closing(walk.text, a);
    link_arm(work, before, head, g, b)
}

// A last `else` after its head word, and the end of the case; g is the answer for the arms before.
#[cycle(walk)]
fn else_arm(
    walk: Walk,
    work: &mut [u32],
    loops: Loops,
    depth: usize,
    before: usize,
    g: Got,
    at: usize,
) -> Got
    ensures { ElseBy walk.entry.text.now work.old walk.entry.types.now walk.entry.scope loops depth before g at result work.new }
{
    let a = stmt(walk, work, loops, depth, g.kind, at, g.top);
    let b = closing(walk.text, a);
    let c = closing(walk.text, b);
    link_arm(work, before, 0, g, c)
}
