// The walk over expressions and targets: a part at an offset, at most `depth` deep, laid from the free place `top` on.
// Kept (6): nodes and entries are numbers at the free place of the lent working list: fixed memory and no heap, as document 01 has it.
ghost use Rattle.text_heads.specs.declared.ExprHead.TheVariants.{At, Dot, Members, Minus, Bound, One};
ghost use Rattle.rule_expressions.specs.Walks.{GivesExpr, GivesTarget, GivesForm, GivesPlace, GivesInner, GivesInnerPlace};
ghost use Rattle.rule_expressions.specs.Members.{GivesMembers};
ghost use Rattle.rule_expressions.specs.MinusForm.{GivesMinus};
ghost use Rattle.rule_expressions.specs.Sides.{GivesSecond, GivesTwo};

use rule_atoms::type_name;
use rule_expr_compounds::operators::{apply, pair};
use rule_expr_compounds::targets::{index, load, select};
use rule_expr_leaves::fields::sole_name;
use rule_expr_leaves::links::{base_of, set_of};
use rule_expr_leaves::words::{negative, number_alone};
use rule_expr_nodes::bracket::closing;
use rule_expr_nodes::links::link_to;
use rule_expr_nodes::members::member_fault;
use rule_faults::{Fault, Got, failed, is_form, lowest};
use table_kinds::short_row;
use table_list::slot;
use table_scope::Scope;
use text_heads::{ExprHead, expr_head};
use text_parts::{Part, end_at, part_at};

// What a walk reads and keeps: the text, the types' table and the names in scope.
#[derive(Clone, Copy)]
pub struct Walk<'a> {
    pub text: &'a [u8],
    pub types: &'a [u32],
    pub scope: Scope,
}

impl<'a> Walk<'a> {
    // An expression.
    #[cycle(walk)]
    pub fn expr(self, work: &mut [u32], depth: usize, at: usize, top: u32) -> Got
        ensures { GivesExpr self.entry.text.now work.old self.entry.types.now self.entry.scope depth at top result work.new }
    {
        if depth == 0 {
            return failed(Fault::Form, 0, at, top);
        }
        match part_at(self.text, at) {
            Part::Leaf(w, p, q) => self.word(work, w, p, q, top),
            Part::Form(p) => self.inner(work, depth - 1, p, top),
            Part::Shut(q) => failed(Fault::Form, 0, q, top),
        }
    }

    // All parts of a form that is an expression.
    #[cycle(walk)]
    fn inner(self, work: &mut [u32], depth: usize, at: usize, top: u32) -> Got
        ensures { GivesInner self.entry.text.now work.old self.entry.types.now self.entry.scope depth at top result work.new }
    {
        match part_at(self.text, at) {
            Part::Leaf(w, _, q) => self.headed(work, expr_head(w), depth, q, top),
            Part::Form(p) => failed(Fault::Form, 0, p, top),
            Part::Shut(q) => failed(Fault::Form, 0, q, top),
        }
    }

    // The parts after the head word.
    #[cycle(walk)]
    fn headed(self, work: &mut [u32], head: ExprHead, depth: usize, at: usize, top: u32) -> Got
        ensures { GivesForm self.entry.text.now work.old self.entry.types.now self.entry.scope head depth at top result work.new }
    {
        match head {
            ExprHead::At => self.load_at(work, depth, at, top),
            ExprHead::Dot => self.load_dot(work, depth, at, top),
            ExprHead::Members => self.set_form(work, depth, at, top),
            ExprHead::Minus => self.minus(work, depth, at, top),
            ExprHead::Bound(last) => self.bound(work, last, depth, at, top),
            ExprHead::Short(every) => self.two(work, short_row(every), depth, at, top),
            ExprHead::Two(op) if op < 15 => self.two(work, op, depth, at, top),
            ExprHead::One(f) => self.one(work, f, depth, at, top),
            ExprHead::Two(_) => failed(Fault::Form, 0, at, top),
            ExprHead::Nothing => failed(Fault::Form, 0, at, top),
        }
    }

    // Two sides of the operator that has row `op` in the table of kinds.
    // Kept: `if is_form(..) { return .. }` is no `?` here and below, which is no plainer: faults of rows 7 and 8 go on, and what ends a walk
    // is a `Got` like any other, so a Result would be made and undone around each answer.
    #[cycle(walk)]
    fn two(self, work: &mut [u32], op: usize, depth: usize, at: usize, top: u32) -> Got
        ensures { GivesTwo self.entry.text.now work.old self.entry.types.now self.entry.scope op depth at top result work.new }
    {
        let a = self.expr(work, depth, at, top);
        if is_form(a.fault) {
            return a;
        }
        self.second(work, op, depth, a)
    }

    // The second of two sides, and the node.
    #[cycle(walk)]
    fn second(self, work: &mut [u32], op: usize, depth: usize, a: Got) -> Got
        ensures { GivesSecond self.entry.text.now work.old self.entry.types.now self.entry.scope op depth a result work.new }
    {
        let b = self.expr(work, depth, a.next, a.top);
        pair(work, self.types, op, a, closing(self.text, b))
    }

    // One side.
    #[cycle(walk)]
    fn one(self, work: &mut [u32], f: usize, depth: usize, at: usize, top: u32) -> Got
        ensures { GivesForm self.entry.text.now work.old self.entry.types.now self.entry.scope (One f) depth at top result work.new }
    {
        if f >= 11 {
            return failed(Fault::Form, 0, at, top);
        }
        let a = self.expr(work, depth, at, top);
        apply(work, self.types, f, closing(self.text, a))
    }

    // A negative number, one side, or two.
    #[cycle(walk)]
    fn minus(self, work: &mut [u32], depth: usize, at: usize, top: u32) -> Got
        ensures { GivesForm self.entry.text.now work.old self.entry.types.now self.entry.scope Minus depth at top result work.new }
    {
        match number_alone(self.text, at) {
            Some((z, q)) => negative(work, z, q, top),
            None => self.minus_parts(work, depth, at, top),
        }
    }

    // One side, or two, where there is no number alone.
    #[cycle(walk)]
    fn minus_parts(self, work: &mut [u32], depth: usize, at: usize, top: u32) -> Got
        ensures { GivesMinus self.entry.text.now work.old self.entry.types.now self.entry.scope depth at top result work.new }
    {
        let a = self.expr(work, depth, at, top);
        if is_form(a.fault) {
            return a;
        }
        let e = end_at(self.text, a.next);
        match e {
            Some(_) => apply(work, self.types, 0, closing(self.text, a)),
            None => self.second(work, 1, depth, a),
        }
    }

    // A set's type and its members.
    #[cycle(walk)]
    fn set_form(self, work: &mut [u32], depth: usize, at: usize, top: u32) -> Got
        ensures { GivesForm self.entry.text.now work.old self.entry.types.now self.entry.scope Members depth at top result work.new }
    {
        let t = type_name(self.text, work, self.scope, at);
        if is_form(t.fault) {
            return failed(Fault::Form, 0, t.next, top);
        }
        let base = base_of(work, self.types, t.kind);
        let first = slot(work, top);
        let m = self.member_list(work, base, depth, t.next, top, first);
        set_of(work, self.types, t.fault, t.kind, top, m)
    }

    // The members up to the closing bracket, in a chain from a slot on.
    #[cycle(walk)]
    fn member_list(
        self,
        work: &mut [u32],
        base: u32,
        depth: usize,
        at: usize,
        chain: u32,
        top: u32,
    ) -> Got
        ensures { GivesMembers self.entry.text.now work.old self.entry.types.now self.entry.scope base depth at chain top result work.new }
    {
        let mut next = at;
        let mut link = chain as usize;
        let mut free = top;
        let mut fault = Fault::Clear;
        loop {
            let e = end_at(self.text, next);
            match e {
                Some(q) => {
                    return failed(fault, 0, q, free);
                }
                None => {}
            }
            let x = self.expr(work, depth, next, free);
            if is_form(x.fault) {
                return x;
            }
            fault = lowest(fault, member_fault(x.fault, x.kind, base));
            free = link_to(work, link, x.place, x.top);
            link = x.top as usize + 1;
            next = x.next;
        }
    }

    // The cells of an element.
    #[cycle(walk)]
    fn load_at(self, work: &mut [u32], depth: usize, at: usize, top: u32) -> Got
        ensures { GivesForm self.entry.text.now work.old self.entry.types.now self.entry.scope At depth at top result work.new }
    {
        let g = self.element(work, depth, at, top);
        load(work, self.types, g)
    }

    // The cells of a field.
    #[cycle(walk)]
    fn load_dot(self, work: &mut [u32], depth: usize, at: usize, top: u32) -> Got
        ensures { GivesForm self.entry.text.now work.old self.entry.types.now self.entry.scope Dot depth at top result work.new }
    {
        let g = self.field(work, depth, at, top);
        load(work, self.types, g)
    }

    // A target.
    // Kept: expressions and targets call each other, as document 01 says, each with its own contract; one function for both is no plainer.
    #[cycle(walk)]
    pub fn target(self, work: &mut [u32], depth: usize, at: usize, top: u32) -> Got
        ensures { GivesTarget self.entry.text.now work.old self.entry.types.now self.entry.scope depth at top result work.new }
    {
        if depth == 0 {
            return failed(Fault::Form, 0, at, top);
        }
        match part_at(self.text, at) {
            Part::Leaf(w, p, q) => self.variable(work, w, p, q, top),
            Part::Form(p) => self.place(work, depth - 1, p, top),
            Part::Shut(q) => failed(Fault::Form, 0, q, top),
        }
    }

    // All parts of a form that is a target.
    // Kept: expressions and targets call each other, as document 01 says, each with its own contract; one function for both is no plainer.
    #[cycle(walk)]
    fn place(self, work: &mut [u32], depth: usize, at: usize, top: u32) -> Got
        ensures { GivesInnerPlace self.entry.text.now work.old self.entry.types.now self.entry.scope depth at top result work.new }
    {
        match part_at(self.text, at) {
            Part::Leaf(w, _, q) => self.place_headed(work, expr_head(w), depth, q, top),
            Part::Form(p) => failed(Fault::Form, 0, p, top),
            Part::Shut(q) => failed(Fault::Form, 0, q, top),
        }
    }

    // The parts after the head word.
    #[cycle(walk)]
    fn place_headed(
        self,
        work: &mut [u32],
        head: ExprHead,
        depth: usize,
        at: usize,
        top: u32,
    ) -> Got
        ensures { GivesPlace self.entry.text.now work.old self.entry.types.now self.entry.scope head depth at top result work.new }
    {
        match head {
            ExprHead::At => self.element(work, depth, at, top),
            ExprHead::Dot => self.field(work, depth, at, top),
            _ => failed(Fault::Form, 0, at, top),
        }
    }

    // An element of an array.
    #[cycle(walk)]
    fn element(self, work: &mut [u32], depth: usize, at: usize, top: u32) -> Got
        ensures { GivesPlace self.entry.text.now work.old self.entry.types.now self.entry.scope At depth at top result work.new }
    {
        let g = self.target(work, depth, at, top);
        if is_form(g.fault) {
            return g;
        }
        let e = self.expr(work, depth, g.next, g.top);
        index(work, self.types, g, closing(self.text, e))
    }

    // A field of a record.
    #[cycle(walk)]
    fn field(self, work: &mut [u32], depth: usize, at: usize, top: u32) -> Got
        ensures { GivesPlace self.entry.text.now work.old self.entry.types.now self.entry.scope Dot depth at top result work.new }
    {
        let g = self.target(work, depth, at, top);
        if is_form(g.fault) {
            return g;
        }
        match sole_name(self.text, g.next) {
            Some((p, q)) => select(self.text, work, self.types, g, p, q),
            None => failed(Fault::Form, 0, g.next, g.top),
        }
    }
}
