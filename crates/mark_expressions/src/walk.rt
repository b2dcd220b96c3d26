// The walk over expressions and targets at an offset of the text. Kinds are met where Marking says; nothing that is worked out has an effect, so a
// right side may be worked out although the left one raised.
ghost use Rattle.text_heads.specs.declared.ExprHead.TheVariants.{At, Dot, Members, Minus, Short, Two, One};
ghost use Rattle.mark_expressions.specs.Marks.{MarksExpr, MarksTarget, MarksInner, MarksInnerPlace, MarksForm, MarksPlace, MarksMinus, MarksMembers};

use crate::tables::Tables;
use code_calc::words::{GREATEST, Store};
use mark_operators::{apply, operate, short};
use mark_values::constants::negative;
use mark_values::members::is_set;
use mark_values::places::{Reached, place};
use mark_values::values::{Carried, STUCK, value};
use rule_atoms::type_name;
use rule_expr_leaves::fields::sole_name;
use rule_expr_leaves::words::number_alone;
use text_heads::{ExprHead, expr_head};
use text_parts::{Part, end_at, part_at};
use text_skips::skip;

impl Tables<'_> {
    // An expression, at most `depth` deep.
    #[cycle(walk)]
    pub fn mark_expr(&self, store: &Store, depth: usize, at: usize) -> Carried
        ensures { MarksExpr self.now.text.now self.now.work.now self.now.types.now store.now self.now.scope depth at result }
    {
        if depth == 0 {
            return value(0, STUCK);
        }
        match part_at(self.text, at) {
            Part::Leaf(w, p, _) => self.word(store, w, p),
            Part::Form(p) => self.inner(store, depth - 1, p),
            Part::Shut(_) => value(0, STUCK),
        }
    }

    // All parts of a form that is an expression.
    #[cycle(walk)]
    fn inner(&self, store: &Store, depth: usize, at: usize) -> Carried
        ensures { MarksInner self.now.text.now self.now.work.now self.now.types.now store.now self.now.scope depth at result }
    {
        match part_at(self.text, at) {
            Part::Leaf(w, _, q) => self.headed(store, expr_head(w), depth, q),
            _ => value(0, STUCK),
        }
    }

    // The parts after the head word.
    #[cycle(walk)]
    fn headed(&self, store: &Store, head: ExprHead, depth: usize, at: usize) -> Carried
        ensures { MarksForm self.now.text.now self.now.work.now self.now.types.now store.now self.now.scope head depth at result }
    {
        match head {
            ExprHead::At => self.load_at(store, depth, at),
            ExprHead::Dot => self.load_dot(store, depth, at),
            ExprHead::Members => self.set_form(store, depth, at),
            ExprHead::Minus => self.minus(store, depth, at),
            ExprHead::Bound(last) => self.bound(store, last, depth, at),
            ExprHead::Short(every) => self.short_form(store, every, depth, at),
            ExprHead::Two(op) => self.two(store, op, depth, at),
            ExprHead::One(f) => self.one(store, f, depth, at),
            ExprHead::Nothing => value(0, STUCK),
        }
    }

    // Two sides.
    #[cycle(walk)]
    fn two(&self, store: &Store, op: usize, depth: usize, at: usize) -> Carried
        ensures { MarksForm self.now.text.now self.now.work.now self.now.types.now store.now self.now.scope (Two op) depth at result }
    {
        let a = self.mark_expr(store, depth, at);
        let b = self.mark_expr(store, depth, skip(self.text, at));
        operate(self.work, self.types, op, a, b)
    }

    // Two sides, the second of which may be left alone.
    #[cycle(walk)]
    fn short_form(&self, store: &Store, every: bool, depth: usize, at: usize) -> Carried
        ensures { MarksForm self.now.text.now self.now.work.now self.now.types.now store.now self.now.scope (Short every) depth at result }
    {
        let a = self.mark_expr(store, depth, at);
        let b = self.mark_expr(store, depth, skip(self.text, at));
        short(every, a, b)
    }

    // One side.
    #[cycle(walk)]
    fn one(&self, store: &Store, f: usize, depth: usize, at: usize) -> Carried
        ensures { MarksForm self.now.text.now self.now.work.now self.now.types.now store.now self.now.scope (One f) depth at result }
    {
        let a = self.mark_expr(store, depth, at);
        apply(self.work, self.types, f, a)
    }

    // A negative number, one side, or two.
    #[cycle(walk)]
    fn minus(&self, store: &Store, depth: usize, at: usize) -> Carried
        ensures { MarksForm self.now.text.now self.now.work.now self.now.types.now store.now self.now.scope Minus depth at result }
    {
        match number_alone(self.text, at) {
            Some((z, _)) => negative(self.work, self.types, z),
            None => self.minus_parts(store, depth, at),
        }
    }

    // One side, or two, where there is no number alone.
    #[cycle(walk)]
    fn minus_parts(&self, store: &Store, depth: usize, at: usize) -> Carried
        ensures { MarksMinus self.now.text.now self.now.work.now self.now.types.now store.now self.now.scope depth at result }
    {
        let a = self.mark_expr(store, depth, at);
        let q = skip(self.text, at);
        let e = end_at(self.text, q);
        match e {
            Some(_) => apply(self.work, self.types, 0, a),
            None => operate(self.work, self.types, 1, a, self.mark_expr(store, depth, q)),
        }
    }

    // A set's type, which is met first, and its members.
    #[cycle(walk)]
    fn set_form(&self, store: &Store, depth: usize, at: usize) -> Carried
        ensures { MarksForm self.now.text.now self.now.work.now self.now.types.now store.now self.now.scope Members depth at result }
    {
        let t = type_name(self.text, self.work, self.scope, at);
        if is_set(self.work, self.types, t.kind) {
            let w = self.member_list(store, t.kind, depth, skip(self.text, at));
            value(t.kind, w)
        } else {
            value(0, STUCK)
        }
    }

    // The set of the members up to the closing bracket: each is tested before the next is worked out.
    #[cycle(walk)]
    fn member_list(&self, store: &Store, t: u32, depth: usize, at: usize) -> i64
        ensures { MarksMembers self.now.text.now self.now.work.now self.now.types.now store.now self.now.scope t depth at result }
    {
        let mut next = at;
        let mut set = 0;
        loop {
            let e = end_at(self.text, next);
            match e {
                Some(_) => {
                    return leaf_sets::value(set);
                }
                None => {}
            }
            let x = self.mark_expr(store, depth, next);
            let z = x.member(self.work, self.types, t);
            if z > GREATEST {
                return z;
            }
            set = leaf_sets::insert(set, z);
            next = skip(self.text, next);
        }
    }

    // The cells of an element.
    #[cycle(walk)]
    fn load_at(&self, store: &Store, depth: usize, at: usize) -> Carried
        ensures { MarksForm self.now.text.now self.now.work.now self.now.types.now store.now self.now.scope At depth at result }
    {
        let g = self.element(store, depth, at);
        g.load(self.work, self.types, store)
    }

    // The cells of a field.
    #[cycle(walk)]
    fn load_dot(&self, store: &Store, depth: usize, at: usize) -> Carried
        ensures { MarksForm self.now.text.now self.now.work.now self.now.types.now store.now self.now.scope Dot depth at result }
    {
        let g = self.field(store, depth, at);
        g.load(self.work, self.types, store)
    }

    // A target, at most `depth` deep.
    #[cycle(walk)]
    pub fn mark_target(&self, store: &Store, depth: usize, at: usize) -> Reached
        ensures { MarksTarget self.now.text.now self.now.work.now self.now.types.now store.now self.now.scope depth at result }
    {
        if depth == 0 {
            return place(0, STUCK);
        }
        match part_at(self.text, at) {
            Part::Leaf(w, p, _) => self.variable(w, p),
            Part::Form(p) => self.inner_place(store, depth - 1, p),
            Part::Shut(_) => place(0, STUCK),
        }
    }

    // All parts of a form that is a target.
    // Kept: expressions and targets call each other, as document 01 says, each with its own contract; one function for both is no plainer.
    #[cycle(walk)]
    fn inner_place(&self, store: &Store, depth: usize, at: usize) -> Reached
        ensures { MarksInnerPlace self.now.text.now self.now.work.now self.now.types.now store.now self.now.scope depth at result }
    {
        match part_at(self.text, at) {
            Part::Leaf(w, _, q) => self.place_headed(store, expr_head(w), depth, q),
            _ => place(0, STUCK),
        }
    }

    // The parts after the head word.
    #[cycle(walk)]
    fn place_headed(&self, store: &Store, head: ExprHead, depth: usize, at: usize) -> Reached
        ensures { MarksPlace self.now.text.now self.now.work.now self.now.types.now store.now self.now.scope head depth at result }
    {
        match head {
            ExprHead::At => self.element(store, depth, at),
            ExprHead::Dot => self.field(store, depth, at),
            _ => place(0, STUCK),
        }
    }

    // An element of an array: target and index are worked out before they are met.
    #[cycle(walk)]
    fn element(&self, store: &Store, depth: usize, at: usize) -> Reached
        ensures { MarksPlace self.now.text.now self.now.work.now self.now.types.now store.now self.now.scope At depth at result }
    {
        let g = self.mark_target(store, depth, at);
        let x = self.mark_expr(store, depth, skip(self.text, at));
        g.index(self.work, self.types, x)
    }

    // A field of a record.
    #[cycle(walk)]
    fn field(&self, store: &Store, depth: usize, at: usize) -> Reached
        ensures { MarksPlace self.now.text.now self.now.work.now self.now.types.now store.now self.now.scope Dot depth at result }
    {
        let g = self.mark_target(store, depth, at);
        match sole_name(self.text, skip(self.text, at)) {
            Some((p, _)) => g.select(self.text, self.work, self.types, p),
            None => place(0, STUCK),
        }
    }
}
