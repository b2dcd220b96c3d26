// The walk over statements and bodies. `types` are those that the body sees and `all` those of the whole script; `calls` bounds how deep calls nest.
// `n` is the number of the last statement before the part at an offset, and past the head word the statement's own.
ghost use Rattle.text_heads.specs.declared.Verb.TheVariants.{If, While, For, Case, Call};
ghost use Rattle.mark_statements.specs.Marks.{MarksStmt, MarksInner, MarksVerb, MarksElse, MarksWhile, MarksRounds, MarksStmts, MarksFront, MarksWithin, MarksBody};

use crate::finding::{callee_named, handler_of, line_of};
use code_calc::words::{CASE_ERROR, GREATEST, RANGE_ERROR, Store};
use mark_acts::acts::{assign, condition, raise, selector};
use mark_acts::arguments::{pass, take_back};
use mark_acts::bounds::bounds;
use mark_acts::ends::{STICKS, halting, sticking};
use mark_arms::{Arm, choose_arm, later};
use mark_cells::cells::{forget, put};
use mark_counts::count_statements;
use mark_expressions::tables::Tables;
use mark_steps::ends::{RAISED, left_in, raising, stepped, stopped};
use mark_steps::turns::{Plan, at_last, next_of, planned};
use rule_stmt_nodes::last::{Next, next_at};
use table_bodies::clip_types;
use table_scope::MOST_TYPES;
use text_heads::{DEPTH, Verb, verb_of};
use text_parts::{Part, end_at, part_at};
use text_skips::skip;

// Where a statement is run: the text and the tables as its body sees them, the types of the whole script, the table of bodies, and how deep calls
// may nest from here.
#[derive(Clone, Copy)]
pub struct Setting<'a> {
    pub tables: Tables<'a>,
    pub all: &'a [u32],
    pub bodies: &'a [u32],
    pub calls: u32,
}

impl Setting<'_> {
    // A statement, at most `depth` deep.
    #[cycle(walk)]
    fn mark_stmt(&self, depth: usize, store: &mut Store, left: u64, n: u32, at: usize) -> u64
        ensures { MarksStmt self.now.tables.text.now self.now.tables.work.now self.now.all.now self.now.tables.types.now self.now.bodies.now self.now.tables.scope self.now.calls depth n at store.old left store.new result }
    {
        if depth == 0 {
            return left;
        }
        match part_at(self.tables.text, at) {
            Part::Leaf(_, _, _) => left,
            Part::Form(p) => self.inner(depth - 1, store, left, n, p),
            Part::Shut(_) => left,
        }
    }

    // All parts of its form: the step, and what comes after it.
    #[cycle(walk)]
    fn inner(&self, depth: usize, store: &mut Store, left: u64, n: u32, at: usize) -> u64
        ensures { MarksInner self.now.tables.text.now self.now.tables.work.now self.now.all.now self.now.tables.types.now self.now.bodies.now self.now.tables.scope self.now.calls depth n at store.old left store.new result }
    {
        match part_at(self.tables.text, at) {
            Part::Leaf(w, _, q) => {
                let t = stepped(left);
                if t > 4294967295 {
                    return t;
                }
                self.headed(depth, store, t, later(n, 1), verb_of(w), q)
            }
            Part::Form(_) => left,
            Part::Shut(_) => left,
        }
    }

    // The parts after the head word, after the step.
    #[cycle(walk)]
    fn headed(
        &self,
        depth: usize,
        store: &mut Store,
        left: u64,
        n: u32,
        verb: Verb,
        at: usize,
    ) -> u64
        ensures { MarksVerb self.now.tables.text.now self.now.tables.work.now self.now.all.now self.now.tables.types.now self.now.bodies.now self.now.tables.scope self.now.calls verb depth n at store.old left store.new result }
    {
        match verb {
            Verb::Assign => assign(&self.tables, store, left, n, at),
            Verb::Begin => self.stmts(depth, store, left, n, at),
            Verb::If => self.if_else(depth, store, left, n, at),
            Verb::While => self.repeat(depth, store, left, n, at, skip(self.tables.text, at)),
            Verb::For => self.count_up(depth, store, left, n, at),
            Verb::Case => self.choose(depth, store, left, n, at),
            Verb::Call => self.call(depth, store, left, n, at),
            Verb::Raise => raise(&self.tables, store, left, n, at),
            Verb::Nothing => left,
        }
    }

    // The statements from an offset to the end of a form.
    #[cycle(walk)]
    fn stmts(&self, depth: usize, store: &mut Store, left: u64, n: u32, at: usize) -> u64
        ensures { MarksStmts self.now.tables.text.now self.now.tables.work.now self.now.all.now self.now.tables.types.now self.now.bodies.now self.now.tables.scope self.now.calls depth n at store.old left store.new result }
    {
        let mut t = left;
        let mut m = n;
        let mut p = at;
        loop {
            match end_at(self.tables.text, p) {
                Some(_) => {
                    return t;
                }
                None => {
                    let o = self.mark_stmt(depth, store, t, m, p);
                    if stopped(o) {
                        return o;
                    }
                    t = o;
                    m = later(m, count_statements(self.tables.text, p));
                    p = skip(self.tables.text, p);
                }
            }
        }
    }

    // `if`.
    #[cycle(walk)]
    fn if_else(&self, depth: usize, store: &mut Store, left: u64, n: u32, at: usize) -> u64
        ensures { MarksVerb self.now.tables.text.now self.now.tables.work.now self.now.all.now self.now.tables.types.now self.now.bodies.now self.now.tables.scope self.now.calls If depth n at store.old left store.new result }
    {
        let x = condition(&self.tables, store, at);
        if x > GREATEST {
            return halting(store, left, x, n);
        }
        let q = skip(self.tables.text, at);
        if x > 0 {
            return self.mark_stmt(depth, store, left, n, q);
        }
        let m = later(n, count_statements(self.tables.text, q));
        self.else_part(depth, store, left, m, skip(self.tables.text, q))
    }

    // The third part of an `if`, which may be missing.
    #[cycle(walk)]
    fn else_part(&self, depth: usize, store: &mut Store, left: u64, n: u32, at: usize) -> u64
        ensures { MarksElse self.now.tables.text.now self.now.tables.work.now self.now.all.now self.now.tables.types.now self.now.bodies.now self.now.tables.scope self.now.calls depth n at store.old left store.new result }
    {
        match end_at(self.tables.text, at) {
            Some(_) => left,
            None => self.mark_stmt(depth, store, left, n, at),
        }
    }

    // The rounds of a `while` whose test stands at c and whose statement at b.
    #[cycle(walk)]
    fn repeat(&self, depth: usize, store: &mut Store, left: u64, n: u32, c: usize, b: usize) -> u64
        ensures { MarksWhile self.now.tables.text.now self.now.tables.work.now self.now.all.now self.now.tables.types.now self.now.bodies.now self.now.tables.scope self.now.calls depth n c b store.old left store.new result }
    {
        let mut t = left;
        loop {
            let x = condition(&self.tables, store, c);
            if x > GREATEST {
                return halting(store, t, x, n);
            }
            if x <= 0 {
                return t;
            }
            let u = stepped(t);
            if u > 4294967295 {
                return u;
            }
            let o = self.mark_stmt(depth, store, u, n, b);
            if o > 4294967295 {
                return o;
            }
            t = o;
        }
    }

    // `for`.
    #[cycle(walk)]
    fn count_up(&self, depth: usize, store: &mut Store, left: u64, n: u32, at: usize) -> u64
        ensures { MarksVerb self.now.tables.text.now self.now.tables.work.now self.now.all.now self.now.tables.types.now self.now.bodies.now self.now.tables.scope self.now.calls For depth n at store.old left store.new result }
    {
        match bounds(&self.tables, store, at) {
            Err(w) => halting(store, left, w, n),
            Ok(s) => match planned(s.low, s.high, s.from, s.to) {
                Plan::Rounds => {
                    let text = self.tables.text;
                    let q = skip(text, skip(text, skip(text, at)));
                    self.rounds(depth, store, left, n, s.cell, s.from, s.to, q)
                }
                Plan::NoRound => {
                    forget(store, s.cell, 1);
                    left
                }
                Plan::Outside => raising(store, left, RANGE_ERROR, n),
            },
        }
    }

    // The rounds of a `for` whose cell is a, from x to y, and its end; its statement stands at b.
    #[cycle(walk)]
    fn rounds(
        &self,
        depth: usize,
        store: &mut Store,
        left: u64,
        n: u32,
        a: u32,
        x: i64,
        y: i64,
        b: usize,
    ) -> u64
        ensures { MarksRounds self.now.tables.text.now self.now.tables.work.now self.now.all.now self.now.tables.types.now self.now.bodies.now self.now.tables.scope self.now.calls depth n a x y b store.old left store.new result }
    {
        let mut z = x;
        let mut t = left;
        loop {
            let u = stepped(t);
            if u > 4294967295 {
                return u;
            }
            put(store, a, z);
            let o = self.mark_stmt(depth, store, u, n, b);
            if o > 4294967295 {
                return o;
            }
            if at_last(z, y) {
                forget(store, a, 1);
                return o;
            }
            z = next_of(z, y);
            t = o;
        }
    }

    // `case`.
    #[cycle(walk)]
    fn choose(&self, depth: usize, store: &mut Store, left: u64, n: u32, at: usize) -> u64
        ensures { MarksVerb self.now.tables.text.now self.now.tables.work.now self.now.all.now self.now.tables.types.now self.now.bodies.now self.now.tables.scope self.now.calls Case depth n at store.old left store.new result }
    {
        let x = selector(&self.tables, store, at);
        let w = x.word;
        if w > GREATEST {
            return halting(store, left, w, n);
        }
        let a = choose_arm(
            self.tables.text,
            self.tables.work,
            self.tables.scope,
            x.kind,
            w,
            n,
            skip(self.tables.text, at),
        );
        match a {
            Arm::Taken(q, m) => self.mark_stmt(depth, store, left, m, q),
            Arm::Absent => raising(store, left, CASE_ERROR, n),
            Arm::Stuck => sticking(left),
        }
    }

    // `call`.
    #[cycle(walk)]
    fn call(&self, depth: usize, store: &mut Store, left: u64, n: u32, at: usize) -> u64
        ensures { MarksVerb self.now.tables.text.now self.now.tables.work.now self.now.all.now self.now.tables.types.now self.now.bodies.now self.now.tables.scope self.now.calls Call depth n at store.old left store.new result }
    {
        if self.calls == 0 {
            return left;
        }
        let c = callee_named(self.tables.text, self.tables.work, self.tables.scope, at);
        let x = c.frame;
        match pass(&self.tables, store, x, c.next) {
            Err(w) => halting(store, left, w, n),
            Ok(()) => {
                let t = &self.tables;
                let calls = self.calls - 1;
                let o = Setting::mark_body(
                    t.text,
                    t.work,
                    self.all,
                    self.bodies,
                    calls,
                    store,
                    left,
                    c.number,
                );
                take_back(store, x, o);
                o
            }
        }
    }

    // The statements of a body before its handler.
    #[cycle(walk)]
    fn front(&self, store: &mut Store, left: u64, n: u32, at: usize) -> u64
        ensures { MarksFront self.now.tables.text.now self.now.tables.work.now self.now.all.now self.now.tables.types.now self.now.bodies.now self.now.tables.scope self.now.calls n at store.old left store.new result }
    {
        let mut t = left;
        let mut m = n;
        let mut p = at;
        loop {
            match next_at(self.tables.text, p) {
                Next::Past(_) => {
                    return t;
                }
                Next::Handler(_) => {
                    return t;
                }
                Next::Stmt => {
                    let o = self.mark_stmt(DEPTH, store, t, m, p);
                    if stopped(o) {
                        return o;
                    }
                    t = o;
                    m = later(m, count_statements(self.tables.text, p));
                    p = skip(self.tables.text, p);
                }
            }
        }
    }

    // A body whose parts begin at an offset: after an exception its handler; stuck and spent are not handled.
    #[cycle(walk)]
    fn body_from(&self, store: &mut Store, left: u64, n: u32, at: usize) -> u64
        ensures { MarksWithin self.now.tables.text.now self.now.tables.work.now self.now.all.now self.now.tables.types.now self.now.bodies.now self.now.tables.scope self.now.calls n at store.old left store.new result }
    {
        let o = self.front(store, left, n, at);
        if o < RAISED {
            return o;
        }
        if o >= STICKS {
            return o;
        }
        match handler_of(self.tables.text, n, at) {
            Some((q, m)) => self.stmts(DEPTH, store, left_in(o), m, q),
            None => o,
        }
    }

    // Body q, with the names and types of its own line. `types` are those of the whole script.
    #[cycle(walk)]
    pub fn mark_body<'x>(
        text: &'x [u8],
        work: &'x [u32],
        types: &'x [u32],
        bodies: &'x [u32],
        calls: u32,
        store: &mut Store,
        left: u64,
        q: u32,
    ) -> u64
        ensures { MarksBody text.now work.now types.now bodies.now calls q store.old left store.new result }
    {
        let e = line_of(bodies, q);
        let mut seen = [0u32; MOST_TYPES];
        clip_types(types, e.kinds, &mut seen);
        let tables = Tables {
            text,
            work,
            types: &seen,
            scope: e.scope,
        };
        let body = Setting {
            tables,
            all: types,
            bodies,
            calls,
        };
        body.body_from(store, left, e.number, e.start)
    }
}
