// How the body of a procedure begins: the frame of its parameters is laid, and it has a scope of its own.
// Kept (6): nodes and entries are numbers at the free place of the lent working list: fixed memory and no heap, as document 01 has it.
ghost use Rattle.std.specs.Prelude.{◌≡◌};
ghost use Rattle.code.specs.Layout.{lay as laid};
ghost use Rattle.table_list.specs.Laid.{Laid};
ghost use Rattle.table_scope.specs.Scene.{with_pairs};
ghost use Rattle.rule_parameters.specs.Framing.{lets_in, scope_after, want_by, LaysTypes, LaysWants, base_of, LaysFrame, parameters_fit, proc_fits, FramesList, nothing_framed, proc_state, Opens, opened_main};

use crate::listing::Listed;
use rule_declarations::{MOST_PROCS, State};
use rule_faults::{Fault, is_clear};
use rule_pairs::pair_at;
use table_list::lay;
use table_scope::frames::MOST_PARAMETERS;
use table_scope::{Info, LENT_CELLS, Scope, describe};

// A body before its first statement: what is known in it, the place of its frame (0: it has none), where its parts begin, and the free place.
#[derive(Clone, Copy)]
pub struct Opened {
    pub scope: Scope,
    pub frame: u32,
    pub at: usize,
    pub top: u32,
}

// A frame's place, and the free place after it.
#[derive(Clone, Copy)]
pub struct Framed {
    pub place: u32,
    pub top: u32,
}

// Whether the names in a list are known to be new: then they are known in the body. Where they are not, the line is refused by row 6 or 7 whatever
// they mean.
fn lets_in(f: Fault) -> bool
    ensures { result ≡ lets_in f }
{
    matches!(f, Fault::Clear | Fault::Kind)
}

// What is known in the body after a list with no fault of rows 6 and 7.
fn scope_with(st: State, pairs: usize) -> Scope
    ensures { result ≡ with_pairs st.scope pairs st.vars st.parameters }
{
    Scope {
        count: st.scope.count,
        newest: st.scope.newest,
        pairs,
        vars: st.vars,
        parameters: st.parameters,
    }
}

// What is known in the body after a list.
fn scope_after(st: State, c: Listed) -> Scope
    ensures { result ≡ scope_after st c }
{
    let f = c.fault;
    if c.pairs == 0 {
        return st.scope;
    }
    if lets_in(f) {
        return scope_with(st, c.pairs);
    }
    st.scope
}

// Lays the types of the n parameters whose pairs begin at an offset; the free place then. There are at most 8.
fn lay_types(text: &[u8], work: &mut [u32], scope: Scope, n: u32, at: usize, top: u32) -> u32
    ensures { LaysTypes text.now work.old scope n at top result work.new }
{
    if n == 0 {
        return top;
    }
    let x = pair_at(text, work, scope, at);
    let t = lay(work, top, &[x.kind]);
    lay_types(text, work, scope, n - 1, x.next, t)
}

// Lays what a parameter takes whose type x describes: an ordinal's bounds, or of a set what no bounds are.
fn lay_want(work: &mut [u32], x: Info, top: u32) -> u32
    ensures { Laid (laid (want_by x) top work.old) result work.new }
{
    if x.shape == 0 {
        lay(work, top, &[x.low, x.high])
    } else {
        lay(work, top, &[1, 0])
    }
}

// Lays what the n parameters take whose pairs begin at an offset; the free place then.
fn lay_wants(
    text: &[u8],
    work: &mut [u32],
    types: &[u32],
    scope: Scope,
    n: u32,
    at: usize,
    top: u32,
) -> u32
    ensures { LaysWants text.now work.old types.now scope n at top result work.new }
{
    if n == 0 {
        return top;
    }
    let x = pair_at(text, work, scope, at);
    let d = describe(work, types, x.kind);
    let t = lay_want(work, d, top);
    lay_wants(text, work, types, scope, n - 1, x.next, t)
}

// The first cell of the next procedure's parameters.
fn base_of(st: State) -> u32
    ensures { result ≡ base_of st }
{
    LENT_CELLS + st.parameters % LENT_CELLS
}

// Lays the frame of n parameters whose pairs begin at an offset, their types before it.
fn lay_frame(text: &[u8], work: &mut [u32], types: &[u32], st: State, n: u32, at: usize) -> Framed
    ensures { LaysFrame text.now work.old types.now st n at result work.new }
{
    let place = lay_types(text, work, st.scope, n, at, st.top);
    let t = lay(work, place, &[base_of(st), n]);
    let top = lay_wants(text, work, types, st.scope, n, at, t);
    Framed { place, top }
}

// No frame.
fn no_frame(st: State) -> Framed
    ensures { result ≡ nothing_framed st }
{
    Framed {
        place: 0,
        top: st.top,
    }
}

// The frame after a list, where its parameters are within their ceilings.
fn frame_after(text: &[u8], work: &mut [u32], types: &[u32], st: State, c: Listed) -> Framed
    ensures { FramesList text.now work.old types.now st c result work.new }
{
    let f = c.fault;
    if c.count == 0 {
        return no_frame(st);
    }
    if is_clear(f) {
        if parameters_fit(st, c.count) {
            return lay_frame(text, work, types, st, c.count, c.pairs);
        }
        return no_frame(st);
    }
    no_frame(st)
}

// Whether n parameters more are within the ceilings of row 9.
#[tactic(auto, using(crate::proofs::Frames::fit_laws))]
fn parameters_fit(st: State, n: u32) -> bool
    ensures { result ≡ parameters_fit st n }
{
    n <= MOST_PARAMETERS && st.vars_fit(n, n)
}

// Whether a procedure of n parameters is within the ceilings of row 9.
#[tactic(auto, using(crate::proofs::Frames::proc_fit_laws))]
pub fn proc_fits(st: State, n: u32) -> bool
    ensures { result ≡ proc_fits st n }
{
    st.procs < MOST_PROCS && parameters_fit(st, n)
}

// What is held after a procedure of n parameters: its entry stands at a place, the free place then is u.
pub fn proc_state(st: State, n: u32, entry: u32, u: u32) -> State
    ensures { result ≡ proc_state st n entry u }
{
    st.with_names(1, entry, u).with_body(u).with_parameters(n)
}

// The body after a list of parameters.
pub fn open_body(text: &[u8], work: &mut [u32], types: &[u32], st: State, c: Listed) -> Opened
    ensures { Opens text.now work.old types.now st c result work.new }
{
    let framed = frame_after(text, work, types, st, c);
    Opened {
        scope: scope_after(st, c),
        frame: framed.place,
        at: c.next,
        top: framed.top,
    }
}

// The body of `main`, whose parts begin at an offset.
pub fn open_main(st: State, at: usize) -> Opened
    ensures { result ≡ opened_main st at }
{
    Opened {
        scope: st.scope,
        frame: 0,
        at,
        top: st.top,
    }
}
