// What a walk over statements looks up: a body's line in the table, the procedure that a call names, a body's handler.
ghost use Rattle.std.specs.Prelude.{◌≡◌};
ghost use Rattle.mark_statements.specs.Finding.{line_of, proc_in, callee_at, Calls, Handles};

use mark_arms::later;
use mark_counts::count_statements;
use rule_stmt_nodes::last::{Next, next_at};
use table_bodies::LINE_LENGTH;
use table_list::at;
use table_scope::frames::{Frame, frame_of};
use table_scope::{Meaning, Scope, meaning_of};
use text_parts::{Part, part_at};
use text_skips::skip;

// A body's line in the table: where it begins, the names that it sees, the number of the last statement before it, and how many types it sees.
#[derive(Clone, Copy)]
pub struct Line {
    pub start: usize,
    pub scope: Scope,
    pub number: u32,
    pub kinds: u32,
}

// The procedure that a call names: its number and its frame; and where the call's arguments begin.
#[derive(Clone, Copy)]
pub struct Callee {
    pub number: u32,
    pub frame: Frame,
    pub next: usize,
}

// The line of body q.
pub fn line_of(bodies: &[u32], q: u32) -> Line
    ensures { result ≡ line_of bodies.now q }
{
    let p = LINE_LENGTH * (q as usize);
    let scope = Scope {
        count: at(bodies, p + 3),
        newest: at(bodies, p + 4),
        pairs: at(bodies, p + 5) as usize,
        vars: at(bodies, p + 6),
        parameters: at(bodies, p + 7),
    };
    Line {
        start: at(bodies, p) as usize,
        scope,
        number: at(bodies, p + 1),
        kinds: at(bodies, p + 2),
    }
}

// The place of a procedure's node by its name's meaning, 0 of any other.
fn proc_in(m: Meaning) -> u32
    ensures { result ≡ proc_in m }
{
    match m {
        Meaning::Proc(p) => p,
        _ => 0,
    }
}

// The procedure whose node stands at a place.
fn callee_at(work: &[u32], place: u32, next: usize) -> Callee
    ensures { result ≡ callee_at work.now place next }
{
    Callee {
        number: at(work, place as usize),
        frame: frame_of(work, place),
        next,
    }
}

// The procedure that the name at an offset means, and where the part after it stands.
pub fn callee_named(text: &[u8], work: &[u32], scope: Scope, at: usize) -> Callee
    ensures { Calls text.now work.now scope at result }
{
    match part_at(text, at) {
        Part::Leaf(_, p, q) => callee_at(work, proc_in(meaning_of(text, work, scope, p)), q),
        Part::Form(q) => callee_at(work, 0, q),
        Part::Shut(q) => callee_at(work, 0, q),
    }
}

// The handler of the body whose parts begin at an offset: the offset of its statements and the number of the last statement before them; n is the
// number of the last one before the body's parts.
pub fn handler_of(text: &[u8], n: u32, at: usize) -> Option<(usize, u32)>
    ensures { Handles text.now n at result }
{
    let mut p = at;
    let mut m = n;
    loop {
        match next_at(text, p) {
            Next::Past(_) => {
                return None;
            }
            Next::Handler(q) => {
                return Some((q, m));
            }
            Next::Stmt => {
                m = later(m, count_statements(text, p));
                p = skip(text, p);
            }
        }
    }
}
