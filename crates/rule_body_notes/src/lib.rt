// A body's line in the bodies' table (`table_bodies`), as the judge of the marking machine writes it.

#![tactic(auto)]

ghost use Rattle.std.specs.Prelude.{◌≡◌};
ghost use Rattle.rule_body_notes.specs.Noting.{offset_in, line_place, noted_start, noted_names, noted_pairs, noted};

use rule_known::Known;
use rule_parameters::framing::Opened;
use table_bodies::LINE_LENGTH;
use table_list::put;
use table_scope::Scope;

// An offset is taken modulo this, which is more than any.
const OFFSETS: usize = 65536;

// And a body's number modulo this.
const BODIES: u32 = 64;

// An offset as a number of the table.
#[tactic(auto, unfolding(crate::specs::Noting::offset_in))]
fn offset_in(text: &[u8], at: usize) -> u32
    ensures { result ≡ offset_in text.now at }
{
    (at.min(text.len()) % OFFSETS) as u32
}

// The place of the next body's line.
fn line_place(kn: Known) -> usize
    ensures { result ≡ line_place kn }
{
    LINE_LENGTH * (kn.state.procs % BODIES) as usize
}

// Writes where the next body's parts begin, the number of the last statement before them, and how many types it sees.
fn note_start(text: &[u8], bodies: &mut [u32], kn: Known, at: usize)
    ensures { bodies.new ≡ noted_start text.now kn at bodies.old }
{
    let st = kn.state;
    let p = line_place(kn);
    put(bodies, p, offset_in(text, at));
    put(bodies, p + 1, kn.stmts);
    put(bodies, p + 2, st.types);
}

// Writes which names it knows.
fn note_names(bodies: &mut [u32], kn: Known, scope: Scope)
    ensures { bodies.new ≡ noted_names kn scope bodies.old }
{
    let p = line_place(kn);
    put(bodies, p + 3, scope.count);
    put(bodies, p + 4, scope.newest);
}

// Writes where the pairs of its parameters begin, and how many variables and parameters are before them.
fn note_pairs(text: &[u8], bodies: &mut [u32], kn: Known, scope: Scope)
    ensures { bodies.new ≡ noted_pairs text.now kn scope bodies.old }
{
    let p = line_place(kn);
    put(bodies, p + 5, offset_in(text, scope.pairs));
    put(bodies, p + 6, scope.vars);
    put(bodies, p + 7, scope.parameters);
}

// Writes the line of the next body, which begins so.
pub fn note_body(text: &[u8], bodies: &mut [u32], kn: Known, o: Opened)
    ensures { bodies.new ≡ noted text.now kn o bodies.old }
{
    note_start(text, bodies, kn, o.at);
    note_names(bodies, kn, o.scope);
    note_pairs(text, bodies, kn, o.scope);
}
