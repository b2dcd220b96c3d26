// The variables of an assignment and of a `for`: none that a loop around steps.
ghost use Rattle.std.specs.Prelude.{◌≡◌};
ghost use Rattle.rule_restrictions.specs.Control.{free_by, PlainTwo, SkipsTwo, Free, Bounded, StartsBy, Starts};
ghost use Rattle.rule_restrictions.specs.Walks.{KeepsAssign};

use rule_constants::plain_part;
use table_scope::{Loops, Meaning, Scope, loops_over, meaning_of};
use text_parts::{Part, part_at};
use text_skips::skip;

// Whether the two parts at an offset have no constant past the integers.
#[tactic(auto, using(crate::proofs::Controlling::two_laws))]
fn plain_two(text: &[u8], at: usize) -> bool
    ensures { PlainTwo text.now at result }
{
    plain_part(text, at) && plain_part(text, skip(text, at))
}

// Past the two parts at an offset.
#[tactic(auto, using(crate::proofs::Controlling::skip_twice))]
fn skip_two(text: &[u8], at: usize) -> usize
    ensures { SkipsTwo text.now at result }
{
    skip(text, skip(text, at))
}

// Whether a name that means m is no variable that a loop around steps.
fn free_by(loops: Loops, m: Meaning) -> bool
    ensures { result ≡ free_by loops m }
{
    match m {
        Meaning::Var(i, _, _) => !loops_over(loops, i),
        _ => true,
    }
}

// Whether the target at an offset is no variable that a loop around steps; an element or a field may be assigned.
fn free_at(text: &[u8], work: &[u32], scope: Scope, loops: Loops, at: usize) -> bool
    ensures { Free text.now work.now scope loops at result }
{
    match part_at(text, at) {
        Part::Leaf(_, p, _) => free_by(loops, meaning_of(text, work, scope, p)),
        _ => true,
    }
}

// The rules of an assignment, from past the head word on.
#[tactic(auto, using(crate::proofs::Controlling::assign_laws))]
pub fn assign_kept(text: &[u8], work: &[u32], scope: Scope, loops: Loops, at: usize) -> bool
    ensures { KeepsAssign text.now work.now scope loops at result }
{
    plain_two(text, at) && free_at(text, work, scope, loops, at)
}

// A `for` over variable i from its bounds on: the variable and its statement's offset; `None` where a rule is broken.
#[tactic(auto, using(crate::proofs::Controlling::bounds_laws))]
fn bounds_at(text: &[u8], loops: Loops, i: u32, at: usize) -> Option<(u32, usize)>
    ensures { Bounded text.now loops i at result }
{
    if !plain_two(text, at) {
        return None;
    }
    if loops_over(loops, i) {
        return None;
    }
    Some((i, skip_two(text, at)))
}

// The same, where the control variable's name means m.
fn start_by(text: &[u8], loops: Loops, m: Meaning, at: usize) -> Option<(u32, usize)>
    ensures { StartsBy text.now loops m at result }
{
    match m {
        Meaning::Var(i, _, _) => bounds_at(text, loops, i, at),
        _ => None,
    }
}

// A `for` up to its statement, from past the head word on: its control variable and the offset of the statement; `None` where a rule is broken.
pub fn start_at(
    text: &[u8],
    work: &[u32],
    scope: Scope,
    loops: Loops,
    at: usize,
) -> Option<(u32, usize)>
    ensures { Starts text.now work.now scope loops at result }
{
    match part_at(text, at) {
        Part::Leaf(_, p, q) => start_by(text, loops, meaning_of(text, work, scope, p), q),
        _ => None,
    }
}
