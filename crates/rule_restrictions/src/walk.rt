// The rules of statements. A part that is none, or has another form than row 6 allows, may be answered in any way.
ghost use Rattle.text_heads.specs.declared.Verb.TheVariants.{Begin, If, While, For, Case};
ghost use Rattle.rule_restrictions.specs.Walks.{KeepsStmt, KeepsInner, KeepsVerb, KeepsThen, KeepsElse, KeepsStmts, KeepsCases, KeepsArms, KeepsArm};

use crate::arm_parts::{AfterArm, after_labels};
use crate::calls::call_kept;
use crate::control::{assign_kept, start_at};
use rule_constants::plain_part;
use rule_labels::loose::labels_differ;
use rule_statements::arms::{NextArm, arm_at};
use table_scope::{Loops, Scope, with_loop};
use text_heads::{Verb, verb_of};
use text_parts::{Part, end_at, part_at};
use text_skips::skip;

// A statement at most `depth` deep.
#[cycle(walk)]
pub fn stmt(text: &[u8], work: &[u32], scope: Scope, loops: Loops, depth: usize, at: usize) -> bool
    ensures { KeepsStmt text.now work.now scope loops depth at result }
{
    if depth == 0 {
        return true;
    }
    match part_at(text, at) {
        Part::Form(p) => inner(text, work, scope, loops, depth - 1, p),
        _ => true,
    }
}

// All parts of its form, from past the opening bracket.
#[cycle(walk)]
fn inner(text: &[u8], work: &[u32], scope: Scope, loops: Loops, depth: usize, at: usize) -> bool
    ensures { KeepsInner text.now work.now scope loops depth at result }
{
    match part_at(text, at) {
        Part::Leaf(w, _, q) => headed(text, work, scope, loops, verb_of(w), depth, q),
        _ => true,
    }
}

// Its parts after the head word.
// Kept: the kinds are closed and each has its own arm; closures or a table of functions would say the same twice.
#[cycle(walk)]
fn headed(
    text: &[u8],
    work: &[u32],
    scope: Scope,
    loops: Loops,
    verb: Verb,
    depth: usize,
    at: usize,
) -> bool
    ensures { KeepsVerb text.now work.now scope loops verb depth at result }
{
    match verb {
        Verb::Assign => assign_kept(text, work, scope, loops, at),
        Verb::Begin => stmts(text, work, scope, loops, depth, at),
        Verb::If => if_else(text, work, scope, loops, depth, at),
        Verb::While => while_loop(text, work, scope, loops, depth, at),
        Verb::For => for_loop(text, work, scope, loops, depth, at),
        Verb::Case => case_of(text, work, scope, loops, depth, at),
        Verb::Call => call_kept(text, work, scope, at),
        Verb::Raise => plain_part(text, at),
        Verb::Nothing => true,
    }
}

// A `while`.
#[cycle(walk)]
fn while_loop(
    text: &[u8],
    work: &[u32],
    scope: Scope,
    loops: Loops,
    depth: usize,
    at: usize,
) -> bool
    ensures { KeepsVerb text.now work.now scope loops While depth at result }
{
    plain_part(text, at) && stmt(text, work, scope, loops, depth, skip(text, at))
}

// An `if`.
#[cycle(walk)]
fn if_else(text: &[u8], work: &[u32], scope: Scope, loops: Loops, depth: usize, at: usize) -> bool
    ensures { KeepsVerb text.now work.now scope loops If depth at result }
{
    plain_part(text, at) && if_then(text, work, scope, loops, depth, skip(text, at))
}

// The parts of an `if` after its test.
#[cycle(walk)]
fn if_then(text: &[u8], work: &[u32], scope: Scope, loops: Loops, depth: usize, at: usize) -> bool
    ensures { KeepsThen text.now work.now scope loops depth at result }
{
    stmt(text, work, scope, loops, depth, at)
        && else_part(text, work, scope, loops, depth, skip(text, at))
}

// The third part of an `if`, which may be missing.
#[cycle(walk)]
fn else_part(text: &[u8], work: &[u32], scope: Scope, loops: Loops, depth: usize, at: usize) -> bool
    ensures { KeepsElse text.now work.now scope loops depth at result }
{
    let e = end_at(text, at);
    match e {
        Some(_) => true,
        None => stmt(text, work, scope, loops, depth, at),
    }
}

// A `for`.
#[cycle(walk)]
fn for_loop(text: &[u8], work: &[u32], scope: Scope, loops: Loops, depth: usize, at: usize) -> bool
    ensures { KeepsVerb text.now work.now scope loops For depth at result }
{
    let Some((i, q)) = start_at(text, work, scope, loops, at) else {
        return false;
    };
    stmt(text, work, scope, with_loop(loops, i), depth, q)
}

// Statements up to the closing bracket, as those of a `begin`.
#[cycle(walk)]
pub fn stmts(text: &[u8], work: &[u32], scope: Scope, loops: Loops, depth: usize, at: usize) -> bool
    ensures { KeepsStmts text.now work.now scope loops depth at result }
{
    let mut p = at;
    loop {
        let e = end_at(text, p);
        match e {
            Some(_) => {
                return true;
            }
            None => {
                if stmt(text, work, scope, loops, depth, p) {
                    p = skip(text, p);
                } else {
                    return false;
                }
            }
        }
    }
}

// A `case`.
#[cycle(walk)]
fn case_of(text: &[u8], work: &[u32], scope: Scope, loops: Loops, depth: usize, at: usize) -> bool
    ensures { KeepsVerb text.now work.now scope loops Case depth at result }
{
    plain_part(text, at) && case_arms(text, work, scope, loops, depth, skip(text, at))
}

// The arms of a case, whose labels differ.
#[cycle(walk)]
fn case_arms(text: &[u8], work: &[u32], scope: Scope, loops: Loops, depth: usize, at: usize) -> bool
    ensures { KeepsCases text.now work.now scope loops depth at result }
{
    all_arms(text, work, scope, loops, depth, at) && labels_differ(text, work, scope, at)
}

// Each arm by itself, up to the closing bracket.
#[cycle(walk)]
fn all_arms(text: &[u8], work: &[u32], scope: Scope, loops: Loops, depth: usize, at: usize) -> bool
    ensures { KeepsArms text.now work.now scope loops depth at result }
{
    let mut p = at;
    loop {
        let e = arm_at(text, p);
        match e {
            NextArm::Past(_) => {
                return true;
            }
            NextArm::Else(q) => {
                return stmt(text, work, scope, loops, depth, q);
            }
            NextArm::Nothing => {
                return true;
            }
            NextArm::Arm(q) => {
                if arm(text, work, scope, loops, depth, q) {
                    p = skip(text, p);
                } else {
                    return false;
                }
            }
        }
    }
}

// An arm after its head word.
#[cycle(walk)]
fn arm(text: &[u8], work: &[u32], scope: Scope, loops: Loops, depth: usize, at: usize) -> bool
    ensures { KeepsArm text.now work.now scope loops depth at result }
{
    let x = after_labels(text, at);
    match x {
        AfterArm::Stmt(p) => stmt(text, work, scope, loops, depth, p),
        AfterArm::Broken => false,
        AfterArm::Nothing => true,
    }
}
