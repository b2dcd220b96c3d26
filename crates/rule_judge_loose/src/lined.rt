// A line at an offset: rows 4 to 9, the kinds of bodies left out.
ghost use Rattle.rule_judge_loose.specs.Entering.{LooseEnters};
ghost use Rattle.rule_judge_loose.specs.Judging.{LooseHeaded, LooseForm, LooseKnown, JudgesLoosely};

use crate::bodied::{main_line, proc_line};
use leaf_words::words::Word;
use rule_declarations::var_line;
use rule_faults::Fault;
use rule_judge::entering::faulty;
use rule_known::judging::{declared, judge};
use rule_known::{Entered, Judgement, Known};
use rule_type_forms::type_line;
use text_heads::{LineHead, line_head};
use text_lines::lines::balance;
use text_parts::{Part, part_at};
use text_words::lines::{count_nodes, words_known};

// The parts after the head word.
// Kept: the kinds are closed and each has its own arm; closures or a table of functions would say the same twice.
fn loose_enter(
    text: &[u8],
    work: &mut [u32],
    types: &mut [u32],
    bodies: &mut [u32],
    kn: Known,
    head: LineHead,
    at: usize,
) -> Entered
    ensures { LooseEnters text.now work.old types.old bodies.old kn head at result work.new types.new bodies.new }
{
    let st = kn.state;
    match head {
        LineHead::Type => declared(kn, type_line(text, work, types, st, at)),
        LineHead::Var => declared(kn, var_line(text, work, types, st, at)),
        LineHead::Proc => proc_line(text, work, types, bodies, kn, at),
        LineHead::Main => main_line(text, work, types, bodies, kn, at),
        LineHead::Nothing => faulty(kn, Fault::Form),
    }
}

// The parts after the head word w, of a line of n brackets and words.
fn loose_headed(
    text: &[u8],
    work: &mut [u32],
    types: &mut [u32],
    bodies: &mut [u32],
    kn: Known,
    w: Word,
    at: usize,
    n: usize,
) -> Judgement
    ensures { LooseHeaded text.now work.old types.old bodies.old kn w at n result work.new types.new bodies.new }
{
    let g = loose_enter(text, work, types, bodies, kn, line_head(w), at);
    judge(kn, g, n)
}

// The form whose parts begin at an offset, of n brackets and words.
fn loose_form(
    text: &[u8],
    work: &mut [u32],
    types: &mut [u32],
    bodies: &mut [u32],
    kn: Known,
    at: usize,
    n: usize,
) -> Judgement
    ensures { LooseForm text.now work.old types.old bodies.old kn at n result work.new types.new bodies.new }
{
    match part_at(text, at) {
        Part::Leaf(w, _, q) => loose_headed(text, work, types, bodies, kn, w, q, n),
        Part::Form(_) => Err(6),
        Part::Shut(_) => Err(6),
    }
}

// A line whose brackets and words are in order.
fn loose_known(
    text: &[u8],
    work: &mut [u32],
    types: &mut [u32],
    bodies: &mut [u32],
    kn: Known,
    at: usize,
) -> Judgement
    ensures { LooseKnown text.now work.old types.old bodies.old kn at result work.new types.new bodies.new }
{
    if kn.ended {
        return Err(6);
    }
    let n = count_nodes(text, at);
    match part_at(text, at) {
        Part::Form(q) => loose_form(text, work, types, bodies, kn, q, n),
        Part::Leaf(_, _, _) => Err(6),
        Part::Shut(_) => Err(6),
    }
}

// The line at an offset.
pub fn loose_line(
    text: &[u8],
    work: &mut [u32],
    types: &mut [u32],
    bodies: &mut [u32],
    kn: Known,
    at: usize,
) -> Judgement
    ensures { JudgesLoosely text.now work.old types.old bodies.old kn at result work.new types.new bodies.new }
{
    if !balance(text, at) {
        return Err(4);
    }
    if !words_known(text, at) {
        return Err(5);
    }
    loose_known(text, work, types, bodies, kn, at)
}
