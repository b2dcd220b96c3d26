// A line at an offset: rows 4 to 9.
ghost use Rattle.rule_judge.specs.Forms.{JudgesForm, JudgesKnown};
ghost use Rattle.rule_judge.specs.Judging.{JudgesLine};

use crate::entering::enter;
use rule_known::judging::judge;
use rule_known::{Judgement, Known};
use text_heads::line_head;
use text_lines::lines::balance;
use text_parts::{Part, part_at};
use text_words::lines::{count_nodes, words_known};

// The form whose parts begin at an offset, of n brackets and words.
fn form_line(
    text: &[u8],
    work: &mut [u32],
    types: &mut [u32],
    kn: Known,
    at: usize,
    n: usize,
) -> Judgement
    ensures { JudgesForm text.now work.old types.old kn at n result work.new types.new }
{
    match part_at(text, at) {
        Part::Leaf(w, _, q) => {
            let g = enter(text, work, types, kn, line_head(w), q);
            judge(kn, g, n)
        }
        Part::Form(_) => Err(6),
        Part::Shut(_) => Err(6),
    }
}

// A line whose brackets and words are in order.
fn known_line(text: &[u8], work: &mut [u32], types: &mut [u32], kn: Known, at: usize) -> Judgement
    ensures { JudgesKnown text.now work.old types.old kn at result work.new types.new }
{
    if kn.ended {
        return Err(6);
    }
    let n = count_nodes(text, at);
    match part_at(text, at) {
        Part::Form(q) => form_line(text, work, types, kn, q, n),
        Part::Leaf(_, _, _) => Err(6),
        Part::Shut(_) => Err(6),
    }
}

// The line at an offset.
pub fn line(text: &[u8], work: &mut [u32], types: &mut [u32], kn: Known, at: usize) -> Judgement
    ensures { JudgesLine text.now work.old types.old kn at result work.new types.new }
{
    if !balance(text, at) {
        return Err(4);
    }
    if !words_known(text, at) {
        return Err(5);
    }
    known_line(text, work, types, kn, at)
}
