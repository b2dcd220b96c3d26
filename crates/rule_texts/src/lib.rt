// A whole text: rows 1 to 9 in their order, and the verdict.

#![tactic(auto)]

ghost use Rattle.std.specs.Prelude.{◌≡◌, ◌≤◌, min, length};
ghost use Rattle.law.specs.Whole.{verdict_of, work_after};
ghost use Rattle.law_answers.specs.Verdicts.{told_verdict};
ghost use Rattle.rule_texts.specs.Answers.{ChecksLines, Checks, ends_by, start_known, told_by};

use law_answers::{Refusal, Verdict};
pub use rule_declarations::MOST_CELLS;
use rule_declarations::{NOTES, State};
use rule_judge::whole::line;
use rule_known::Known;
use table_list::clear;
pub use table_list::{TEXT_LENGTH, WORK_LENGTH};
use text_lines::lines::{next_line, refused_line};

// The answer for a text: what is known of it, or its refusal.
pub type Checked = Result<Known, Refusal>;

// What is known before any line.
pub fn nothing_known() -> Known
    ensures { result ≡ start_known }
{
    Known {
        state: State::start(),
        stmts: 0,
        nodes: 0,
        ended: false,
        main: 0,
    }
}

// The answer after all lines, where n is one past the last: `main` must have come.
pub fn at_end(n: usize, known: Known) -> Checked
    ensures { result ≡ ends_by known.ended n known }
{
    if known.ended {
        Ok(known)
    } else {
        Err(Refusal { number: 6, line: n })
    }
}

// The lines in their order, up to the first refusal.
// Kept: lines are found one after another by `next_line`; n is their number for the refusal, not an index.
fn check_lines(text: &[u8], work: &mut [u32], types: &mut [u32], kn: Known) -> Checked
    requires { length text.now ≤ 32768 }
    ensures { ChecksLines text.now work.old types.old kn result work.new types.new }
{
    let mut p = 0;
    let mut n = 1;
    let mut known = kn;
    while p < text.len() {
        match line(text, work, types, known, p) {
            Ok(after) => known = after,
            Err(number) => return Err(Refusal { number, line: n }),
        }
        p = next_line(text, p);
        n += 1;
    }
    at_end(n, known)
}

// Rows 1 to 9 of a text; `types` is for the places of the types' descriptions, at least 512 numbers, all 0.
pub fn check(text: &[u8], work: &mut [u32], types: &mut [u32]) -> Checked
    ensures { Checks text.now work.old types.old result work.new types.new }
{
    if work.len() < WORK_LENGTH {
        return Err(Refusal { number: 1, line: 0 });
    }
    if text.len() > TEXT_LENGTH {
        return Err(Refusal { number: 2, line: 0 });
    }
    match refused_line(text) {
        Some(n) => Err(Refusal { number: 3, line: n }),
        None => check_lines(text, work, types, nothing_known()),
    }
}

// The verdict that an answer holds.
fn told(c: Checked) -> Verdict
    ensures { result ≡ told_by c }
{
    c?;
    Ok(())
}

// How many numbers of a working list of n are used.
pub fn working(n: usize) -> usize
    ensures { result ≡ min 16384 n }
{
    n.min(WORK_LENGTH)
}

// The verdict on a text, and the working list left as document 01 says.
// Kept: document 01's public entry; `rule_cells::cells` is another, with other contracts.
pub fn verdict_of(text: &[u8], work: &mut [u32]) -> Verdict
    ensures { (result ≡ told_verdict (verdict_of text.now (length work.old))) × (work.new ≡ work_after work.old) }
{
    let mut types = [0; NOTES];
    let n = working(work.len());
    let c = check(text, &mut work[..n], &mut types);
    clear(work);
    told(c)
}
