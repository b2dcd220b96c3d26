// The marking machine on a whole text: rows 1 to 9 with the kinds of bodies left out, the lent store tested, and the run; and the text's cells.

#![tactic(auto)]

pub mod owning;

ghost use Rattle.std.specs.Prelude.{◌≡◌, ◌-◌, length};
ghost use Rattle.law.specs.Whole.{mark_of, work_after};
ghost use Rattle.law_answers.specs.MarkingReports.{MarkReports};
ghost use Rattle.mark_texts.specs.Reports.{MarksLoaded, MarksChecked};

use law_answers::{MarkReport, Refusal};
use mark_machine::mark_lent;
use rule_declarations::NOTES;
use rule_judge_loose::checking::check_loosely;
use rule_known::Known;
use rule_stores::store_fault;
use rule_texts::{Checked, working};
use table_bodies::TABLE_LENGTH;
use table_list::clear;

// The number of the last of n bodies, which is that of `main`.
fn last_of(n: u32) -> u32
    ensures { result ≡ n - 1 }
{
    n.saturating_sub(1)
}

// Rows 10 and 11, and then the run of a text whose bodies the tables hold.
fn mark_loaded(
    text: &[u8],
    work: &[u32],
    types: &[u32],
    bodies: &[u32],
    known: Known,
    values: &mut [i64],
    marks: &mut [u8],
    budget: u32,
) -> MarkReport
    ensures { MarksLoaded text.now work.now types.now bodies.now known values.old marks.old budget result values.new marks.new }
{
    let f = store_fault(work, types, known.state, values, marks);
    if f != 0 {
        return Err(Refusal { number: f, line: 0 });
    }
    let q = last_of(known.state.procs);
    Ok(mark_lent(text, work, types, bodies, q, values, marks, budget))
}

// The run of a text by the answer for it.
fn mark_checked(
    text: &[u8],
    work: &[u32],
    types: &[u32],
    bodies: &[u32],
    c: Checked,
    values: &mut [i64],
    marks: &mut [u8],
    budget: u32,
) -> MarkReport
    ensures { MarksChecked text.now work.now types.now bodies.now c values.old marks.old budget result values.new marks.new }
{
    match c {
        Ok(known) => mark_loaded(text, work, types, bodies, known, values, marks, budget),
        Err(e) => Err(e),
    }
}

// Runs a text on a lent store within a budget as the marking machine does, and leaves the working list as document 01 says.
pub fn mark(
    text: &[u8],
    work: &mut [u32],
    values: &mut [i64],
    marks: &mut [u8],
    budget: u32,
) -> MarkReport
    ensures { MarkReports (mark_of text.now (length work.old) values.old marks.old budget) result values.new marks.new × (work.new ≡ work_after work.old) }
{
    let mut types = [0; NOTES];
    let mut bodies = [0; TABLE_LENGTH];
    let n = working(work.len());
    let c = check_loosely(text, &mut work[..n], &mut types, &mut bodies);
    let r = mark_checked(text, &work[..n], &types, &bodies, c, values, marks, budget);
    clear(work);
    r
}
