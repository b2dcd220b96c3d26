// A run: the text is checked, the lent store tested, and the code run over it.

#![tactic(auto)]

ghost use Rattle.std.specs.Prelude.{◌≡◌, length};
ghost use Rattle.law.specs.Whole.{run_of, work_after};
ghost use Rattle.law_answers.specs.RunReports.{Reports};
ghost use Rattle.run_texts.specs.Running.{RunsLoaded, RunsChecked};

use law_answers::{Refusal, Report};
use rule_declarations::NOTES;
use rule_known::Known;
use rule_stores::store_fault;
use rule_texts::{Checked, check, working};
use run_chair::run as run_code;
use table_list::clear;

// Rows 10 and 11, and then the run of an accepted text that the lists hold.
fn run_loaded(
    work: &[u32],
    types: &[u32],
    known: Known,
    values: &mut [i64],
    marks: &mut [u8],
    budget: u32,
) -> Report
    ensures { RunsLoaded work.now types.now known values.old marks.old budget result values.new marks.new }
{
    let f = store_fault(work, types, known.state, values, marks);
    if f != 0 {
        return Err(Refusal { number: f, line: 0 });
    }
    Ok(run_code(work, known.main, values, marks, budget))
}

// The run of a text by the answer for it.
fn run_checked(
    work: &[u32],
    types: &[u32],
    c: Checked,
    values: &mut [i64],
    marks: &mut [u8],
    budget: u32,
) -> Report
    ensures { RunsChecked work.now types.now c values.old marks.old budget result values.new marks.new }
{
    match c {
        Ok(known) => run_loaded(work, types, known, values, marks, budget),
        Err(e) => Err(e),
    }
}

// Runs a text on a lent store within a budget, and leaves the working list as document 01 says.
pub fn run(
    text: &[u8],
    work: &mut [u32],
    values: &mut [i64],
    marks: &mut [u8],
    budget: u32,
) -> Report
    ensures { Reports (run_of text.now (length work.old) values.old marks.old budget) result values.new marks.new × (work.new ≡ work_after work.old) }
{
    let mut types = [0; NOTES];
    let n = working(work.len());
    let c = check(text, &mut work[..n], &mut types);
    let r = run_checked(&work[..n], &types, c, values, marks, budget);
    clear(work);
    r
}
