// The functions that a host in C or Rust calls (include/drive.h): each is one that `drive` passes on, its answer told in numbers.

#![tactic(auto)]

ghost use Rattle.std.specs.Prelude.{◌≡◌, length};
ghost use Rattle.law.specs.Verdict.{judge, loosely};
ghost use Rattle.law.specs.Whole.{verdict_of, run_of, mark_of, work_after};
ghost use Rattle.law_answers.specs.Verdicts.{told_verdict, cells_told};
ghost use Rattle.law_answers.specs.Owners.{Owners};
ghost use Rattle.host_replies.specs.Replies.{verdict_reply, count_reply, Replies};

use host_replies::{Reply, counted, mark_reported, reported, told};
use mark_texts::mark;
use mark_texts::owning::mark_owners;
use rule_cells::{cells, owners};
use rule_texts::verdict_of;
use run_texts::run;

// The verdict on a text.
#[unsafe(no_mangle)]
pub extern "C" fn drive_verdict(text: &[u8], work: &mut [u32]) -> Reply
    ensures { (result ≡ verdict_reply (told_verdict (verdict_of text.now (length work.old)))) × (work.new ≡ work_after work.old) }
{
    told(verdict_of(text, work))
}

// How many cells a text has.
#[unsafe(no_mangle)]
pub extern "C" fn drive_cells(text: &[u8], work: &mut [u32]) -> Reply
    ensures { (result ≡ count_reply (cells_told (verdict_of text.now (length work.old)))) × (work.new ≡ work_after work.old) }
{
    counted(cells(text, work))
}

// The same; names[i] becomes the offset of the name of cell i's variable, for each cell that there is room for. The rest of `names`, and all of
// it on a refusal, stays as lent.
#[unsafe(no_mangle)]
pub extern "C" fn drive_owners(text: &[u8], work: &mut [u32], names: &mut [usize]) -> Reply
    ensures { (result ≡ count_reply (cells_told (verdict_of text.now (length work.old)))) × (work.new ≡ work_after work.old) × Owners text.now (verdict_of text.now (length work.old)) names.old names.new }
{
    counted(owners(text, work, names))
}

// The run of a text on a lent store within a budget.
// Kept: values and marks in two lists, for the C interface (include/drive.h).
#[unsafe(no_mangle)]
pub extern "C" fn drive_run(
    text: &[u8],
    work: &mut [u32],
    values: &mut [i64],
    marks: &mut [u8],
    budget: u32,
) -> Reply
    ensures { Replies (run_of text.now (length work.old) values.old marks.old budget) result values.new marks.new × (work.new ≡ work_after work.old) }
{
    reported(run(text, work, values, marks, budget))
}

// As `drive_owners`, of a text that the marking machine takes.
#[unsafe(no_mangle)]
pub extern "C" fn drive_mark_owners(text: &[u8], work: &mut [u32], names: &mut [usize]) -> Reply
    ensures { (result ≡ count_reply (cells_told (judge loosely text.now (length work.old)))) × (work.new ≡ work_after work.old) × Owners text.now (judge loosely text.now (length work.old)) names.old names.new }
{
    counted(mark_owners(text, work, names))
}

// The run of a text on a lent store within a budget, by the marking machine.
#[unsafe(no_mangle)]
pub extern "C" fn drive_mark(
    text: &[u8],
    work: &mut [u32],
    values: &mut [i64],
    marks: &mut [u8],
    budget: u32,
) -> Reply
    ensures { Replies (mark_of text.now (length work.old) values.old marks.old budget) result values.new marks.new × (work.new ≡ work_after work.old) }
{
    mark_reported(mark(text, work, values, marks, budget))
}
