// The two machines, as the programs take them: whose cells a text has, and its run with the rows of its report.
ghost use Rattle.std.specs.Prelude.{◌≡◌, List, ℕ, ℤ, length};
ghost use Rattle.law.specs.Verdict.{Verdict, Read, judge, loosely};
ghost use Rattle.law.specs.Whole.{Report, verdict_of, run_of, mark_of, work_after};
ghost use Rattle.law_answers.specs.Verdicts.{cells_told};
ghost use Rattle.law_answers.specs.Owners.{Owners};
ghost use Rattle.law_answers.specs.Written.{names_at};
ghost use Rattle.law_answers.specs.Shown.{Shows};

use crate::markings::mark_scripted;
use crate::reports::scripted;
use law_answers::Counted;
use mark_texts::owning::mark_owners;
use rule_cells::owners;

// A machine: the verdict on the texts that it takes, by the text and the length of the working list, and the report of its runs, by these,
// the store's lists and the budget.
pub trait Machine {
    ghost verdict: { List ℕ → ℕ → Verdict Read };

    ghost report: { List ℕ → ℕ → List ℤ → List ℕ → ℕ → Report };

    // How many cells a text has, and whose they are.
    fn owners(text: &[u8], work: &mut [u32], names: &mut [usize]) -> Counted
        ensures { (result ≡ cells_told (verdict text.now (length work.old))) × (work.new ≡ work_after work.old) × Owners text.now (verdict text.now (length work.old)) names.old names.new };

    // A text run on a lent store, and its report.
    fn scripted(
        out: &mut [u8],
        text: &[u8],
        work: &mut [u32],
        names: &[usize],
        values: &mut [i64],
        marks: &mut [u8],
        budget: u32,
    ) -> usize
        ensures { Shows (names_at text.now names.now) (report text.now (length work.old) values.old marks.old budget) out.old result out.new values.new marks.new × (work.new ≡ work_after work.old) };
}

// The checker and the runner.
pub struct Runner;

impl Machine for Runner {
    ghost verdict = { verdict_of };

    ghost report = { run_of };

    fn owners(text: &[u8], work: &mut [u32], names: &mut [usize]) -> Counted {
        owners(text, work, names)
    }

    // Kept: each machine forwards to its own functions; the trait is what the two share.
    fn scripted(
        out: &mut [u8],
        text: &[u8],
        work: &mut [u32],
        names: &[usize],
        values: &mut [i64],
        marks: &mut [u8],
        budget: u32,
    ) -> usize {
        scripted(out, text, work, names, values, marks, budget)
    }
}

// The marking machine.
pub struct Marker;

impl Machine for Marker {
    ghost verdict = { judge loosely };

    ghost report = { mark_of };

    fn owners(text: &[u8], work: &mut [u32], names: &mut [usize]) -> Counted {
        mark_owners(text, work, names)
    }

    // Kept: each machine forwards to its own functions; the trait is what the two share.
    fn scripted(
        out: &mut [u8],
        text: &[u8],
        work: &mut [u32],
        names: &[usize],
        values: &mut [i64],
        marks: &mut [u8],
        budget: u32,
    ) -> usize {
        mark_scripted(out, text, work, names, values, marks, budget)
    }
}
