// A text run, and its report as `runscript` prints it.
ghost use Rattle.std.specs.Prelude.{◌≡◌, length};
ghost use Rattle.law.specs.Whole.{run_of, work_after};
ghost use Rattle.law_answers.specs.Written.{names_at};
ghost use Rattle.law_answers.specs.Shown.{Shows};

use host_telling::reports::shown;
use run_texts::run;

// A text run on a lent store, and its report: what document 01 has `runscript` print; store and working list are left as by `run`.
pub fn scripted(
    out: &mut [u8],
    text: &[u8],
    work: &mut [u32],
    names: &[usize],
    values: &mut [i64],
    marks: &mut [u8],
    budget: u32,
) -> usize
    ensures { Shows (names_at text.now names.now) (run_of text.now (length work.old) values.old marks.old budget) out.old result out.new values.new marks.new × (work.new ≡ work_after work.old) }
{
    let report = run(text, work, values, marks, budget);
    shown(out, text, names, values, marks, report)
}
