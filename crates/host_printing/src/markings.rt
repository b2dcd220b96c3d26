// A text run by the marking machine, and its report as `markscript` prints it.
ghost use Rattle.std.specs.Prelude.{◌≡◌, length};
ghost use Rattle.law.specs.Whole.{mark_of, work_after};
ghost use Rattle.law_answers.specs.Written.{names_at};
ghost use Rattle.law_answers.specs.Shown.{Shows};

use host_telling::markings::mark_shown;
use mark_texts::mark;

// A text run by the marking machine on a lent store, and its report; store and working list are left as by `mark`.
pub fn mark_scripted(
    out: &mut [u8],
    text: &[u8],
    work: &mut [u32],
    names: &[usize],
    values: &mut [i64],
    marks: &mut [u8],
    budget: u32,
) -> usize
    ensures { Shows (names_at text.now names.now) (mark_of text.now (length work.old) values.old marks.old budget) out.old result out.new values.new marks.new × (work.new ≡ work_after work.old) }
{
    let report = mark(text, work, values, marks, budget);
    mark_shown(out, text, names, values, marks, report)
}
