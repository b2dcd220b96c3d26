// The cells of a text that the marking machine takes, and the name of each one's variable.
ghost use Rattle.std.specs.Prelude.{◌≡◌, length};
ghost use Rattle.law.specs.Verdict.{judge, loosely};
ghost use Rattle.law.specs.Whole.{work_after};
ghost use Rattle.law_answers.specs.Verdicts.{cells_told};
ghost use Rattle.law_answers.specs.Owners.{Owners};

use law_answers::Counted;
use rule_cells::{count_of, name_checked};
use rule_declarations::NOTES;
use rule_judge_loose::checking::check_loosely;
use rule_texts::working;
use table_bodies::TABLE_LENGTH;
use table_list::clear;

// How many cells a text has; names[i] becomes the offset of the name of cell i's variable, for each cell that there is room for. The rest of
// `names`, and all of it on a refusal, stays as lent.
pub fn mark_owners(text: &[u8], work: &mut [u32], names: &mut [usize]) -> Counted
    ensures { (result ≡ cells_told (judge loosely text.now (length work.old))) × (work.new ≡ work_after work.old) × Owners text.now (judge loosely text.now (length work.old)) names.old names.new }
{
    let mut types = [0; NOTES];
    let mut bodies = [0; TABLE_LENGTH];
    let n = working(work.len());
    let c = check_loosely(text, &mut work[..n], &mut types, &mut bodies);
    name_checked(&work[..n], &types, c, names);
    clear(work);
    count_of(c)
}
