// The cells of a script: how many there are, and the name of each one's variable.

#![tactic(auto)]

ghost use Rattle.std.specs.Prelude.{◌≡◌, length};
ghost use Rattle.law.specs.Whole.{verdict_of, work_after};
ghost use Rattle.law_answers.specs.Verdicts.{cells_told};
ghost use Rattle.rule_cells.specs.Cells.{counted_by, Names, NamesBy};
ghost use Rattle.law_answers.specs.Owners.{Owners};

use law_answers::Counted;
use rule_declarations::{NOTES, State};
use rule_stores::owner;
use rule_texts::{Checked, check, working};
use table_list::clear;

// How many cells by the answer for a text.
#[tactic(auto, unfolding(crate::specs::Cells::counted_by))]
pub fn count_of(c: Checked) -> Counted
    ensures { result ≡ counted_by c }
{
    Ok(c?.state.cells as usize)
}

// The names of the cells' variables, as far as there is room; what is past the cells stays.
fn name_cells(work: &[u32], types: &[u32], st: State, names: &mut [usize])
    ensures { Names work.now types.now st names.old names.new }
{
    for i in 0..names.len().min(st.cells as usize) {
        names[i] = owner(work, types, st, i);
    }
}

// The same by the answer for a text: what a refused one declared names nothing.
pub fn name_checked(work: &[u32], types: &[u32], c: Checked, names: &mut [usize])
    ensures { NamesBy work.now types.now c names.old names.new }
{
    match c {
        Ok(known) => name_cells(work, types, known.state, names),
        Err(_) => {}
    }
}

// How many cells a text has.
pub fn cells(text: &[u8], work: &mut [u32]) -> Counted
    ensures { (result ≡ cells_told (verdict_of text.now (length work.old))) × (work.new ≡ work_after work.old) }
{
    let mut types = [0; NOTES];
    let n = working(work.len());
    let c = check(text, &mut work[..n], &mut types);
    clear(work);
    count_of(c)
}

// How many cells a text has; names[i] becomes the offset of the name of cell i's variable, for each cell that there is room for. The rest of
// `names`, and all of it on a refusal, stays as lent.
pub fn owners(text: &[u8], work: &mut [u32], names: &mut [usize]) -> Counted
    ensures { (result ≡ cells_told (verdict_of text.now (length work.old))) × (work.new ≡ work_after work.old) × Owners text.now (verdict_of text.now (length work.old)) names.old names.new }
{
    let mut types = [0; NOTES];
    let n = working(work.len());
    let c = check(text, &mut work[..n], &mut types);
    name_checked(&work[..n], &types, c, names);
    clear(work);
    count_of(c)
}
