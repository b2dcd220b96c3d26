// A whole text: rows 1 to 9 in their order, the kinds of bodies left out.
ghost use Rattle.std.specs.Prelude.{◌≤◌, length};
ghost use Rattle.rule_judge_loose.specs.Texts.{AdmitsLines, Admits};

use crate::lined::loose_line;
use law_answers::Refusal;
use rule_known::Known;
use rule_texts::{Checked, at_end, nothing_known};
use table_list::{TEXT_LENGTH, WORK_LENGTH};
use text_lines::lines::{next_line, refused_line};

// The lines in their order, up to the first refusal.
// Kept: as of rule_texts: lines are found one after another, and n is their number for the refusal.
fn check_lines(
    text: &[u8],
    work: &mut [u32],
    types: &mut [u32],
    bodies: &mut [u32],
    kn: Known,
) -> Checked
    requires { length text.now ≤ 32768 }
    ensures { AdmitsLines text.now work.old types.old bodies.old kn result work.new types.new bodies.new }
{
    let mut p = 0;
    let mut n = 1;
    let mut known = kn;
    while p < text.len() {
        match loose_line(text, work, types, bodies, known, p) {
            Ok(after) => known = after,
            Err(number) => return Err(Refusal { number, line: n }),
        }
        p = next_line(text, p);
        n += 1;
    }
    at_end(n, known)
}

// Rows 1 to 9 of a text; `types` is for the places of the types' descriptions, at least 512 numbers, all 0; `table_bodies` for the bodies' table, at
// least `table_bodies::TABLE_LENGTH`.
pub fn check_loosely(
    text: &[u8],
    work: &mut [u32],
    types: &mut [u32],
    bodies: &mut [u32],
) -> Checked
    ensures { Admits text.now work.old types.old bodies.old result work.new types.new bodies.new }
{
    if work.len() < WORK_LENGTH {
        return Err(Refusal { number: 1, line: 0 });
    }
    if text.len() > TEXT_LENGTH {
        return Err(Refusal { number: 2, line: 0 });
    }
    match refused_line(text) {
        Some(n) => Err(Refusal { number: 3, line: n }),
        None => check_lines(text, work, types, bodies, nothing_known()),
    }
}
