// A report of the marking machine, as rows.
ghost use Rattle.law_answers.specs.Written.{Puts};
ghost use Rattle.host_telling.specs.MarkTold.{marked_row, mark_rows};

use host_writing::rows::{cell_rows, exception, normal, refused, spent, stuck};
use law_answers::{Ending, MarkReport, Marked};

// The row of an outcome.
// Kept: the kinds are closed and each has its own arm; closures or a table of functions would say the same twice.
pub fn marked_by(out: &mut [u8], at: usize, answer: Marked) -> usize
    ensures { Puts (marked_row answer) out.old at result out.new }
{
    let steps = answer.steps;
    match answer.ending {
        Ending::Normal => normal(out, at, steps),
        Ending::Raised(number, place) => exception(out, at, number, place, steps),
        Ending::Spent => spent(out, at, steps),
        Ending::Stuck => stuck(out, at, steps),
    }
}

// A report from the list's start on.
pub fn mark_shown(
    out: &mut [u8],
    text: &[u8],
    names: &[usize],
    values: &[i64],
    marks: &[u8],
    report: MarkReport,
) -> usize
    ensures { Puts (mark_rows text.now names.now values.now marks.now report) out.old 0 result out.new }
{
    match report {
        Ok(answer) => {
            let p = marked_by(out, 0, answer);
            cell_rows(out, p, text, names, values, marks)
        }
        Err(e) => refused(out, 0, e.number, e.line),
    }
}
