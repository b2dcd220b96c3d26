// A report of a run, as rows.
ghost use Rattle.law_answers.specs.Written.{Puts};
ghost use Rattle.host_telling.specs.Told.{answer_row, report_rows};

use crate::markings::marked_by;
use host_writing::rows::{cell_rows, refused};
use law_answers::{Answer, Report};

// The row of an outcome.
pub fn ended_by(out: &mut [u8], at: usize, answer: Answer) -> usize
    ensures { Puts (answer_row answer) out.old at result out.new }
{
    marked_by(out, at, answer.into())
}

// A report from the list's start on.
pub fn shown(
    out: &mut [u8],
    text: &[u8],
    names: &[usize],
    values: &[i64],
    marks: &[u8],
    report: Report,
) -> usize
    ensures { Puts (report_rows text.now names.now values.now marks.now report) out.old 0 result out.new }
{
    match report {
        Ok(answer) => {
            let p = ended_by(out, 0, answer);
            cell_rows(out, p, text, names, values, marks)
        }
        Err(e) => refused(out, 0, e.number, e.line),
    }
}
