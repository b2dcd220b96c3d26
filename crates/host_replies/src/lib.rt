// The answers of the public functions in numbers, as a host is told them, by the definitions of `Replies`.

#![tactic(auto)]

ghost use Rattle.std.specs.Prelude.{◌≡◌};
ghost use Rattle.law_answers.specs.RunReports.{ending_of};
ghost use Rattle.law_answers.specs.MarkingReports.{mark_outcome, mark_ending};
ghost use Rattle.host_replies.specs.Replies.{refused_reply, cells_reply, ended_reply, outcome_reply, verdict_reply, count_reply, ending_reply};

use law_answers::{Counted, Ending, MarkReport, Marked, Refusal, Report, Verdict};

// `drive_reply` of the header: a refusal's number, or 0 and the rest; what a call has nothing to say of is 0.
// Kept: numbers for kinds, and 0 where nothing is said, for the C interface (include/drive.h).
#[repr(C)]
#[derive(Clone, Copy)]
pub struct Reply {
    pub refusal: u32,
    pub outcome: u32,
    pub line: usize,
    pub cells: usize,
    pub exception: i64,
    pub statement: u32,
    pub steps: u32,
}

// A refusal.
fn refused(e: Refusal) -> Reply
    ensures { result ≡ refused_reply e.number e.line }
{
    Reply {
        refusal: e.number,
        outcome: 0,
        line: e.line,
        cells: 0,
        exception: 0,
        statement: 0,
        steps: 0,
    }
}

// No refusal, so many cells.
fn accepted(cells: usize) -> Reply
    ensures { result ≡ cells_reply cells }
{
    Reply {
        refusal: 0,
        outcome: 0,
        line: 0,
        cells,
        exception: 0,
        statement: 0,
        steps: 0,
    }
}

// How a run ended.
fn ended(outcome: u32, exception: i64, statement: u32, steps: u32) -> Reply
    ensures { result ≡ ended_reply outcome exception statement steps }
{
    Reply {
        refusal: 0,
        outcome,
        line: 0,
        cells: 0,
        exception,
        statement,
        steps,
    }
}

// A verdict.
pub fn told(v: Verdict) -> Reply
    ensures { result ≡ verdict_reply v }
{
    match v {
        Ok(_) => accepted(0),
        Err(e) => refused(e),
    }
}

// A count of cells.
pub fn counted(c: Counted) -> Reply
    ensures { result ≡ count_reply c }
{
    match c {
        Ok(cells) => accepted(cells),
        Err(e) => refused(e),
    }
}

// The answer of a run: by the marking machine, whose outcomes are those of both machines.
// Kept: the kinds are closed and each has its own arm; closures or a table of functions would say the same twice.
fn answered(answer: Marked) -> Reply
    ensures { result ≡ outcome_reply (mark_outcome answer.ending) answer.steps }
{
    let steps = answer.steps;
    match answer.ending {
        Ending::Normal => ended(0, 0, 0, steps),
        Ending::Raised(number, place) => ended(1, number, place, steps),
        Ending::Spent => ended(2, 0, 0, steps),
        Ending::Stuck => ended(3, 0, 0, steps),
    }
}

// The report of a run.
pub fn reported(report: Report) -> Reply
    ensures { result ≡ ending_reply (ending_of report) }
{
    match report {
        Ok(answer) => answered(answer.into()),
        Err(e) => refused(e),
    }
}

// The report of a run by the marking machine.
pub fn mark_reported(report: MarkReport) -> Reply
    ensures { result ≡ ending_reply (mark_ending report) }
{
    match report {
        Ok(answer) => answered(answer),
        Err(e) => refused(e),
    }
}
