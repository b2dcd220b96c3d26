// What is known of the lines so far, and the answer for a line: the lowest of rows 6 to 9.

#![tactic(auto)]

pub mod judging;

use rule_declarations::State;
use rule_faults::Fault;

// What is known of the lines so far: what the tables hold; how many statements, and how many brackets and words there were; whether
// `main` has come, and the place of its body.
// Kept: `ended` says that `main` has come and guards none of the values beside it.
#[derive(Clone, Copy)]
pub struct Known {
    pub state: State,
    pub stmts: u32,
    pub nodes: u32,
    pub ended: bool,
    pub main: u32,
}

// The answer for a line: what is known after it, or the number of its refusal.
// Kept: a number and no enum of rows 4 to 9, by what may not change: it is that of `bad` in the law (`JudgedBy`), and goes into a `Refusal`.
pub type Judgement = Result<Known, u32>;

// The answer for a line's parts: their fault of rows 6 to 8; with no fault whether the line is within its ceilings, and then what is held
// after it, the number of the last statement, whether this is `main`, and the place of its body.
#[derive(Clone, Copy)]
pub struct Entered {
    pub fault: Fault,
    pub within: bool,
    pub state: State,
    pub stmts: u32,
    pub ended: bool,
    pub main: u32,
}
