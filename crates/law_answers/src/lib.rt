// The answers of the public functions: the verdict on a text, its count of cells, and the report of a run by either machine.

#![tactic(auto)]

ghost use Rattle.std.specs.Prelude.{◌≡◌};
ghost use Rattle.law_answers.specs.RunReports.{outcome_of};
ghost use Rattle.law_answers.specs.MarkingReports.{mark_outcome};

// A refusal: its number, and the line that it names, 0 where it names none.
#[derive(Clone, Copy, PartialEq, Eq, Debug)]
pub struct Refusal {
    // Kept: a number and no enum of the rules, by what may not change: `told_verdict` gives the number of each `refused` of the law.
    pub number: u32,
    pub line: usize,
}

// The verdict on a text.
pub type Verdict = Result<(), Refusal>;

// The answer for a text: how many cells it has.
pub type Counted = Result<usize, Refusal>;

// How a run ended; an exception has its number and its statement.
#[derive(Clone, Copy, PartialEq, Eq, Debug)]
pub enum Outcome {
    Normal,
    Raised(i64, u32),
    Spent,
}

// The answer of a run: the steps taken and the outcome.
#[derive(Clone, Copy, PartialEq, Eq, Debug)]
pub struct Answer {
    pub steps: u32,
    pub outcome: Outcome,
}

// The report of a run: the steps and the outcome, where nothing was refused.
pub type Report = Result<Answer, Refusal>;

// How a run by the marking machine ended; an exception has its number and its statement.
// Kept: document 01 says how a run ends, each way with its values; `Stuck` is the fourth way and no error beside the others.
#[derive(Clone, Copy, PartialEq, Eq, Debug)]
pub enum Ending {
    Normal,
    Raised(i64, u32),
    Spent,
    Stuck,
}

// The answer of a run by the marking machine: the steps taken and how it ended.
#[derive(Clone, Copy, PartialEq, Eq, Debug)]
pub struct Marked {
    pub steps: u32,
    pub ending: Ending,
}

// The report of a run by the marking machine: the steps and how it ended, where nothing was refused.
pub type MarkReport = Result<Marked, Refusal>;

// An outcome is one of the marking machine's, which has one more.
impl From<Outcome> for Ending {
    ghost from_gives = { λ o e. mark_outcome e ≡ outcome_of o };

    #[tactic(auto, unfolding(crate::specs::RunReports::outcome_of, crate::specs::MarkingReports::mark_outcome))]
    fn from(o: Outcome) -> Ending {
        match o {
            Outcome::Normal => Ending::Normal,
            Outcome::Raised(number, place) => Ending::Raised(number, place),
            Outcome::Spent => Ending::Spent,
        }
    }
}

impl From<Answer> for Marked {
    ghost from_gives = { λ a m. (mark_outcome m.ending ≡ outcome_of a.outcome) × (m.steps ≡ a.steps) };

    fn from(a: Answer) -> Marked {
        Marked {
            steps: a.steps,
            ending: a.outcome.into(),
        }
    }
}
