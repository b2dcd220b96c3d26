// The public library, in one place: the verdict on a text, its run by either machine, and its cells. Each function tests what it is handed.

#![tactic(auto)]

pub use law_answers::{Counted, MarkReport, Refusal, Report, Verdict};
pub use mark_texts::mark;
pub use mark_texts::owning::mark_owners;
pub use rule_cells::{cells, owners};
pub use rule_texts::{MOST_CELLS, TEXT_LENGTH, WORK_LENGTH, verdict_of};
pub use run_texts::run;
