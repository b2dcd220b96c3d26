// A value with its kind.
ghost use Rattle.std.specs.Prelude.{◌≡◌};
ghost use Rattle.mark_values.specs.Values.{carried_of};
ghost use Rattle.mark_values.specs.Steps.{Wants};

use code_calc::words::{FAULT, GREATEST};

// The word of no result: what was met has a kind that does not fit.
pub const STUCK: i64 = FAULT;

// Kept: the new form is no plainer: code_calc's operators take and give this word, a fault too, and MarkMeans (specs/Values.antt) speaks of it.
// A value, a fault or no result: its kind and its word. The cells of an array's or record's value stand from cell `from` on.
#[derive(Clone, Copy)]
pub struct Carried {
    pub kind: u32,
    pub word: i64,
    pub from: u32,
}

// A value of one cell, or a fault.
pub fn value(kind: u32, word: i64) -> Carried
    ensures { result ≡ carried_of kind word 0 }
{
    Carried {
        kind,
        word,
        from: 0,
    }
}

impl Carried {
    // The word of a value that must be of a kind.
    #[tactic(auto, using(crate::proofs::Carrying::wanted_laws))]
    pub fn wanted(self, kind: u32) -> i64
        ensures { Wants kind self result }
    {
        let w = self.word;
        if w > GREATEST || kind == self.kind {
            w
        } else {
            STUCK
        }
    }
}
