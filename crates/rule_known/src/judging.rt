// From the answer for a line's parts to that for the line: the lowest of rows 6 to 9.
ghost use Rattle.std.specs.Prelude.{◌≡◌};
ghost use Rattle.rule_known.specs.Answers.{nodes_fit, known_after, judgement, declared_entry};

use crate::{Entered, Judgement, Known};
use rule_declarations::Lined;
use rule_faults::Fault;

// The ceiling of row 9: "4,096 brackets and words (a pair is one)".
const MOST_NODES: usize = 4096;

// A line's brackets and words are counted modulo this.
const NODES_END: usize = MOST_NODES + 1;

// And all lines' modulo this.
const NODE_NUMBERS: u32 = NODES_END as u32;

// Whether n brackets and words more are within their ceiling.
#[tactic(auto, unfolding(crate::specs::Answers::nodes_fit))]
fn nodes_fit(nodes: u32, n: usize) -> bool
    ensures { result ≡ nodes_fit nodes n }
{
    n <= MOST_NODES && nodes as usize + n <= MOST_NODES
}

// What is known after a line of n brackets and words, where they fit.
fn known_after(kn: Known, g: Entered, n: usize) -> Known
    ensures { result ≡ known_after kn g n }
{
    Known {
        state: g.state,
        stmts: g.stmts,
        nodes: kn.nodes % NODE_NUMBERS + (n % NODES_END) as u32,
        ended: g.ended,
        main: g.main,
    }
}

// The line of n brackets and words.
#[tactic(auto, unfolding(crate::specs::Answers::judgement, crate::specs::Answers::ninth_judgement))]
pub fn judge(kn: Known, g: Entered, n: usize) -> Judgement
    ensures { result ≡ judgement kn g n }
{
    match g.fault {
        Fault::Form => Err(6),
        Fault::Name => Err(7),
        Fault::Kind => Err(8),
        Fault::Clear => {
            if g.within && nodes_fit(kn.nodes, n) {
                Ok(known_after(kn, g, n))
            } else {
                Err(9)
            }
        }
    }
}

// A line that declares a variable or a type.
pub fn declared(kn: Known, r: Lined) -> Entered
    ensures { result ≡ declared_entry kn r }
{
    Entered {
        fault: r.fault,
        within: r.within,
        state: r.state,
        stmts: kn.stmts,
        ended: false,
        main: 0,
    }
}
