// The values of a `for`.
ghost use Rattle.std.specs.Prelude.{◌≡◌};
ghost use Rattle.std.specs.Int.Signed.{le_z};
ghost use Rattle.mark_steps.specs.Turns.{Increments, Plans};

use leaf_integers::in_range;

// What a `for` does after its bounds are worked out: no round, a Range_Error, or its rounds.
#[derive(Clone, Copy)]
pub enum Plan {
    NoRound,
    Outside,
    Rounds,
}

// The plan of a `for` from x to y, whose control variable takes low to high.
#[tactic(auto, using(crate::proofs::Counted::plan_laws))]
pub fn planned(low: i64, high: i64, x: i64, y: i64) -> Plan
    ensures { Plans low high x y result }
{
    if x > y {
        Plan::NoRound
    } else if in_range(x, low, high) && in_range(y, low, high) {
        Plan::Rounds
    } else {
        Plan::Outside
    }
}

// Whether a control variable has come to y.
pub fn at_last(z: i64, y: i64) -> bool
    ensures { result ≡ le_z y z }
{
    z >= y
}

// The next value of a control variable that has not come to y.
#[tactic(auto, using(crate::proofs::Counted::next_laws))]
pub fn next_of(z: i64, y: i64) -> i64
    ensures { Increments z y result }
{
    if z < y { z + 1 } else { z }
}
