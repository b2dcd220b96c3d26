// How a statement of the marking machine ends: as the runner's do (steps), or it sticks.
ghost use Rattle.std.specs.Prelude.{◌≡◌};
ghost use Rattle.mark_acts.specs.Ends.{stuck_word, Halts};

use code_calc::words::Store;
use mark_steps::ends::{SPENT, failing};
use mark_values::values::STUCK;

// Kept: what may not change: mark_told and stuck_word (specs/Ends.antt) speak of this word.
// Added to the steps left where a statement sticks.
pub const STICKS: u64 = 12884901888;

// It sticks, as a word.
pub fn sticking(left: u64) -> u64
    ensures { result ≡ stuck_word left }
{
    STICKS + left % SPENT
}

// What the word of no value does in statement n: a fault raises, and STUCK sticks.
pub fn halting(store: &mut Store, left: u64, w: i64, n: u32) -> u64
    ensures { Halts w n store.old left store.new result }
{
    if w == STUCK {
        sticking(left)
    } else {
        failing(store, left, w, n)
    }
}
