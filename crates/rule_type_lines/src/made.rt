// `type` lines whose type is a set, an array or a range.
ghost use Rattle.law.specs.Trees.{first};
ghost use Rattle.law_theorems.specs.Readings.{stack_at};
ghost use Rattle.rule_type_lines.specs.TypeLines.{GivesMade};
ghost use Rattle.rule_type_lines.specs.Simple.{set_in, array_in, range_in};

use crate::ranges::range_of;
use crate::shaped_line;
use crate::simple::{array_of, set_of};
use rule_declarations::{Lined, State};

// A line that makes a set, past its head word; its name is at p.
pub fn set_line(
    text: &[u8],
    work: &mut [u32],
    types: &mut [u32],
    st: State,
    p: usize,
    at: usize,
) -> Lined
    ensures { GivesMade text.now work.old types.old st p at (set_in (first (stack_at text.now at))) result work.new types.new }
{
    let g = set_of(text, work, types, st, at);
    shaped_line(text, work, types, st, p, g)
}

// A line that makes an array, past its head word; its name is at p.
pub fn array_line(
    text: &[u8],
    work: &mut [u32],
    types: &mut [u32],
    st: State,
    p: usize,
    at: usize,
) -> Lined
    ensures { GivesMade text.now work.old types.old st p at (array_in (first (stack_at text.now at))) result work.new types.new }
{
    let g = array_of(text, work, types, st, at);
    shaped_line(text, work, types, st, p, g)
}

// A line that makes a range, past its head word; its name is at p.
pub fn range_line(
    text: &[u8],
    work: &mut [u32],
    types: &mut [u32],
    st: State,
    p: usize,
    at: usize,
) -> Lined
    ensures { GivesMade text.now work.old types.old st p at (range_in (first (stack_at text.now at))) result work.new types.new }
{
    let g = range_of(text, work, types, st, at);
    shaped_line(text, work, types, st, p, g)
}
