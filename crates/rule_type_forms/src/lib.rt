// `type` lines, by what stands for their type.

#![tactic(auto)]

ghost use Rattle.law.specs.Forms.{is_type};
ghost use Rattle.law.specs.Trees.{first};
ghost use Rattle.law_theorems.specs.Readings.{stack_at};
ghost use Rattle.rule_declarations.specs.Lines.{line_of, GivesLine};
ghost use Rattle.rule_type_forms.specs.Shapes.{maker_by, GivesForm, GivesAfter};
ghost use Rattle.rule_type_lines.specs.TypeLines.{GivesMade};

use rule_declarations::{Lined, State, name_at};
use rule_enum_lines::values::enum_line;
use rule_faults::Fault;
use rule_record_lines::records::record_line;
use rule_type_lines::alias_line;
use rule_type_lines::made::{array_line, range_line, set_line};
use text_heads::{Maker, maker_of};
use text_parts::{Part, part_at};

// A line whose type is a form, past its head word, which m stands for; the line's name is at p.
// Kept: the kinds are closed and each has its own arm; closures or a table of functions would say the same twice.
#[tactic(auto, using(crate::proofs::TypeShapes::made_laws))]
fn made_line(
    text: &[u8],
    work: &mut [u32],
    types: &mut [u32],
    st: State,
    p: usize,
    at: usize,
    m: Maker,
) -> Lined
    ensures { GivesMade text.now work.old types.old st p at (maker_by m (first (stack_at text.now at))) result work.new types.new }
{
    match m {
        Maker::Enum => enum_line(text, work, types, st, p, at),
        Maker::Range => range_line(text, work, types, st, p, at),
        Maker::Array => array_line(text, work, types, st, p, at),
        Maker::Record => record_line(text, work, types, st, p, at),
        Maker::Set => set_line(text, work, types, st, p, at),
        Maker::Nothing => Lined::failed(Fault::Form, st),
    }
}

// A line whose type is a form, past its bracket; the line's name is at p.
#[tactic(auto, using(crate::proofs::TypeShapes::form_laws))]
fn form_line(
    text: &[u8],
    work: &mut [u32],
    types: &mut [u32],
    st: State,
    p: usize,
    at: usize,
) -> Lined
    ensures { GivesForm text.now work.old types.old st p at result work.new types.new }
{
    match part_at(text, at) {
        Part::Leaf(w, _, q) => made_line(text, work, types, st, p, q, maker_of(w)),
        _ => Lined::failed(Fault::Form, st),
    }
}

// A `type` line from its type on; its name is at p.
fn type_after(
    text: &[u8],
    work: &mut [u32],
    types: &mut [u32],
    st: State,
    p: usize,
    at: usize,
) -> Lined
    ensures { GivesAfter text.now work.old types.old st p at result work.new types.new }
{
    match part_at(text, at) {
        Part::Leaf(_, _, _) => alias_line(text, work, st, p, at),
        Part::Form(q) => form_line(text, work, types, st, p, q),
        Part::Shut(_) => Lined::failed(Fault::Form, st),
    }
}

// A `type` line, past its head word.
// Kept: as `var_line`: which lists each writes, and what follows, is all that they say; one function with a closure is no plainer.
#[tactic(auto, using(crate::proofs::TypeShapes::type_line_laws))]
pub fn type_line(text: &[u8], work: &mut [u32], types: &mut [u32], st: State, at: usize) -> Lined
    ensures { GivesLine text.now work.old types.old st (line_of is_type 0 (first (stack_at text.now at))) result work.new types.new }
{
    match name_at(text, at) {
        Some(n) => type_after(text, work, types, st, n.at, n.next),
        None => Lined::failed(Fault::Form, st),
    }
}
