// The form of a range.
ghost use Rattle.std.specs.Prelude.{◌≡◌};
ghost use Rattle.law.specs.Trees.{first};
ghost use Rattle.law_theorems.specs.Readings.{stack_at};
ghost use Rattle.rule_declarations.specs.Names.{GivesLastConstant};
ghost use Rattle.rule_type_lines.specs.TypeLines.{GivesShape};
ghost use Rattle.rule_type_lines.specs.Simple.{range_in};
ghost use Rattle.rule_type_lines.specs.Ranges.{IsBits, flipped_of, range_fault, GivesRange};

use crate::Shaped;
use crate::simple::no_shape;
use leaf_integers::sub;
use leaf_sets::pattern;
use rule_atoms::{Valued, constant};
use rule_declarations::State;
use rule_faults::{Fault, is_form, lowest};
use table_scope::{Scope, ordinal_info};
use text_parts::end_at;

// The constant that is the last part of a form; the next part stands past the form.
// Kept: as `last_type` for a constant: `Typed` and `Valued` have other fields, so a trait for the two would be longer than this.
pub fn last_constant(text: &[u8], work: &[u32], scope: Scope, at: usize) -> Valued
    ensures { GivesLastConstant text.now work.now scope at result }
{
    let t = constant(text, work, scope, at);
    if is_form(t.fault) {
        return Valued::failed(Fault::Form, at);
    }
    match end_at(text, t.next) {
        Some(q) => Valued { next: q, ..t },
        None => Valued::failed(Fault::Form, at),
    }
}

// The bits of a negative number, from the number n for -(n + 1).
fn flipped(m: Result<i64, leaf_integers::Fault>) -> u32
    ensures { result ≡ flipped_of m }
{
    match m {
        Ok(v) => 4294967295 - pattern(v),
        Err(_) => 0,
    }
}

// An integer in 32 bits.
fn bits_of(z: i64) -> u32
    ensures { IsBits z result }
{
    if z < 0 {
        flipped(sub(-1, z))
    } else {
        pattern(z)
    }
}

// Row 8 where two constants are no bounds of a range.
fn range_fault(a: u32, y: i64, b: u32, z: i64) -> Fault
    ensures { result ≡ range_fault a y b z }
{
    if a == b && y <= z {
        Fault::Clear
    } else {
        Fault::Kind
    }
}

// A range from the faults, types and values of its bounds.
fn range_shape(f: Fault, g: Fault, a: u32, y: i64, b: u32, z: i64, next: usize) -> Shaped
    ensures { GivesRange f g a y b z next result }
{
    let fault = lowest(lowest(f, g), range_fault(a, y, b, z));
    let low = bits_of(y);
    let high = bits_of(z);
    let info = ordinal_info(a, low, high);
    Shaped {
        fault,
        info,
        within: true,
        next,
    }
}

// The form of a range, past its head word.
pub fn range_of(text: &[u8], work: &[u32], types: &[u32], st: State, at: usize) -> Shaped
    ensures { GivesShape text.now work.now types.now st at (range_in (first (stack_at text.now at))) result }
{
    let a = constant(text, work, st.scope, at);
    if is_form(a.fault) {
        return no_shape(at);
    }
    let b = last_constant(text, work, st.scope, a.next);
    range_shape(a.fault, b.fault, a.kind, a.value, b.kind, b.value, b.next)
}
