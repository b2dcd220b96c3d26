// The forms of types with one name and one description: sets, arrays and ranges.
ghost use Rattle.std.specs.Prelude.{◌≡◌, ◌+◌, ◌*◌, ◌%◌};
ghost use Rattle.law.specs.Trees.{first};
ghost use Rattle.law_theorems.specs.Readings.{stack_at};
ghost use Rattle.rule_type_lines.specs.TypeLines.{GivesShape};
ghost use Rattle.rule_type_lines.specs.Simple.{set_in, array_in, base_fits, ordinal_fault, span_of, array_fits, no_shape, array_shaped};

use crate::Shaped;
use rule_atoms::type_name;
use rule_declarations::{CELL_NUMBERS, MOST_CELLS, MOST_INDICES, State, last_type};
use rule_faults::{Fault, is_form, lowest};
use table_scope::{Info, describe, no_info};

// Row 8 where a type is no ordinal, by the number of its shape.
#[tactic(auto, using(crate::proofs::SetTypes::ordinal_laws))]
fn ordinal_fault(shape: u32) -> Fault
    ensures { result ≡ ordinal_fault shape }
{
    if shape == 0 {
        Fault::Clear
    } else {
        Fault::Kind
    }
}

// The greatest ordinal in a set's base.
const LAST_MEMBER: u32 = 31;

// Whether a set's base lies in 0 to 31, by its bounds in 32 bits.
#[tactic(auto, using(crate::proofs::SetTypes::base_laws), unfolding(crate::specs::Simple::base_fits))]
fn base_fits(low: u32, high: u32) -> bool
    ensures { result ≡ base_fits low high }
{
    low < 2147483648 && high <= LAST_MEMBER
}

// The form of a set, past its head word.
#[tactic(auto, using(crate::proofs::SetTypes::set_is))]
pub fn set_of(text: &[u8], work: &[u32], types: &[u32], st: State, at: usize) -> Shaped
    ensures { GivesShape text.now work.now types.now st at (set_in (first (stack_at text.now at))) result }
{
    let t = last_type(text, work, st.scope, at);
    let x = describe(work, types, t.kind);
    let fault = lowest(t.fault, ordinal_fault(x.shape));
    let within = base_fits(x.low, x.high);
    let info = Info {
        shape: 1,
        host: 0,
        low: x.low,
        high: x.high,
        size: 1,
        index: 0,
        element: t.kind,
        fields: 0,
        place: 0,
    };
    Shaped {
        fault,
        info,
        within,
        next: t.next,
    }
}

// How many values an ordinal type has after its first, by its bounds in 32 bits.
#[tactic(auto, using(crate::proofs::ArrayTypes::span_laws))]
fn span_of(low: u32, high: u32) -> u32
    ensures { result ≡ span_of low high }
{
    if low <= high {
        high - low
    } else {
        4294967295 - low + high + 1
    }
}

// The cells of an array with so many indices after its first, fewer than 256, and elements of so many cells, fewer than 4,096.
#[tactic(auto, using(crate::proofs::ArrayTypes::cells_fit))]
fn cells_in(span: u32, size: u32) -> u32
    ensures { result ≡ (span % 256 + 1) * (size % 4096) }
{
    let n = span % MOST_INDICES + 1;
    let c = size % CELL_NUMBERS;
    n * c
}

// Whether an array with so many indices after its first, and elements of so many cells, is within the ceilings of row 9.
#[tactic(auto, using(crate::proofs::ArrayTypes::fits_laws), unfolding(crate::specs::Simple::array_fits))]
fn array_fits(span: u32, size: u32) -> bool
    ensures { result ≡ array_fits span size }
{
    span < MOST_INDICES && cells_in(span, size) <= MOST_CELLS
}

// The answer where row 6 ends the walk.
pub fn no_shape(next: usize) -> Shaped
    ensures { result ≡ no_shape next }
{
    Shaped {
        fault: Fault::Form,
        info: no_info(),
        within: false,
        next,
    }
}

// An array from the faults, descriptions and numbers of its index and element types.
fn array_shape(f: Fault, g: Fault, x: Info, y: Info, i: u32, e: u32, next: usize) -> Shaped
    ensures { result ≡ array_shaped f g x y i e next }
{
    let fault = lowest(lowest(f, g), ordinal_fault(x.shape));
    let span = span_of(x.low, x.high);
    let within = array_fits(span, y.size);
    let cells = cells_in(span, y.size);
    let info = Info {
        shape: 2,
        host: 0,
        low: x.low,
        high: x.high,
        size: cells,
        index: i,
        element: e,
        fields: 0,
        place: 0,
    };
    Shaped {
        fault,
        info,
        within,
        next,
    }
}

// The form of an array, past its head word.
#[tactic(auto, using(crate::proofs::ArrayTypes::array_laws))]
pub fn array_of(text: &[u8], work: &[u32], types: &[u32], st: State, at: usize) -> Shaped
    ensures { GivesShape text.now work.now types.now st at (array_in (first (stack_at text.now at))) result }
{
    let i = type_name(text, work, st.scope, at);
    if is_form(i.fault) {
        return no_shape(at);
    }
    let e = last_type(text, work, st.scope, i.next);
    let x = describe(work, types, i.kind);
    let y = describe(work, types, e.kind);
    array_shape(i.fault, e.fault, x, y, i.kind, e.kind, e.next)
}
