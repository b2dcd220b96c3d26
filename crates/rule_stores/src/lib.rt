// The lent store against the cells that a script declares: rows 10 and 11, and each cell's variable.

#![tactic(auto)]

ghost use Rattle.std.specs.Prelude.{◌≡◌, ◌+◌, ◌-◌, ◌%◌};
ghost use Rattle.leaf_words.specs.Numbers.{signed};
ghost use Rattle.table_names.specs.Chain.{entries};
ghost use Rattle.rule_stores.specs.Cells.{cell_by, field_cell, element_cell, inner_cell, leaf_type, begins_by, begins_at, holder, cell_type};
ghost use Rattle.rule_stores.specs.Stores.{value_fits, mark_fits, cell_passes, StoreFault, Owner};

use leaf_integers::in_range;
use leaf_sets::lies_in;
use rule_declarations::{CELL_NUMBERS, State};
use table_list::at;
use table_names::keys::OFFSETS;
use table_scope::{Info, MOST_TYPES, TYPE_NUMBERS, describe};

// A cell of a value: the type that it is a cell of, and its place among that type's cells.
#[derive(Clone, Copy)]
pub struct Cell {
    pub kind: u32,
    pub place: u32,
}

// A cell of the fields that stand after a description, as one of the field that has it.
fn field_cell(work: &[u32], types: &[u32], place: u32, fields: u32, cell: u32) -> Cell
    ensures { result ≡ field_cell work.now types.now (place + 8) fields cell }
{
    let mut p = place as usize + 8;
    let mut i = cell;
    for _k in 0..fields {
        let kind = at(work, p + 1);
        let x = describe(work, types, kind);
        if i < x.size {
            return Cell { kind, place: i };
        }
        i -= x.size;
        p += 4;
    }
    Cell { kind: 0, place: 0 }
}

// A cell of an array, as one of its elements', which have so many cells.
#[tactic(auto, using(crate::proofs::Ways::element_laws), unfolding(crate::specs::Cells::element_cell))]
fn element_cell(kind: u32, cell: u32, size: u32) -> Cell
    ensures { result ≡ element_cell kind cell size }
{
    let place = if size == 0 { cell } else { cell % size };
    Cell { kind, place }
}

// A cell of an array or a record that x describes, as one of its element's or a field's.
#[tactic(auto, using(crate::proofs::Ways::inner_laws))]
fn inner_cell(work: &[u32], types: &[u32], x: Info, cell: u32) -> Cell
    ensures { result ≡ inner_cell work.now types.now x cell }
{
    if x.shape == 2 {
        let e = describe(work, types, x.element);
        element_cell(x.element, cell, e.size)
    } else {
        field_cell(work, types, x.place, x.fields, cell)
    }
}

// The ordinal or set type of a cell of a type, at most so many types inside it.
fn leaf_type(work: &[u32], types: &[u32], kind: u32, cell: u32, depth: u32) -> u32
    ensures { result ≡ leaf_type depth work.now types.now kind cell }
{
    if depth == 0 {
        return kind;
    }
    let x = describe(work, types, kind);
    if x.shape < 2 {
        return kind;
    }
    let c = inner_cell(work, types, x, cell);
    leaf_type(work, types, c.kind, c.place, depth - 1)
}

// Whether an entry's second and third numbers are a variable's that begins at a cell or before it.
#[tactic(auto, using(crate::proofs::Ways::begins_laws), unfolding(crate::specs::Cells::begins_by))]
fn begins_by(sort: u32, more: u32, cell: usize) -> bool
    ensures { result ≡ begins_by sort more cell }
{
    sort % 4 == 1 && (more / TYPE_NUMBERS) as usize <= cell
}

// Whether the entry at a place is such a variable's.
fn begins_at(work: &[u32], place: u32, cell: usize) -> bool
    ensures { result ≡ begins_at work.now place cell }
{
    let p = place as usize;
    begins_by(at(work, p + 1), at(work, p + 2), cell)
}

// The place of the newest entry whose variable begins at a cell or before it, among so many entries; 0 if none does.
fn holder_of(work: &[u32], count: u32, newest: u32, cell: usize) -> u32
    ensures { result ≡ holder work.now (entries count work.now newest) cell }
{
    let mut p = newest;
    for _k in 0..count {
        if begins_at(work, p, cell) {
            return p;
        }
        p = at(work, p as usize + 3);
    }
    0
}

// A cell's place in its variable is taken modulo this.
const PLACES_IN: usize = CELL_NUMBERS as usize;

// How far a cell stands past a variable's first, below 4,096.
fn past_base(cell: usize, base: u32) -> u32
    ensures { result ≡ (cell - base) % 4096 }
{
    (cell.saturating_sub(base as usize) % PLACES_IN) as u32
}

// How deep types stand in each other at most.
const NESTED: u32 = MOST_TYPES as u32;

// The ordinal or set type of a cell of the store.
fn cell_type(work: &[u32], types: &[u32], st: State, cell: usize) -> u32
    ensures { result ≡ cell_type work.now types.now st.scope.count st.scope.newest cell }
{
    let p = holder_of(work, st.scope.count, st.scope.newest, cell) as usize;
    let more = at(work, p + 2);
    let place = past_base(cell, more / TYPE_NUMBERS);
    leaf_type(work, types, more % TYPE_NUMBERS, place, NESTED)
}

// A bound of a type from its 32 bits.
#[tactic(auto, using(crate::proofs::Ways::bound_laws))]
fn bound_of(n: u32) -> i64
    ensures { result ≡ signed n }
{
    if n <= 2147483647 {
        n as i64
    } else {
        n as i64 - 4294967296
    }
}

// Whether a value is one of the ordinal or set type that x describes.
fn value_fits(x: Info, v: i64) -> bool
    ensures { result ≡ value_fits x v }
{
    let lo = bound_of(x.low);
    let hi = bound_of(x.high);
    if x.shape == 0 {
        in_range(v, lo, hi)
    } else {
        lies_in(v, lo, hi)
    }
}

// Whether a cell is defined with a value of its type, or undefined with value 0.
#[tactic(auto, using(crate::proofs::Ways::mark_laws), unfolding(crate::specs::Stores::mark_fits))]
fn mark_fits(x: Info, v: i64, m: u8) -> bool
    ensures { result ≡ mark_fits x v m }
{
    match m {
        1 => value_fits(x, v),
        0 => v == 0,
        _ => false,
    }
}

// Whether row 11 finds no fault in a cell of the store.
fn cell_passes(work: &[u32], types: &[u32], st: State, cell: usize, v: i64, m: u8) -> bool
    ensures { result ≡ cell_passes work.now types.now st.scope.count st.scope.newest cell v m }
{
    let t = cell_type(work, types, st, cell);
    let x = describe(work, types, t);
    mark_fits(x, v, m)
}

// The lent store's fault: 10 where a list has not one number for each cell, 11 where a cell is wrong, 0 where neither is.
pub fn store_fault(work: &[u32], types: &[u32], st: State, values: &[i64], marks: &[u8]) -> u32
    ensures { StoreFault work.now types.now st values.now marks.now result }
{
    let cells = st.cells as usize;
    if values.len() != cells || marks.len() != cells {
        return 10;
    }
    for c in 0..cells {
        if !cell_passes(work, types, st, c, values[c], marks[c]) {
            return 11;
        }
    }
    0
}

// The offset in the text of the name of the variable that a cell belongs to.
pub fn owner(work: &[u32], types: &[u32], st: State, cell: usize) -> usize
    ensures { Owner work.now types.now st cell result }
{
    let p = holder_of(work, st.scope.count, st.scope.newest, cell) as usize;
    (at(work, p) % OFFSETS) as usize
}
