// `type` lines that make a record.
// Kept (6): nodes and entries are numbers at the free place of the lent working list: fixed memory and no heap, as document 01 has it.
ghost use Rattle.std.specs.Prelude.{◌≡◌};
ghost use Rattle.code.specs.Layout.{lay as laid};
ghost use Rattle.law.specs.Trees.{first};
ghost use Rattle.law_theorems.specs.Readings.{stack_at};
ghost use Rattle.table_list.specs.Laid.{Laid};
ghost use Rattle.rule_type_lines.specs.TypeLines.{GivesMade};
ghost use Rattle.rule_record_lines.specs.Records.{record_in, field_entry, LaysFields, record_info, LaysRecord, AddsRecord, record_fits};

use rule_declarations::{Lined, MOST_CELLS, MOST_FIELDS, State, named_fault, narrow};
use rule_faults::{Fault, is_clear};
use rule_pairs::{add_type_size, pair_at, pairs_from};
use rule_type_lines::{Placed, end_fault, lay_type, lines_fit, type_state};
use table_list::put;
use table_names::declare;
use table_names::keys::name_number;
use table_scope::{Info, Scope};

// Lays a field whose name is at y; the free place then.
fn lay_field(work: &mut [u32], y: usize, kind: u32, offset: u32, place: u32) -> u32
    ensures { Laid (laid (field_entry y kind offset) place work.old) result work.new }
{
    let name = narrow(y);
    declare(work, place, name, kind, offset, 0)
}

// Lays the n fields from an offset on; the free place then.
fn lay_fields(
    text: &[u8],
    work: &mut [u32],
    types: &[u32],
    scope: Scope,
    n: u32,
    top: u32,
    at: usize,
) -> u32
    ensures { LaysFields text.now work.old types.now scope n top at result work.new }
{
    let mut p = at;
    let mut place = top;
    let mut offset = 0;
    for _i in 0..n {
        let f = pair_at(text, work, scope, p);
        let after = add_type_size(work, types, offset, f.kind);
        place = lay_field(work, f.name, f.kind, offset, place);
        offset = after;
        p = f.next;
    }
    place
}

// The description of a record.
fn record_info(n: u32, size: u32) -> Info
    ensures { result ≡ record_info n size }
{
    Info {
        shape: 3,
        host: 0,
        low: 0,
        high: 0,
        size,
        index: 0,
        element: 0,
        fields: n,
        place: 0,
    }
}

// Lays the entry of the type's name at p, the description, and the n fields from an offset on.
fn lay_record(
    text: &[u8],
    work: &mut [u32],
    types: &[u32],
    st: State,
    p: usize,
    at: usize,
    n: u32,
    size: u32,
) -> Placed
    ensures { LaysRecord text.now work.old types.now st p at n size result work.new }
{
    let x = record_info(n, size);
    let name = name_number(text, p);
    let first = lay_type(work, st, name, x);
    let free = lay_fields(text, work, types, st.scope, n, first.top, at);
    Placed {
        place: first.place,
        top: free,
    }
}

// A line that makes a record of n fields, within the ceilings: its name is at p.
fn add_record(
    text: &[u8],
    work: &mut [u32],
    types: &mut [u32],
    st: State,
    p: usize,
    at: usize,
    n: u32,
    size: u32,
) -> Lined
    ensures { AddsRecord text.now work.old types.old st p at n size result work.new types.new }
{
    let laid = lay_record(text, work, types, st, p, at, n, size);
    put(types, st.types as usize, laid.place);
    Lined::held(type_state(st, 1, st.top, 1, laid.top))
}

// Whether a record of n fields is within the ceilings of row 9.
#[tactic(auto, using(crate::proofs::FieldLaying::record_fits_laws), unfolding(crate::specs::Records::record_fits))]
fn record_fits(n: u32, size: u32) -> bool
    ensures { result ≡ record_fits n size }
{
    n <= MOST_FIELDS && size <= MOST_CELLS
}

// A line that makes a record, past its head word; its name is at p.
pub fn record_line(
    text: &[u8],
    work: &mut [u32],
    types: &mut [u32],
    st: State,
    p: usize,
    at: usize,
) -> Lined
    ensures { GivesMade text.now work.old types.old st p at (record_in (first (stack_at text.now at))) result work.new types.new }
{
    let c = pairs_from(text, work, types, st.scope, at);
    let e = end_fault(text, c.fault, c.next);
    let f = named_fault(text, work, st.scope, p, e);
    if is_clear(f) {
        if lines_fit(st.lines, record_fits(c.names, c.size)) {
            add_record(text, work, types, st, p, at, c.names, c.size)
        } else {
            Lined::past(st)
        }
    } else {
        Lined::failed(f, st)
    }
}
