// Lines that declare types: the name's entry, the description and its place, the counts then; and the lines of one description: aliases, ranges, arrays, sets.

// Kept (6): nodes and entries are numbers at the free place of the lent working list: fixed memory and no heap, as document 01 has it.

#![tactic(auto)]

pub mod made;
pub mod ranges;
pub mod simple;

ghost use Rattle.std.specs.Prelude.{◌≡◌};
ghost use Rattle.code.specs.Layout.{lay as laid};
ghost use Rattle.table_list.specs.Laid.{Laid};
ghost use Rattle.rule_type_lines.specs.TypeLines.{lines_fit, type_entry, info_numbers, type_state, AddsAlias, GivesAlias, LaysType, AddsType, EndFault, GivesShaped};

use rule_declarations::{Lined, MOST_TYPE_LINES, State, last_type, named_fault};
use rule_faults::{Fault, is_clear, is_form};
use table_list::{lay, put};
use table_names::declare;
use table_names::keys::name_number;
use table_scope::{Info, TYPE_NUMBERS};
use text_parts::end_at;

// The answer for the form of a type: its fault; with no fault its description, and whether it is within the ceilings of row 9; where the
// next part of the line stands.
// Kept: the new form is no plainer, since behind a fault of row 7 or 8 the walk goes on at `next`, as of rule_atoms' `Typed`.
#[derive(Clone, Copy)]
pub struct Shaped {
    pub fault: Fault,
    pub info: Info,
    pub within: bool,
    pub next: usize,
}

// Whether a line is within the ceilings of row 9, where its type is or is not; so many `type` lines came before.
#[tactic(auto, using(crate::proofs::Aliases::lines_laws), unfolding(crate::specs::TypeLines::lines_fit))]
pub fn lines_fit(lines: u32, within: bool) -> bool
    ensures { result ≡ lines_fit lines within }
{
    lines < MOST_TYPE_LINES && within
}

// What is held after a line with so many names, the last at `newest`, and so many new types.
#[tactic(auto, using(crate::proofs::Aliases::type_state_is))]
pub fn type_state(st: State, names: u32, newest: u32, made: u32, top: u32) -> State
    ensures { result ≡ type_state st names newest made top }
{
    st.with_names(names, newest, top).with_type_line(made)
}

// Lays the entry of a type, by its name's number; the free place then.
pub fn lay_name(work: &mut [u32], st: State, name: u32, number: u32) -> u32
    ensures { Laid (laid (type_entry st name number) st.top work.old) result work.new }
{
    let sort = 4 * (number % TYPE_NUMBERS);
    declare(work, st.top, name, sort, 0, st.scope.newest)
}

// Lays a description without fields; the free place then.
pub fn lay_info(work: &mut [u32], top: u32, x: Info) -> u32
    ensures { Laid (laid (info_numbers x) top work.old) result work.new }
{
    let ns = [
        x.shape, x.host, x.low, x.high, x.size, x.index, x.element, x.fields,
    ];
    lay(work, top, &ns)
}

// A line that names a type anew, with no fault of rows 6 to 8, by its name's number.
#[tactic(auto, using(crate::proofs::Aliases::add_alias_laws))]
fn add_alias(work: &mut [u32], st: State, name: u32, kind: u32) -> Lined
    ensures { AddsAlias work.old st name kind result work.new }
{
    if lines_fit(st.lines, true) {
        let top = lay_name(work, st, name, kind);
        Lined::held(type_state(st, 1, st.top, 0, top))
    } else {
        Lined::past(st)
    }
}

// A `type` line from its type on, which is a name; the line's name is at p.
pub fn alias_line(text: &[u8], work: &mut [u32], st: State, p: usize, at: usize) -> Lined
    ensures { GivesAlias text.now work.old st p at result work.new }
{
    let t = last_type(text, work, st.scope, at);
    let f = named_fault(text, work, st.scope, p, t.fault);
    if is_clear(f) {
        add_alias(work, st, name_number(text, p), t.kind)
    } else {
        Lined::failed(f, st)
    }
}

// Where a description stands, and the free place then.
#[derive(Clone, Copy)]
pub struct Placed {
    pub place: u32,
    pub top: u32,
}

// Lays the entry of a new type, by its name's number, and a description without fields.
pub fn lay_type(work: &mut [u32], st: State, name: u32, x: Info) -> Placed
    ensures { LaysType work.old st name x result work.new }
{
    let place = lay_name(work, st, name, st.types);
    let top = lay_info(work, place, x);
    Placed { place, top }
}

// A line that makes a type of one name and one description, within the ceilings, by its name's number.
fn add_type(work: &mut [u32], types: &mut [u32], st: State, name: u32, x: Info) -> Lined
    ensures { AddsType work.old types.old st name x result work.new types.new }
{
    let at = lay_type(work, st, name, x);
    put(types, st.types as usize, at.place);
    Lined::held(type_state(st, 1, st.top, 1, at.top))
}

// A fault, or row 6 where a form does not end at an offset.
#[tactic(auto, using(crate::proofs::SimpleLines::end_laws))]
pub fn end_fault(text: &[u8], f: Fault, at: usize) -> Fault
    ensures { EndFault text.now f at result }
{
    if is_form(f) {
        return Fault::Form;
    }
    let e = end_at(text, at);
    match e {
        Some(_) => f,
        None => Fault::Form,
    }
}

// A `type` line whose type's form has been read; its name is at p.
pub fn shaped_line(
    text: &[u8],
    work: &mut [u32],
    types: &mut [u32],
    st: State,
    p: usize,
    g: Shaped,
) -> Lined
    ensures { GivesShaped text.now work.old types.old st p g result work.new types.new }
{
    let e = end_fault(text, g.fault, g.next);
    let f = named_fault(text, work, st.scope, p, e);
    if is_clear(f) {
        if lines_fit(st.lines, g.within) {
            add_type(work, types, st, name_number(text, p), g.info)
        } else {
            Lined::past(st)
        }
    } else {
        Lined::failed(f, st)
    }
}
