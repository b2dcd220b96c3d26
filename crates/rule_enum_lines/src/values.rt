// `type` lines that make an enumeration.
// Kept (6): nodes and entries are numbers at the free place of the lent working list: fixed memory and no heap, as document 01 has it.
ghost use Rattle.std.specs.Prelude.{◌≡◌, ◌-◌};
ghost use Rattle.code.specs.Layout.{lay as laid};
ghost use Rattle.law.specs.Trees.{first};
ghost use Rattle.law_theorems.specs.Readings.{stack_at};
ghost use Rattle.table_list.specs.Laid.{Laid};
ghost use Rattle.rule_enum_lines.specs.Enums.{enum_in};
ghost use Rattle.rule_type_lines.specs.TypeLines.{GivesMade};
ghost use Rattle.rule_enum_lines.specs.Values.{link_of, value_entry, LaysValues, enum_entry, enum_info, LaysDescribed, LaysEnum, AddsEnum, enum_fault};

use crate::enums::{enum_names, is_fresh, one_more};
use rule_declarations::{Lined, MOST_ENUM_NAMES, State, name_at};
use rule_faults::{Fault, is_clear, is_form};
use rule_type_lines::{Placed, end_fault, lay_info, lines_fit, type_state};
use table_list::put;
use table_names::declare;
use table_names::keys::name_number;
use table_order::put_in_order;
use table_scope::{Info, TYPE_NUMBERS, ordinal_info};

// More than the places of a working list: a place is taken modulo it, so that a sum is not too large.
const PLACES: u32 = 32768;

// The link of value i of n, whose entry is at `place`: the next value's entry, or the newest entry before the line.
#[tactic(auto, using(crate::proofs::EnumValues::link_laws))]
fn link_of(i: u32, n: u32, place: u32, newest: u32) -> u32
    ensures { result ≡ link_of i n place newest }
{
    if i < n.saturating_sub(1) {
        place % PLACES + 4
    } else {
        newest
    }
}

// Lays the entry of value i of n, by its name's number; the free place then.
fn lay_value(work: &mut [u32], kind: u32, newest: u32, n: u32, name: u32, i: u32, place: u32) -> u32
    ensures { Laid (laid (value_entry kind newest n name i place) place work.old) result work.new }
{
    let sort = 3 + 4 * (kind % TYPE_NUMBERS);
    let link = link_of(i, n, place, newest);
    declare(work, place, name, sort, i, link)
}

// Lays the entries of the n names from an offset on; the free place then.
fn lay_values(
    text: &[u8],
    work: &mut [u32],
    kind: u32,
    newest: u32,
    n: u32,
    top: u32,
    at: usize,
) -> u32
    ensures { LaysValues text.now work.old kind newest n top at result work.new }
{
    let mut p = at;
    let mut place = top;
    for i in 0..n {
        let Some(name) = name_at(text, p) else {
            return place;
        };
        let number = name_number(text, name.at);
        place = lay_value(work, kind, newest, n, number, i, place);
        p = name.next;
    }
    place
}

// Lays the entry of the type, by its name's number; the free place then.
fn lay_enum_name(work: &mut [u32], st: State, name: u32) -> u32
    ensures { Laid (laid (enum_entry st name) st.top work.old) result work.new }
{
    let sort = 4 * (st.types % TYPE_NUMBERS);
    let link = st.top % PLACES + 12;
    declare(work, st.top, name, sort, 0, link)
}

// The description of an enumeration of n values.
fn enum_info(kind: u32, n: u32) -> Info
    ensures { result ≡ enum_info kind n }
{
    ordinal_info(kind, 0, n.saturating_sub(1))
}

// Lays the entry of the type, by its name's number, and the description of an enumeration of n values.
fn lay_described(work: &mut [u32], st: State, name: u32, n: u32) -> Placed
    ensures { LaysDescribed work.old st name n result work.new }
{
    let place = lay_enum_name(work, st, name);
    let x = enum_info(st.types, n);
    let top = lay_info(work, place, x);
    Placed { place, top }
}

// Lays the same for the type's name at p, and then the entries of the n names from an offset on.
fn lay_enum(text: &[u8], work: &mut [u32], st: State, p: usize, at: usize, n: u32) -> Placed
    ensures { LaysEnum text.now work.old st p at n result work.new }
{
    let name = name_number(text, p);
    let first = lay_described(work, st, name, n);
    let free = lay_values(text, work, st.types, st.scope.newest, n, first.top, at);
    put_in_order(text, work, st.top, n);
    Placed {
        place: first.place,
        top: free,
    }
}

// A line that makes an enumeration of the n names from an offset on, within the ceilings: its name is at p.
fn add_enum(
    text: &[u8],
    work: &mut [u32],
    types: &mut [u32],
    st: State,
    p: usize,
    at: usize,
    n: u32,
) -> Lined
    ensures { AddsEnum text.now work.old types.old st p at n result work.new types.new }
{
    let laid = lay_enum(text, work, st, p, at, n);
    put(types, st.types as usize, laid.place);
    Lined::held(type_state(st, one_more(n), st.top, 1, laid.top))
}

// The fault of an enumeration, from that of its names, how many they are, and whether the type's own name is new.
#[tactic(auto, using(crate::proofs::EnumValues::enum_fault_laws), unfolding(crate::specs::Values::enum_fault))]
fn enum_fault(f: Fault, n: u32, own: bool) -> Fault
    ensures { result ≡ enum_fault f n own }
{
    if is_form(f) || n == 0 {
        Fault::Form
    } else if own {
        f
    } else {
        Fault::Name
    }
}

// A line that makes an enumeration, past its head word; its name is at p.
pub fn enum_line(
    text: &[u8],
    work: &mut [u32],
    types: &mut [u32],
    st: State,
    p: usize,
    at: usize,
) -> Lined
    ensures { GivesMade text.now work.old types.old st p at (enum_in (first (stack_at text.now at))) result work.new types.new }
{
    let c = enum_names(text, work, st.scope, at);
    let own = is_fresh(text, work, st.scope, p, at);
    let e = enum_fault(c.fault, c.names, own);
    let f = end_fault(text, e, c.next);
    if is_clear(f) {
        if lines_fit(st.lines, c.names <= MOST_ENUM_NAMES) {
            add_enum(text, work, types, st, p, at, c.names)
        } else {
            Lined::past(st)
        }
    } else {
        Lined::failed(f, st)
    }
}
