// What is held of the lines so far, the parts that declaring lines share, and the lines that declare variables.

#![tactic(auto)]

ghost use Rattle.std.specs.Prelude.{true, false, ◌≡◌, ◌+◌, ◌*◌, ◌%◌};
ghost use Rattle.table_scope.specs.Scene.{meaning_here};
ghost use Rattle.law.specs.Forms.{is_var};
ghost use Rattle.code.specs.Layout.{lay as laid};
ghost use Rattle.law.specs.Trees.{first};
ghost use Rattle.law_theorems.specs.Readings.{stack_at};
ghost use Rattle.text_heads.specs.Heads.{atom_of};
ghost use Rattle.rule_faults.specs.declared.Fault.TheVariants.{Clear};
ghost use Rattle.rule_declarations.specs.Names.{named_by, GivesName, new_fault, GivesLastType};
ghost use Rattle.rule_declarations.specs.State.{start_state, with_names, with_type_line, with_var, body_state, with_parameters};
ghost use Rattle.rule_declarations.specs.Lines.{lined_by, line_of, GivesLine};
ghost use Rattle.table_list.specs.Laid.{Laid};
ghost use Rattle.rule_declarations.specs.Vars.{vars_held, cells_held, vars_fit, var_entry, var_state, AddsVar, GivesVar};

use leaf_words::words::Word;
use rule_atoms::{Typed, type_name};
use rule_faults::{Fault, is_clear, is_form, lowest};
use table_list::TEXT_LENGTH;
use table_names::declare;
use table_names::keys::name_number;
use table_scope::{Meaning, Scope, TYPE_NUMBERS, describe, meaning_of};
use text_heads::{Atom, atom_of};
use text_parts::{Part, end_at, part_at};

// How many notes the checker keeps beside the working list: by type number the places of the types' descriptions (the walks' `types`), below
// 128; the others are free.
pub const NOTES: usize = 512;

// The ceilings of row 9 by document 01's words: "64 declared types", one for each `type` line.
pub const MOST_TYPE_LINES: u32 = 64;

// "128 variables".
const MOST_VARS: u32 = 128;

// "32 procedures".
pub const MOST_PROCS: u32 = 32;

// "2,048 cells in all variables and in any type".
pub const MOST_CELLS: u32 = 2048;

// "256 values in an index type".
pub const MOST_INDICES: u32 = 256;

// "256 enum names".
pub const MOST_ENUM_NAMES: u32 = 256;

// "16 fields".
pub const MOST_FIELDS: u32 = 16;

// Cells are counted modulo this, so that no sum is too large.
pub const CELL_NUMBERS: u32 = 4096;

// Variables and parameters are counted modulo this, where they are counted together.
const PARAMETER_NUMBERS: u32 = 256;

// Names are counted modulo this.
const NAME_NUMBERS: u32 = 65536;

// And bodies modulo this.
pub const BODY_NUMBERS: u32 = 16384;

// What is held of the lines so far: the names, the free place of the working list, how many types (the two built-in ones too), `type` lines,
// variables, cells, bodies, and parameters of all procedures.
#[derive(Clone, Copy)]
pub struct State {
    pub scope: Scope,
    pub top: u32,
    pub types: u32,
    pub lines: u32,
    pub vars: u32,
    pub cells: u32,
    pub procs: u32,
    pub parameters: u32,
}

impl State {
    // What is held before any line.
    #[tactic(auto, unfolding(crate::specs::State::start_state))]
    pub fn start() -> State
        ensures { result ≡ start_state }
    {
        let scope = Scope {
            count: 0,
            newest: 0,
            pairs: 0,
            vars: 0,
            parameters: 0,
        };
        State {
            scope,
            top: 1,
            types: 2,
            lines: 0,
            vars: 0,
            cells: 0,
            procs: 0,
            parameters: 0,
        }
    }

    // How many variables there are, with the parameters, which "count among the 128 variables and 2,048 cells".
    fn vars_held(self) -> u32
        ensures { result ≡ vars_held self }
    {
        self.vars % PARAMETER_NUMBERS + self.parameters % PARAMETER_NUMBERS
    }

    // And how many cells.
    fn cells_held(self) -> u32
        ensures { result ≡ cells_held self }
    {
        self.cells % CELL_NUMBERS + self.parameters % PARAMETER_NUMBERS
    }

    // Whether n variables more, of so many cells together, are within the ceilings of row 9.
    #[tactic(auto, using(crate::proofs::VarLines::fits_laws), unfolding(crate::specs::Vars::vars_fit))]
    pub fn vars_fit(self, n: u32, size: u32) -> bool
        ensures { result ≡ vars_fit self n size }
    {
        n <= MOST_VARS
            && size <= MOST_CELLS
            && self.vars_held() <= MOST_VARS - n
            && self.cells_held() <= MOST_CELLS - size
    }

    // What is held after so many names more, the newest at a place, with the free place then.
    pub fn with_names(self, names: u32, newest: u32, top: u32) -> State
        ensures { result ≡ with_names self names newest top }
    {
        let scope = Scope {
            count: self.scope.count % NAME_NUMBERS + names % NAME_NUMBERS,
            newest,
            pairs: 0,
            vars: 0,
            parameters: 0,
        };
        State { scope, top, ..self }
    }

    // What is held after a `type` line more that makes so many types.
    pub fn with_type_line(self, made: u32) -> State
        ensures { result ≡ with_type_line self made }
    {
        State {
            types: self.types % TYPE_NUMBERS + made % 2,
            lines: self.lines % TYPE_NUMBERS + 1,
            ..self
        }
    }

    // What is held after a variable more of so many cells.
    fn with_var(self, size: u32) -> State
        ensures { result ≡ with_var self size }
    {
        State {
            vars: self.vars % MOST_VARS + 1,
            cells: self.cells % CELL_NUMBERS + size % CELL_NUMBERS,
            ..self
        }
    }

    // What is held after a body more, with the free place then.
    pub fn with_body(self, top: u32) -> State
        ensures { result ≡ body_state self top }
    {
        State {
            top,
            procs: self.procs % BODY_NUMBERS + 1,
            ..self
        }
    }

    // What is held after n parameters more.
    pub fn with_parameters(self, n: u32) -> State
        ensures { result ≡ with_parameters self n }
    {
        State {
            parameters: self.parameters % PARAMETER_NUMBERS + n % PARAMETER_NUMBERS,
            ..self
        }
    }

    // What is held after a variable of so many cells and its name, with the free place then.
    #[tactic(auto, using(crate::proofs::VarLines::state_is))]
    fn with_named_var(self, size: u32, top: u32) -> State
        ensures { result ≡ var_state self size top }
    {
        self.with_names(1, self.top, top).with_var(size)
    }
}

// The answer for a line: its fault of rows 6 to 8; with no fault whether it is within the ceilings of row 9, and then what is held after it.
#[derive(Clone, Copy)]
pub struct Lined {
    pub fault: Fault,
    pub within: bool,
    pub state: State,
}

impl Lined {
    // A line that is accepted, with what is held after it.
    pub fn held(state: State) -> Lined
        ensures { result ≡ lined_by Clear true state }
    {
        Lined {
            fault: Fault::Clear,
            within: true,
            state,
        }
    }

    // A line past a ceiling of row 9, with what was held before it.
    pub fn past(state: State) -> Lined
        ensures { result ≡ lined_by Clear false state }
    {
        Lined::failed(Fault::Clear, state)
    }

    // A line with a fault, and what was held before it.
    pub fn failed(fault: Fault, state: State) -> Lined
        ensures { result ≡ lined_by fault false state }
    {
        Lined {
            fault,
            within: false,
            state,
        }
    }
}

// A free name: its offset, and where it ends.
#[derive(Clone, Copy)]
pub struct FreeName {
    pub at: usize,
    pub next: usize,
}

// The word at p that ends at q, if it is a free name.
fn name_word(w: Word, p: usize, q: usize) -> Option<FreeName>
    ensures { result ≡ named_by (atom_of w) p q }
{
    match atom_of(w) {
        Atom::Named => Some(FreeName { at: p, next: q }),
        _ => None,
    }
}

// The free name at an offset, if one stands there.
#[tactic(auto, using(crate::proofs::FreeNames::name_laws))]
pub fn name_at(text: &[u8], at: usize) -> Option<FreeName>
    ensures { GivesName text.now at result }
{
    match part_at(text, at) {
        Part::Leaf(w, p, q) => name_word(w, p, q),
        _ => None,
    }
}

// A fault, or row 7 where a name that a line declares has a meaning already.
fn new_fault(f: Fault, m: Meaning) -> Fault
    ensures { result ≡ new_fault f m }
{
    match m {
        Meaning::Unknown => f,
        _ => lowest(f, Fault::Name),
    }
}

// The fault of a line that declares the name at p, f being that of its other parts.
#[tactic(auto, using(crate::proofs::FreeNames::named_is))]
pub fn named_fault(text: &[u8], work: &[u32], scope: Scope, p: usize, f: Fault) -> Fault
    ensures { result ≡ new_fault f (meaning_here text.now work.now scope p) }
{
    new_fault(f, meaning_of(text, work, scope, p))
}

// The type that the last part of a form names; the next part stands past the form.
pub fn last_type(text: &[u8], work: &[u32], scope: Scope, at: usize) -> Typed
    ensures { GivesLastType text.now work.now scope at result }
{
    let t = type_name(text, work, scope, at);
    if is_form(t.fault) {
        return Typed::failed(Fault::Form, at);
    }
    match end_at(text, t.next) {
        Some(q) => Typed { next: q, ..t },
        None => Typed::failed(Fault::Form, at),
    }
}

// An offset in 32 bits.
pub fn narrow(p: usize) -> u32
    ensures { result ≡ p % 32768 }
{
    (p % TEXT_LENGTH) as u32
}

// Lays the entry of a variable, by its name's number; the free place then.
fn lay_var(work: &mut [u32], st: State, name: u32, kind: u32) -> u32
    ensures { Laid (laid (var_entry st name kind) st.top work.old) result work.new }
{
    let sort = 1 + 4 * (st.vars % MOST_VARS);
    let more = kind % TYPE_NUMBERS + TYPE_NUMBERS * (st.cells % CELL_NUMBERS);
    declare(work, st.top, name, sort, more, st.scope.newest)
}

// A line that declares a variable, with no fault of rows 6 to 8, by its name's number.
fn add_var(work: &mut [u32], types: &[u32], st: State, name: u32, kind: u32) -> Lined
    ensures { AddsVar work.old types.now st name kind result work.new }
{
    let x = describe(work, types, kind);
    if st.vars_fit(1, x.size) {
        let top = lay_var(work, st, name, kind);
        Lined::held(st.with_named_var(x.size, top))
    } else {
        Lined::past(st)
    }
}

// A `var` line from its type's name on; its name is at p.
fn var_after(text: &[u8], work: &mut [u32], types: &[u32], st: State, p: usize, at: usize) -> Lined
    ensures { GivesVar text.now work.old types.now st p at result work.new }
{
    let t = last_type(text, work, st.scope, at);
    let f = named_fault(text, work, st.scope, p, t.fault);
    if is_clear(f) {
        add_var(work, types, st, name_number(text, p), t.kind)
    } else {
        Lined::failed(f, st)
    }
}

// A `var` line, past its head word.
pub fn var_line(text: &[u8], work: &mut [u32], types: &[u32], st: State, at: usize) -> Lined
    ensures { GivesLine text.now work.old types.now st (line_of is_var 0 (first (stack_at text.now at))) result work.new types.now }
{
    match name_at(text, at) {
        Some(n) => var_after(text, work, types, st, n.at, n.next),
        None => Lined::failed(Fault::Form, st),
    }
}
