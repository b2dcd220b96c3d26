// A line's parts after its head word.
ghost use Rattle.std.specs.Prelude.{◌≡◌};
ghost use Rattle.text_heads.specs.declared.LineHead.TheVariants.{Main, Proc};
ghost use Rattle.rule_judge.specs.Answers.{main_entry, proc_entry, failed_entry};
ghost use Rattle.rule_judge.specs.Entering.{Enters, GivesOpened, ProcEnds, ProcListed, ProcNamed};

use rule_declarations::{BODY_NUMBERS, name_at, named_fault, var_line};
use rule_faults::{Fault, Got, is_clear, is_form, lowest};
use rule_known::judging::declared;
use rule_known::{Entered, Known};
use rule_parameters::framing::{Opened, open_body, open_main, proc_fits, proc_state};
use rule_parameters::listing::{Listed, parameters_at};
use rule_statements::body::body;
use rule_stmt_nodes::last::Head;
use rule_type_forms::type_line;
use table_names::declare;
use table_names::keys::name_number;
use text_heads::LineHead;

// A line that is faulty.
pub fn faulty(kn: Known, fault: Fault) -> Entered
    ensures { result ≡ failed_entry kn fault }
{
    let state = kn.state;
    Entered {
        fault: fault,
        within: false,
        state: state,
        stmts: kn.stmts,
        ended: false,
        main: 0,
    }
}

// `main`, by its body's answer.
fn main_entry(kn: Known, g: Got) -> Entered
    ensures { result ≡ main_entry kn g }
{
    let st = kn.state;
    let fault = g.fault;
    let state = st.with_body(g.top);
    Entered {
        fault: fault,
        within: true,
        state: state,
        stmts: g.kind,
        ended: true,
        main: g.place,
    }
}

// The body that begins so.
pub fn walk_body(text: &[u8], work: &mut [u32], types: &[u32], kn: Known, o: Opened) -> Got
    ensures { GivesOpened text.now work.old types.now kn o result work.new }
{
    let st = kn.state;
    let head = Head {
        number: st.procs,
        frame: o.frame,
    };
    body(text, work, types, o.scope, head, kn.stmts, o.at, o.top)
}

// The parts of `main`.
fn main_line(text: &[u8], work: &mut [u32], types: &[u32], kn: Known, at: usize) -> Entered
    ensures { Enters text.now work.old types.now kn Main at result work.new types.now }
{
    let st = kn.state;
    let g = walk_body(text, work, types, kn, open_main(st, at));
    main_entry(kn, g)
}

// A procedure of n parameters, by its body's answer; the free place after its entry is u.
fn proc_entry(kn: Known, fault: Fault, n: u32, g: Got, u: u32) -> Entered
    ensures { result ≡ proc_entry kn fault n g u }
{
    let st = kn.state;
    let state = proc_state(st, n, g.top, u);
    Entered {
        fault: fault,
        within: proc_fits(st, n),
        state: state,
        stmts: g.kind,
        ended: false,
        main: 0,
    }
}

// The entry of a procedure, by its name's number, where name and body have no fault.
fn proc_end(work: &mut [u32], kn: Known, fault: Fault, n: u32, g: Got, name: u32) -> Entered
    ensures { ProcEnds kn fault n g name work.old result work.new }
{
    if is_clear(fault) {
        let st = kn.state;
        let u = declare(
            work,
            g.top,
            name,
            2 + 4 * (st.procs % BODY_NUMBERS),
            g.place,
            st.scope.newest,
        );
        return proc_entry(kn, fault, n, g, u);
    }
    proc_entry(kn, fault, n, g, g.top)
}

// The parts of `proc` after its name at p and its list c, f being their fault.
fn proc_listed(
    text: &[u8],
    work: &mut [u32],
    types: &[u32],
    kn: Known,
    f: Fault,
    c: Listed,
    p: usize,
) -> Entered
    ensures { ProcListed text.now work.old types.now kn f c p result work.new }
{
    let st = kn.state;
    let o = open_body(text, work, types, st, c);
    let g = walk_body(text, work, types, kn, o);
    let h = g.fault;
    let name = name_number(text, p);
    proc_end(work, kn, lowest(f, h), c.count, g, name)
}

// The parts of `proc` after its name at p.
fn proc_named(
    text: &[u8],
    work: &mut [u32],
    types: &[u32],
    kn: Known,
    p: usize,
    at: usize,
) -> Entered
    ensures { ProcNamed text.now work.old types.now kn p at result work.new }
{
    let st = kn.state;
    let n = named_fault(text, work, st.scope, p, Fault::Clear);
    let c = parameters_at(text, work, types, st.scope, p, at);
    let l = c.fault;
    if is_form(l) {
        return faulty(kn, Fault::Form);
    }
    proc_listed(text, work, types, kn, lowest(n, l), c, p)
}

// The parts of `proc`.
fn proc_line(text: &[u8], work: &mut [u32], types: &[u32], kn: Known, at: usize) -> Entered
    ensures { Enters text.now work.old types.now kn Proc at result work.new types.now }
{
    match name_at(text, at) {
        Some(n) => proc_named(text, work, types, kn, n.at, n.next),
        None => faulty(kn, Fault::Form),
    }
}

// The parts after the head word.
// Kept: the kinds are closed and each has its own arm; closures or a table of functions would say the same twice.
pub fn enter(
    text: &[u8],
    work: &mut [u32],
    types: &mut [u32],
    kn: Known,
    head: LineHead,
    at: usize,
) -> Entered
    ensures { Enters text.now work.old types.old kn head at result work.new types.new }
{
    let st = kn.state;
    match head {
        LineHead::Type => declared(kn, type_line(text, work, types, st, at)),
        LineHead::Var => declared(kn, var_line(text, work, types, st, at)),
        LineHead::Proc => proc_line(text, work, types, kn, at),
        LineHead::Main => main_line(text, work, types, kn, at),
        LineHead::Nothing => faulty(kn, Fault::Form),
    }
}
