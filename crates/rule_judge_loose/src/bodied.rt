// The lines with a body, `proc` and `main`.
ghost use Rattle.std.specs.Prelude.{◌≡◌};
ghost use Rattle.table_names.specs.Keys.{keyed};
ghost use Rattle.text_heads.specs.declared.LineHead.TheVariants.{Main, Proc};
ghost use Rattle.rule_judge.specs.Answers.{failed_entry};
ghost use Rattle.rule_judge_loose.specs.Entering.{NotesEased, loose_main, loose_proc, ProcDeclared, LooseEnters, LooseListed, ProcLoosely};

use crate::easing::{Eased, loose_body, with_fault};
use rule_body_notes::note_body;
use rule_declarations::{BODY_NUMBERS, name_at, named_fault};
use rule_faults::{Fault, is_form, lowest};
use rule_judge::entering::faulty;
use rule_known::{Entered, Known};
use rule_parameters::framing::{Opened, open_body, open_main, proc_fits, proc_state};
use rule_parameters::listing::{Listed, parameters_at};
use table_list::lay;
use table_names::declare;
use table_names::keys::name_number;

// `main`, by its body's answer.
fn main_entry(kn: Known, b: Eased) -> Entered
    ensures { result ≡ loose_main kn b }
{
    let st = kn.state;
    let fault = b.fault;
    let state = st.with_body(st.top);
    Entered {
        fault: fault,
        within: true,
        state: state,
        stmts: b.stmts,
        ended: true,
        main: 0,
    }
}

// The body that begins so, whose line goes to the bodies' table.
fn noted_body(
    text: &[u8],
    work: &mut [u32],
    types: &[u32],
    bodies: &mut [u32],
    kn: Known,
    o: Opened,
) -> Eased
    ensures { NotesEased text.now work.old types.now bodies.old kn o result work.new bodies.new }
{
    let b = loose_body(text, work, types, kn, o);
    note_body(text, bodies, kn, o);
    b
}

// The parts of `main`.
pub fn main_line(
    text: &[u8],
    work: &mut [u32],
    types: &[u32],
    bodies: &mut [u32],
    kn: Known,
    at: usize,
) -> Entered
    ensures { LooseEnters text.now work.old types.now bodies.old kn Main at result work.new types.now bodies.new }
{
    let st = kn.state;
    let o = open_main(st, at);
    let b = noted_body(text, work, types, bodies, kn, o);
    main_entry(kn, b)
}

// A procedure of n parameters, by its body's answer b: the place of its name's entry, and the free place u after that.
fn proc_entry(kn: Known, n: u32, b: Eased, entry: u32, u: u32) -> Entered
    ensures { result ≡ loose_proc kn n b entry u }
{
    let st = kn.state;
    let state = proc_state(st, n, entry, u);
    let fault = b.fault;
    Entered {
        fault: fault,
        within: proc_fits(st, n),
        state: state,
        stmts: b.stmts,
        ended: false,
        main: 0,
    }
}

// A node for the body of a procedure, which has its number and its frame alone, and the entry of its name at p, by the name's number. Those of a
// faulty line are never read.
fn proc_end(
    text: &[u8],
    work: &mut [u32],
    kn: Known,
    n: u32,
    o: Opened,
    b: Eased,
    p: usize,
) -> Entered
    ensures { ProcDeclared kn n o b (keyed text.now p) work.old result work.new }
{
    let st = kn.state;
    let ns = [st.procs, 0, 0, 0, o.frame];
    let t = lay(work, o.top, &ns);
    let name = name_number(text, p);
    let u = declare(
        work,
        t,
        name,
        2 + 4 * (st.procs % BODY_NUMBERS),
        o.top,
        st.scope.newest,
    );
    proc_entry(kn, n, b, t, u)
}

// The parts of `proc` after its name at p and its list c, f being their fault.
fn proc_listed(
    text: &[u8],
    work: &mut [u32],
    types: &[u32],
    bodies: &mut [u32],
    kn: Known,
    f: Fault,
    c: Listed,
    p: usize,
) -> Entered
    ensures { LooseListed text.now work.old types.now bodies.old kn f c p result work.new bodies.new }
{
    let st = kn.state;
    let o = open_body(text, work, types, st, c);
    let b = noted_body(text, work, types, bodies, kn, o);
    proc_end(text, work, kn, c.count, o, with_fault(b, f), p)
}

// The parts of `proc` after its name at p.
fn proc_named(
    text: &[u8],
    work: &mut [u32],
    types: &[u32],
    bodies: &mut [u32],
    kn: Known,
    p: usize,
    at: usize,
) -> Entered
    ensures { ProcLoosely text.now work.old types.now bodies.old kn p at result work.new bodies.new }
{
    let st = kn.state;
    let n = named_fault(text, work, st.scope, p, Fault::Clear);
    let c = parameters_at(text, work, types, st.scope, p, at);
    let l = c.fault;
    if is_form(l) {
        return faulty(kn, Fault::Form);
    }
    proc_listed(text, work, types, bodies, kn, lowest(n, l), c, p)
}

// The parts of `proc`.
pub fn proc_line(
    text: &[u8],
    work: &mut [u32],
    types: &[u32],
    bodies: &mut [u32],
    kn: Known,
    at: usize,
) -> Entered
    ensures { LooseEnters text.now work.old types.now bodies.old kn Proc at result work.new types.now bodies.new }
{
    match name_at(text, at) {
        Some(n) => proc_named(text, work, types, bodies, kn, n.at, n.next),
        None => faulty(kn, Fault::Form),
    }
}
