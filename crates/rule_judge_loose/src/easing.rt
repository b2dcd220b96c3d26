// A body with its kinds left out.
ghost use Rattle.std.specs.Prelude.{◌≡◌};
ghost use Rattle.rule_judge_loose.specs.Easing.{eased_by, with_fault, GivesEased};

use rule_faults::{Fault, lowest};
use rule_judge::entering::walk_body;
use rule_known::Known;
use rule_parameters::framing::Opened;
use rule_restrictions::body::body_kept;

// The answer for a body: its fault of rows 6 to 8, kinds left out, and the number of its last statement.
#[derive(Clone, Copy)]
pub struct Eased {
    pub fault: Fault,
    pub stmts: u32,
}

// A fault with the kinds left out: row 8 stands where the other rules are not kept.
fn ease(f: Fault, kept: bool) -> Fault
    ensures { result ≡ eased_by f kept }
{
    match f {
        Fault::Clear => Fault::Clear,
        Fault::Kind => { if kept { Fault::Clear } else { Fault::Kind } }
        Fault::Name => Fault::Name,
        Fault::Form => Fault::Form,
    }
}

// The same answer with another fault beside its own.
pub fn with_fault(b: Eased, f: Fault) -> Eased
    ensures { result ≡ with_fault b f }
{
    let g = b.fault;
    Eased {
        fault: lowest(f, g),
        stmts: b.stmts,
    }
}

// The body that begins so. Its code is laid past the free place and forgotten.
pub fn loose_body(text: &[u8], work: &mut [u32], types: &[u32], kn: Known, o: Opened) -> Eased
    ensures { GivesEased text.now work.old types.now kn o result work.new }
{
    let kept = body_kept(text, work, o.scope, o.at);
    let g = walk_body(text, work, types, kn, o);
    let f = g.fault;
    let fault = ease(f, kept);
    Eased {
        fault: fault,
        stmts: g.kind,
    }
}
