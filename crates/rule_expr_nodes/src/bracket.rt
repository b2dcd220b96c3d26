// The closing bracket of a form whose last part is answered.
ghost use Rattle.std.specs.Prelude.{◌≡◌};
ghost use Rattle.rule_faults.specs.Got.{past_bracket};
ghost use Rattle.rule_expr_nodes.specs.Bracket.{Closes};

use rule_faults::{Fault, Got, failed};
use text_parts::end_at;

// The same answer, past the closing bracket.
fn past_bracket(g: Got, next: usize) -> Got
    ensures { result ≡ past_bracket g next }
{
    Got { next, ..g }
}

// The answer for a form's last part, past the closing bracket: a fault of row 6 where another part comes first.
#[tactic(auto, using(crate::proofs::Closing::closing_laws))]
pub fn closing(text: &[u8], g: Got) -> Got
    ensures { Closes text.now g result }
{
    let e = end_at(text, g.next);
    match e {
        Some(q) => past_bracket(g, q),
        None => failed(Fault::Form, 0, g.next, g.top),
    }
}
