// A member's own fault.
ghost use Rattle.std.specs.Prelude.{◌≡◌};
ghost use Rattle.rule_expr_nodes.specs.Members.{member_fault};

use rule_faults::{Fault, is_clear};

// A member's own fault.
#[tactic(auto, using(crate::proofs::MembersMaking::member_fault_laws))]
pub fn member_fault(f: Fault, kind: u32, base: u32) -> Fault
    ensures { result ≡ member_fault f kind base }
{
    if is_clear(f) && kind != base {
        Fault::Kind
    } else {
        f
    }
}
