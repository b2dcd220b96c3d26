// The arguments of a call.
ghost use Rattle.mark_values.specs.Steps.{Takes};

use crate::values::Carried;
use code_calc::operators::test;
use code_calc::words::signed_of;
use table_scope::{describe, host_of};

impl Carried {
    // An argument for a parameter of type t: its kind is met before it is tested against an ordinal's bounds.
    #[tactic(auto, using(crate::proofs::Settling::argument_laws))]
    pub fn argument(self, work: &[u32], types: &[u32], t: u32) -> i64
        ensures { Takes work.now types.now t self result }
    {
        let i = describe(work, types, t);
        let w = self.wanted(host_of(work, types, t));
        if i.shape == 0 {
            test(w, signed_of(i.low), signed_of(i.high))
        } else {
            w
        }
    }
}
